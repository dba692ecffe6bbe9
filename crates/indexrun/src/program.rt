ghost use Rattle.std.specs.Prelude.{◌≡◌, IfOk, string_bytes};
ghost use Rattle.indexrun.specs.Examples.{WorkedExamples};
ghost use Rattle.indexrun.specs.Program.{program_text};

use crate::listing::listing;
use cache::Cache;
use memory::Plain;
use std::alloc::{AllocError, Global};
use ways::{Fifo, SetAssociative};

// What the program prints of a list. Each run has a fresh pile: a cache over zero bytes.
pub fn indexrun_text(heap: Global, list: &[u8]) -> Result<String, AllocError>
    ensures { IfOk result (λ s. string_bytes s ≡ program_text list.now) }
{
    let mut bytes = [0; 256];
    let mut pile: Cache<Plain<&mut [u8]>, SetAssociative, Fifo> = Cache::over(Plain::new(
        &mut bytes[..],
        3,
    ));
    listing(heap, &mut pile, list)
}

// What the program prints of some lists, worked out from the rules. The function does nothing: its contract is the theorem.
pub fn worked_examples()
    ensures { WorkedExamples }
{}
