ghost use Rattle.std.specs.Prelude.{◌≡◌, if◌then◌else◌, Ok, Err};
ghost use Rattle.words.specs.declared.refusal.MemoryRefusal.TheVariants.{Length, Figure};
ghost use Rattle.level.specs.Memory.{length_ok, figure_ok};
ghost use Rattle.memory.specs.Reach.{reached};

use level::Done;
use words::{CallRefusal, MemoryRefusal};

// The most bytes that a memory may have: as many as there are addresses.
const LONGEST: usize = 65536;

// What a return gives in a memory: it costs nothing. Each memory says so in an impl of its own, since their rules differ.
// A call of a shared function would be as long as what it says.
pub const RETURNED: Done = Done {
    value: 0,
    clocks: 0,
};

// A memory has whole blocks, and at least one. Any other length is refused.
pub fn check_length(length: usize) -> Result<(), MemoryRefusal>
    ensures { result ≡ (if length_ok length then Ok tt else Err Length) }
{
    if (1..=LONGEST).contains(&length) && length % 4 == 0 {
        Ok(())
    } else {
        Err(MemoryRefusal::Length)
    }
}

// An access costs from 1 to 15 clocks. Any other figure is refused.
pub fn check_figure(figure: u8) -> Result<(), MemoryRefusal>
    ensures { result ≡ (if figure_ok figure then Ok tt else Err Figure) }
{
    if (1..=15).contains(&figure) {
        Ok(())
    } else {
        Err(MemoryRefusal::Figure)
    }
}

// An address that is not below the size of a memory is refused.
pub fn reach(size: usize, address: u16) -> Result<(), CallRefusal>
    ensures { result ≡ reached size address }
{
    if usize::from(address) < size {
        Ok(())
    } else {
        Err(CallRefusal::OutOfRange { address, depth: 0 })
    }
}
