ghost use Rattle.std.specs.Prelude.{◌≡◌, ℕ, ◌<◌};
ghost use Rattle.ways.specs.Ways.{Shape, Mapped};

use crate::block::Block;

pub mod modulo;

// Which entries of a table of eight may hold a block: those of one set, as many as there are ways. The law `counts` ties
// the two constants to the shape.
pub trait Mapping {
    ghost SETS: { ℕ };

    const SETS: usize;

    ghost WAYS: { ℕ };

    const WAYS: usize;

    ghost shape: { Shape };

    // The set of a block, and the tag that tells it from the other blocks of that set.
    fn split(block: Block) -> (u8, u16)
        ensures pair { result ≡ shape.split block.number }
        ensures below { result.0 < shape.sets };

    // The block of a set and a tag.
    fn join(pair: (u8, u16)) -> Block
        ensures { result.number ≡ shape.join pair };

    ghost counts: { (SETS ≡ shape.sets) × (WAYS ≡ shape.ways) };

    ghost mapped: { Mapped shape };
}
