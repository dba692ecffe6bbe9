ghost use Rattle.std.specs.Prelude.{◌≡◌, ℕ, ◌*◌, refl};
ghost use Rattle.std.proofs.Common.{rules};
ghost use Rattle.ways.specs.Ways.{modulo};

use super::Mapping;
use crate::block::Block;

// A mapping whose set is the remainder of the block's number by the number of sets, and whose tag is the quotient: blocks
// that follow one another lie in different sets, as far as there are sets. A trait with a law, and no type with two const
// parameters, since such a type could not ask that their product is 8.
pub trait Modulo {
    ghost SETS: { ℕ };

    const SETS: usize;

    ghost WAYS: { ℕ };

    const WAYS: usize;

    ghost product: { SETS * WAYS ≡ 8 };
}

impl<T: Modulo> Mapping for T {
    ghost SETS = { T.Modulo.SETS };

    const SETS: usize = T::SETS;

    ghost WAYS = { T.Modulo.WAYS };

    const WAYS: usize = T::WAYS;

    ghost shape = { modulo T.Modulo.SETS T.Modulo.WAYS };

    ghost counts = { Prim.search rules };

    ghost mapped = { Prim.search rules };

    fn split(block: Block) -> (u8, u16) {
        let number = block.number();
        let sets = T::SETS as u16;
        ((number % sets) as u8, number / sets)
    }

    // A pair that no block has gives some block all the same.
    fn join(pair: (u8, u16)) -> Block {
        let (set, tag) = pair;
        Block::wrapping(tag as u32 * T::SETS as u32 + set as u32)
    }
}

// Eight sets of one way: one entry may hold a block.
#[derive(Drop)]
pub struct Direct {}

impl Modulo for Direct {
    ghost SETS = { 8 };

    const SETS: usize = 8;

    ghost WAYS = { 1 };

    const WAYS: usize = 1;

    ghost product = { refl };
}

// Four sets of two ways: two entries may hold a block.
#[derive(Drop)]
pub struct SetAssociative {}

impl Modulo for SetAssociative {
    ghost SETS = { 4 };

    const SETS: usize = 4;

    ghost WAYS = { 2 };

    const WAYS: usize = 2;

    ghost product = { refl };
}

// One set of eight ways: every entry may hold every block.
#[derive(Drop)]
pub struct Associative {}

impl Modulo for Associative {
    ghost SETS = { 1 };

    const SETS: usize = 1;

    ghost WAYS = { 8 };

    const WAYS: usize = 8;

    ghost product = { refl };
}
