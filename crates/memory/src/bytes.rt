ghost use Rattle.std.specs.Borrow.{GName};
ghost use Rattle.std.specs.Prelude.{◌≡◌, ℕ, List, [], ◌∷◌, length, slice_index, slice_set};

use std::convert::AsSlice;

// Bytes that a memory stands on, held for reading.
pub trait Bytes {
    ghost content: { Self → List ℕ };

    fn count(&self) -> usize
        ensures { result ≡ length (content self.now) };

    // The byte at a place, and 0 past the end.
    fn get(&self, place: usize) -> u8
        ensures { result ≡ slice_index (content self.now) place };
}

// Bytes that can be written too.
pub trait BytesMut: Bytes {
    // The memory behind them, which the caller lends.
    ghost lent: { Self → List GName };

    // Sets the byte at a place; past the end there is none.
    fn put(&mut self, place: usize, byte: u8)
        ensures content { Self.Bytes.content self.new ≡ slice_set (Self.Bytes.content self.old) place byte }
        ensures lent { lent self.new ≡ lent self.old };
}

// A slice of bytes that the caller lets be read, or one that the caller lends. Not all that can be read as a slice: a
// builder's type that can be may hold other bytes for a memory than its slice has, by an `impl Bytes` of its own.
pub trait LentSlice: AsSlice<u8> {}

impl LentSlice for &[u8] {}

impl LentSlice for &mut [u8] {}

impl<B: LentSlice> Bytes for B {
    ghost content = { B.AsSlice.items };

    fn count(&self) -> usize {
        self.as_slice().len()
    }

    fn get(&self, place: usize) -> u8 {
        self.as_slice().get(place).copied().unwrap_or(0)
    }
}

// Bytes that the caller lends.
impl BytesMut for &mut [u8] {
    ghost lent = { λ s. s.ghost_name ∷ [] };

    // By index, since the check does not follow what `get_mut` lends out of a slice that is itself lent.
    fn put(&mut self, place: usize, byte: u8) {
        if place < self.len() {
            self[place] = byte;
        }
    }
}
