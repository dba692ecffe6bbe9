ghost use Rattle.std.specs.Prelude.{◌≡◌, [], ◌∷◌, slice_index};
ghost use Rattle.level.specs.Level.Call.{write as write_call};
ghost use Rattle.level.specs.Memory.{plain_rules};
ghost use Rattle.memory.specs.Plains.{plain_made};

use crate::{Bytes, Guard, Image, Modules, Plain};
use level::{Access, Done, Level};
use std::convert::AsSlice;
use words::{CallRefusal, GuardRefusal, MemoryRefusal, Refusal};

fn done(value: u8, clocks: u32) -> Done {
    Done { value, clocks }
}

fn out_of_range(address: u16, depth: u8) -> CallRefusal {
    CallRefusal::OutOfRange { address, depth }
}

fn read_only(address: u16, depth: u8) -> CallRefusal {
    CallRefusal::ReadOnly { address, depth }
}

#[test]
fn lengths_and_figures(rt: HostRuntime) {
    assert_eq!(rt; Plain::<&mut [u8]>::check(0, 1), Err(MemoryRefusal::Length));
    assert_eq!(rt; Plain::<&mut [u8]>::check(6, 1), Err(MemoryRefusal::Length));
    assert_eq!(rt;
        Plain::<&mut [u8]>::check(65540, 0),
        Err(MemoryRefusal::Length)
    );
    assert_eq!(rt; Plain::<&mut [u8]>::check(4, 1), Ok(()));
    assert_eq!(rt; Image::<&[u8]>::check(65536, 15), Ok(()));
    assert_eq!(rt; Image::<&[u8]>::check(4, 0), Err(MemoryRefusal::Figure));
    assert_eq!(rt; Image::<&[u8]>::check(4, 16), Err(MemoryRefusal::Figure));
    assert_eq!(rt; Modules::<&mut [u8]>::check(2, 2, 2, 5), Ok(()));
    assert_eq!(rt;
        Modules::<&mut [u8]>::check(2, 2, 5, 2),
        Err(MemoryRefusal::Figure)
    );
    assert_eq!(rt;
        Modules::<&mut [u8]>::check(2, 1, 2, 5),
        Err(MemoryRefusal::Length)
    );
}

// A memory that is let go leaves in the caller's bytes what its rule says.
fn write_once(bytes: &mut [u8], address: u16, byte: u8)
    ensures { bytes.new ≡ (plain_rules.step (plain_made bytes.old 3) (write_call address byte)).next.bytes }
{
    let mut memory = Plain::new(bytes, 3);
    let _ = memory.write(address, byte);
}

#[test]
fn bytes_are_the_callers(rt: HostRuntime) {
    let mut bytes = [0; 8];
    write_once(bytes.as_mut_slice(), 5, 9);
    assert_eq!(rt; bytes, [0, 0, 0, 0, 0, 9, 0, 0]);
}

#[test]
fn bytes_come_back(rt: HostRuntime) {
    let mut bytes = [0; 4];
    let mut memory = Plain::new(bytes.as_mut_slice(), 15);
    assert_eq!(rt; memory.write(4, 1), Err(out_of_range(4, 0)));
    assert_eq!(rt; memory.write(3, 9), Ok(done(9, 15)));
    assert_eq!(rt; memory.read(3), Ok(done(9, 15)));
    assert_eq!(rt; memory.return_block(0), Ok(done(0, 0)));
    let bytes = memory.into_bytes();
    assert!(rt; bytes.len() == 4);
    assert_eq!(rt; bytes[3], 9);
}

#[test]
fn the_longest_memory_and_none(rt: HostRuntime) {
    let mut bytes = [0; 65536];
    let mut memory = Plain::new(bytes.as_mut_slice(), 3);
    assert_eq!(rt; memory.write(65535, 7), Ok(done(7, 3)));
    let mut none = Plain::new(memory.into_bytes(), 16);
    assert_eq!(rt; none.read(0), Err(out_of_range(0, 0)));
    assert_eq!(rt; none.return_all(), 0);
}

#[test]
fn two_modules(rt: HostRuntime) {
    let mut even = [10, 12];
    let mut odd = [11, 13];
    let mut memory = Modules::new(even.as_mut_slice(), odd.as_mut_slice(), 2, 5);
    assert_eq!(rt; memory.read(0), Ok(done(10, 5)));
    assert_eq!(rt; memory.read(1), Ok(done(11, 2)));
    assert_eq!(rt; memory.write(3, 9), Ok(done(9, 5)));
    assert_eq!(rt; memory.read(4), Err(out_of_range(4, 0)));
    assert_eq!(rt; memory.read(2), Ok(done(12, 2)));
    assert_eq!(rt; memory.read(3), Ok(done(9, 2)));
}

#[test]
fn image(rt: HostRuntime) {
    let bytes = [1, 2, 3, 4];
    let mut memory = Image::new(bytes.as_slice(), 15);
    assert_eq!(rt; memory.read(2), Ok(done(3, 15)));
    assert_eq!(rt; memory.query(2, Access::Read), Ok(()));
    assert_eq!(rt; memory.query(2, Access::Write), Err(read_only(2, 0)));
    assert_eq!(rt; memory.write(2, 9), Err(read_only(2, 0)));
    assert_eq!(rt; memory.write(4, 9), Err(out_of_range(4, 0)));
}

#[test]
fn guard_ranges(rt: HostRuntime) {
    let mut bytes = [0; 16];
    let memory = Plain::new(bytes.as_mut_slice(), 1);
    assert_eq!(rt; Guard::check(&memory, 0, 0), Err(GuardRefusal::NoBlocks));
    assert_eq!(rt; Guard::check(&memory, 0, 1), Ok(()));
    assert_eq!(rt; Guard::check(&memory, 3, 1), Ok(()));
    assert_eq!(rt; Guard::check(&memory, 0, 4), Ok(()));
    assert_eq!(rt; Guard::check(&memory, 3, 2), Err(GuardRefusal::BeyondSize));
    assert_eq!(rt;
        Guard::check(&memory, 65535, 65535),
        Err(GuardRefusal::BeyondSize)
    );
}

#[test]
fn guard_over_guard(rt: HostRuntime) {
    let mut bytes = [0; 16];
    let inner = Guard::new(Plain::new(bytes.as_mut_slice(), 1), 3, 1);
    let mut outer = Guard::new(inner, 0, 1);
    assert_eq!(rt; outer.write(3, 9), Err(read_only(3, 0)));
    assert_eq!(rt; outer.write(12, 9), Err(read_only(12, 1)));
    assert_eq!(rt; outer.write(11, 9), Ok(done(9, 1)));
    assert_eq!(rt; outer.read(16), Err(out_of_range(16, 2)));
    let mut none = Guard::new(outer, 0, 5);
    assert_eq!(rt; none.read(0), Err(out_of_range(0, 0)));
}

fn number<E>(refusal: E) -> u8
where
    Refusal: From<E>,
{
    Refusal::from(refusal).number()
}

#[test]
fn refusals_by_number(rt: HostRuntime) {
    let mut bytes = [0; 16];
    let memory = Plain::new(bytes.as_mut_slice(), 1);
    assert_eq!(rt; memory.query(16, Access::Read).map_err(number), Err(1));
    assert_eq!(rt; Plain::<&mut [u8]>::check(65540, 0).map_err(number), Err(3));
    assert_eq!(rt; Image::<&[u8]>::check(4, 16).map_err(number), Err(4));
    assert_eq!(rt;
        Modules::<&mut [u8]>::check(2, 1, 2, 5).map_err(number),
        Err(3)
    );
    assert_eq!(rt;
        Modules::<&mut [u8]>::check(2, 2, 5, 2).map_err(number),
        Err(4)
    );
    assert_eq!(rt; Guard::check(&memory, 0, 0).map_err(number), Err(5));
    assert_eq!(rt; Guard::check(&memory, 3, 2).map_err(number), Err(6));
    let guard = Guard::new(memory, 0, 1);
    assert_eq!(rt; guard.query(3, Access::Write).map_err(number), Err(2));
}

// A builder's bytes, which a memory reads from the back, whatever the slice is that they can be read as.
#[derive(Drop)]
struct Backwards {
    bytes: [u8; 4],
}

impl AsSlice<u8> for Backwards {
    ghost items = { λ b. b.bytes };

    fn as_slice(&self) -> &[u8] {
        &self.bytes[..]
    }
}

impl Bytes for Backwards {
    ghost content = { λ b. slice_index b.bytes 3 ∷ (slice_index b.bytes 2 ∷ (slice_index b.bytes 1 ∷ (slice_index b.bytes 0 ∷ []))) };

    fn count(&self) -> usize {
        4
    }

    fn get(&self, place: usize) -> u8 {
        match place {
            0 => self.bytes[3],
            1 => self.bytes[2],
            2 => self.bytes[1],
            3 => self.bytes[0],
            _ => 0,
        }
    }
}

#[test]
fn bytes_of_a_builder(rt: HostRuntime) {
    let bytes = [1, 2, 3, 4];
    assert_eq!(rt; bytes.get(4), None);
    let mut memory = Image::new(Backwards { bytes }, 3);
    assert_eq!(rt; memory.read(0), Ok(done(4, 3)));
    assert_eq!(rt; memory.read(3), Ok(done(1, 3)));
    assert_eq!(rt; memory.read(4), Err(out_of_range(4, 0)));
}
