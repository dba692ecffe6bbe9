ghost use Rattle.std.specs.Prelude.{◌≡◌, ◌+◌, ◌<◌, ◌≤◌, slice_set};
ghost use Rattle.cache.specs.Transfer.{SendsByte, FetchesByte, byte_below, Sends, Fetches};

use level::Level;
use ways::Block;

// A byte is written below: 1 clock and those of the write. A refusal has no clocks.
fn send_byte<L: Level>(below: &mut L, address: u16, byte: u8) -> u32
    ensures { SendsByte L.Level below.old address byte result below.new }
{
    below
        .write(address, byte)
        .map_or(0, |done| done.clocks)
        .saturating_add(1)
}

// A block is written below, its first byte first. Four calls in a row are as long as a loop over the four bytes and
// their addresses, and need no invariant.
pub(crate) fn send<L: Level>(below: &mut L, block: Block, bytes: [u8; 4]) -> u32
    ensures { Sends L.Level below.old block.number bytes result below.new }
{
    let address = 4 * block.number();
    let [b0, b1, b2, b3] = bytes;
    send_byte(below, address, b0)
        .saturating_add(send_byte(below, address + 1, b1))
        .saturating_add(send_byte(below, address + 2, b2))
        .saturating_add(send_byte(below, address + 3, b3))
}

// A place of the block at an address is read from below, for 2 clocks and those of the read. A refusal has no byte and no
// clocks, and counts as 0 for both.
fn fetch_byte<L: Level>(below: &mut L, address: u16, place: u16, bytes: &mut [u8; 4]) -> u32
    requires { (address ≤ 65532) × (place < 4) }
    ensures below { FetchesByte L.Level below.old (address + place) result below.new }
    ensures bytes { bytes.new ≡ slice_set bytes.old place (byte_below L.Level below.old (address + place)) }
{
    let done = below.read(address + place).unwrap_or_default();
    bytes[place as usize] = done.value;
    done.clocks.saturating_add(2)
}

// The block of an address is read from below, from the called byte on and round: its bytes, and the clocks. Four calls in
// a row, as in `send`.
pub(crate) fn fetch<L: Level>(below: &mut L, address: u16) -> ([u8; 4], u32)
    ensures { Fetches L.Level below.old address result.1 result.0 below.new }
{
    let block = 4 * (address / 4);
    let first = address % 4;
    let mut bytes = [0; 4];
    let clocks = fetch_byte(below, block, first, &mut bytes)
        .saturating_add(fetch_byte(below, block, (first + 1) % 4, &mut bytes))
        .saturating_add(fetch_byte(below, block, (first + 2) % 4, &mut bytes))
        .saturating_add(fetch_byte(below, block, (first + 3) % 4, &mut bytes));
    (bytes, clocks)
}
