ghost use Rattle.std.specs.Prelude.{◌≡◌, ℕ, ◌+◌, ◌-◌, ◌*◌, ◌%◌, ◌<◌, ◌≤◌, [], length, slice_index, slice_index_or};
ghost use Rattle.ways.specs.Policies.{put_first, put_last, first_in, last_in, fresh};
ghost use Rattle.ways.specs.Row.{ways_of, orders_of};
ghost use Rattle.ways.specs.Slots.{set_of, way_of, at_slot, Victim};

use crate::block::Block;
use crate::mapping::Mapping;
use crate::slot::Slot;

// The orders of all sets, in one row of bytes: each set has as many places as there are ways.
// A byte is read modulo the number of ways, so every row has an order for each set. It has no Model, since what it means
// hangs on the mapping, which its calls get.
#[derive(Drop)]
pub(super) struct Row {
    pub(super) bytes: [u8; 8],
}

impl Row {
    // The row for a table whose entries are empty.
    pub(super) fn fresh<M: Mapping>() -> Row
        ensures { orders_of M.Mapping.shape result.bytes ≡ fresh M.Mapping.shape.sets M.Mapping.shape.ways }
    {
        Row {
            bytes: new_row(M::WAYS),
        }
    }

    // The slot of the last way of a block's set.
    pub(super) fn last<M: Mapping>(&self, block: Block) -> Slot
        ensures { Victim M.Mapping.shape (λ set. slice_index_or (orders_of M.Mapping.shape self.now.bytes) set []) block.number result.index }
    {
        let ways = M::WAYS;
        let (set, _) = M::split(block);
        let base = set as usize * ways;
        let last = self.bytes[base + ways - 1];
        Slot::wrapping(base + last as usize % ways)
    }

    // The way of a slot goes first in its set.
    pub(super) fn put_first<M: Mapping>(&mut self, slot: Slot)
        ensures { orders_of M.Mapping.shape self.new.bytes ≡ at_slot M.Mapping.shape first_in (orders_of M.Mapping.shape self.old.bytes) slot.index }
    {
        let (base, way) = place::<M>(slot);
        to_front(&mut self.bytes[base..base + M::WAYS], way);
    }

    // The way of a slot goes last in its set.
    pub(super) fn put_last<M: Mapping>(&mut self, slot: Slot)
        ensures { orders_of M.Mapping.shape self.new.bytes ≡ at_slot M.Mapping.shape last_in (orders_of M.Mapping.shape self.old.bytes) slot.index }
    {
        let (base, way) = place::<M>(slot);
        to_back(&mut self.bytes[base..base + M::WAYS], way);
    }
}

// In each set the highest way is first.
fn new_row(ways: usize) -> [u8; 8]
    requires { (0 < ways) × (ways ≤ 8) }
    ensures { (k : ℕ) → k < 8 → slice_index result k ≡ ways - 1 - k % ways }
{
    std::array::from_fn(|place| (ways - 1 - place % ways) as u8)
}

// The first place of a slot's set, and the slot's way.
fn place<M: Mapping>(slot: Slot) -> (usize, usize)
    ensures base { result.0 ≡ set_of M.Mapping.shape slot.index * M.Mapping.shape.ways }
    ensures way { result.1 ≡ way_of M.Mapping.shape slot.index }
    ensures within { result.0 + M.Mapping.shape.ways ≤ 8 }
    ensures below { result.1 < M.Mapping.shape.ways }
{
    let index = slot.index();
    (index / M::WAYS * M::WAYS, index % M::WAYS)
}

// A way goes first in an order; the ones before it move back by one place. A loop, since `position` and `rotate_right`
// take longer for a way that is not first.
fn to_front(order: &mut [u8], way: usize)
    requires { (way < length order.old) × (length order.old ≤ 8) }
    ensures { ways_of (length order.old) order.new ≡ put_first way (ways_of (length order.old) order.old) }
{
    let ways = order.len();
    let mut carried = way;
    for byte in order.iter_mut() {
        let met = *byte as usize % ways;
        *byte = carried as u8;
        // The ways behind it stay, and one that is first already costs a single turn.
        if met == way {
            return;
        }
        carried = met;
    }
}

// A way goes last in an order; the ones behind it move forward by one place.
fn to_back(order: &mut [u8], way: usize)
    requires { (way < length order.old) × (length order.old ≤ 8) }
    ensures { ways_of (length order.old) order.new ≡ put_last way (ways_of (length order.old) order.old) }
{
    let ways = order.len();
    let mut carried = way;
    // By place, since a proof knows nothing of what was written through `iter_mut().rev()`, and to turn the order round
    // before and after takes four times as long.
    for i in (0..ways).rev() {
        let met = order[i] as usize % ways;
        order[i] = carried as u8;
        if met == way {
            return;
        }
        carried = met;
    }
}
