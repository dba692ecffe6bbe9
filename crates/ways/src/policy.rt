ghost use Rattle.std.specs.Prelude.{◌≡◌};
ghost use Rattle.ways.specs.Slots.{at_slot, Victim};
ghost use Rattle.ways.specs.Ways.{Orders, Ordered};

use crate::block::Block;
use crate::mapping::Mapping;
use crate::slot::Slot;

pub mod fifo;
pub mod lru;
mod order;

// In which order the ways of each set are to be given up: the last first.
pub trait Policy<M: Mapping>: Sized {
    ghost State: { Type 0 };

    ghost state: { Self → State };

    ghost orders: { Orders State };

    // The orders for a table whose entries are empty.
    fn fresh() -> Self
        ensures { state result ≡ orders.start M.Mapping.shape.sets M.Mapping.shape.ways };

    // The entry to load a block into.
    fn victim(&self, block: Block) -> Slot
        ensures { Victim M.Mapping.shape (orders.order (state self.now)) block.number result.index };

    // The entry held the block that was called.
    fn hit(&mut self, slot: Slot)
        ensures { state self.new ≡ at_slot M.Mapping.shape orders.hit (state self.old) slot.index };

    // The entry was loaded.
    fn loaded(&mut self, slot: Slot)
        ensures { state self.new ≡ at_slot M.Mapping.shape orders.loaded (state self.old) slot.index };

    // The entry was emptied.
    fn emptied(&mut self, slot: Slot)
        ensures { state self.new ≡ at_slot M.Mapping.shape orders.emptied (state self.old) slot.index };

    ghost ordered: { Ordered orders M.Mapping.shape.sets M.Mapping.shape.ways };
}
