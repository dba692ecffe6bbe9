ghost use Rattle.ways.specs.Policies.{Queues, fifo};
ghost use Rattle.ways.specs.Row.{orders_of};
ghost use Rattle.ways.specs.PoliciesLemmas.{fifo_ordered};

use super::Policy;
use super::order::Row;
use crate::block::Block;
use crate::mapping::Mapping;
use crate::slot::Slot;

// The block that came up first is given up first.
#[derive(Drop)]
pub struct Fifo {
    row: Row,
}

impl<M: Mapping> Policy<M> for Fifo {
    ghost State = { Queues };

    ghost state = { λ p. orders_of M.Mapping.shape p.row.bytes };

    ghost orders = { fifo };

    ghost ordered = { fifo_ordered _ _ };

    fn fresh() -> Self {
        Fifo {
            row: Row::fresh::<M>(),
        }
    }

    fn victim(&self, block: Block) -> Slot {
        self.row.last::<M>(block)
    }

    // The order is that of the loads, which a hit leaves.
    fn hit(&mut self, _slot: Slot) {}

    fn loaded(&mut self, slot: Slot) {
        self.row.put_first::<M>(slot);
    }

    fn emptied(&mut self, slot: Slot) {
        self.row.put_last::<M>(slot);
    }
}
