ghost use Rattle.ways.specs.Policies.{Queues, lru};
ghost use Rattle.ways.specs.Row.{orders_of};
ghost use Rattle.ways.specs.PoliciesLemmas.{lru_ordered};

use super::Policy;
use super::order::Row;
use crate::block::Block;
use crate::mapping::Mapping;
use crate::slot::Slot;

// The block that was not called for longest is given up first. A type beside Fifo with its own `hit`: the row has all that
// the two share, and a parameter for what a hit does would be longer than the calls of the row.
#[derive(Drop)]
pub struct Lru {
    row: Row,
}

impl<M: Mapping> Policy<M> for Lru {
    ghost State = { Queues };

    ghost state = { λ p. orders_of M.Mapping.shape p.row.bytes };

    ghost orders = { lru };

    ghost ordered = { lru_ordered _ _ };

    fn fresh() -> Self {
        Lru {
            row: Row::fresh::<M>(),
        }
    }

    fn victim(&self, block: Block) -> Slot {
        self.row.last::<M>(block)
    }

    fn hit(&mut self, slot: Slot) {
        self.row.put_first::<M>(slot);
    }

    fn loaded(&mut self, slot: Slot) {
        self.row.put_first::<M>(slot);
    }

    fn emptied(&mut self, slot: Slot) {
        self.row.put_last::<M>(slot);
    }
}
