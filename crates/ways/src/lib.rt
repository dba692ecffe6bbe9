// Where a cache of eight entries keeps its blocks, and which entry it gives up next.

#![tactic(auto)]

mod block;
mod mapping;
mod policy;
mod slot;

pub use block::Block;
pub use mapping::Mapping;
pub use mapping::modulo::{Associative, Direct, Modulo, SetAssociative};
pub use policy::Policy;
pub use policy::fifo::Fifo;
pub use policy::lru::Lru;
pub use slot::Slot;

#[cfg(test)]
mod tests;
