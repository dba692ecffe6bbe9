// A write-back cache over any level of memory, with any mapping and any policy.

#![tactic(auto)]

mod entry;
mod laws;

pub use entry::Entry;
pub use laws::{bench_rows, cache_keeps_meaning, pile_promise};
