// The write-back cache that runs, over any level of memory, with any mapping and any policy.

#![tactic(auto)]

mod cache;
mod table;
mod transfer;

pub use cache::Cache;
