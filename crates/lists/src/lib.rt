// Runs request lists on a pile of any kind.

#![tactic(auto)]

mod requests;
mod runs;

pub use requests::serve;
pub use runs::run_list;
