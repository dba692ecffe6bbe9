// The call by which the firmware of a drive, in C, runs a request list.

#![tactic(auto)]

mod host;
mod piles;

pub use host::volleyholly_run;

#[cfg(test)]
mod tests;
