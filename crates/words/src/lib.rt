// The words that a drive and this library exchange: requests, results and refusals.

#![tactic(auto)]

mod list;
mod reader;
mod refusal;
mod request;
mod result;
mod wait;

pub use list::{LONGEST_LIST, ListSummary, check_list};
pub use reader::Reader;
pub use refusal::{CallRefusal, GuardRefusal, ListRefusal, MemoryRefusal, Refusal};
pub use request::{Operation, Request, Word};
pub use result::{Accepted, CallResult, ResultWord};
pub use wait::Wait;

#[cfg(test)]
mod tests;
