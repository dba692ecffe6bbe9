// A pile in use. While it runs it takes every call; settled, it may only be read, resumed or ended, and every byte of the
// lowest memory is the byte seen. Each run comes with a save slip, which only settling uses up.

#![tactic(auto)]

mod account;
mod running;
mod settled;
mod slip;

pub use account::Account;
pub use running::Running;
pub use settled::Settled;
pub use slip::SaveSlip;
