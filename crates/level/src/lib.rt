// A level of memory: the calls that it takes, what it means, and what every run of it keeps.

#![tactic(auto)]

mod laws;
mod level;
// Public, so that crates above can pass deeper by its name.
pub mod refusal;

pub use laws::{
    guard_check_tells, guard_keeps_meaning, guard_runs_below, image_keeps_meaning,
    level_like_array, level_promise, memory_checks_tell, modules_keep_meaning, plain_keeps_meaning,
};
pub use level::{Access, Done, Level};
pub use refusal::deeper;
