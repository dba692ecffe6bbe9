// Runs a request list from standard input on a fresh pile, and prints what became of each request.

#![tactic(auto)]

mod lines;
mod listing;
mod program;

use program::indexrun_text;
use std::io::Read;
use words::LONGEST_LIST;

fn main(rt: HostRuntime) -> anyhow::Result<()> {
    let mut list = Vec::new(rt.alloc());
    // One byte past the longest list is enough to know that a list is too long. The crate of the words allocates nothing,
    // so each program that takes a list from its input reads it itself.
    rt.stdin()
        .take(LONGEST_LIST as u64 + 1)
        .read_to_end(&mut list)?;
    rt.print(indexrun_text(rt.alloc(), list.as_slice())?)?;
    Ok(())
}
