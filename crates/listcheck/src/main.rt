// Reads a request list from standard input and prints an account of it, so that a planner can check a list before it
// goes to a drive.

#![tactic(auto)]

mod account;
mod lines;

use account::Account;
use lines::{end_line, refusal_line, request_line};
use std::io::Read;
use words::{LONGEST_LIST, ListSummary, Reader, check_list};

fn main(rt: HostRuntime) -> anyhow::Result<()> {
    let mut list = Vec::new(rt.alloc());
    // One byte past the longest list is enough to know that a list is too long. The crate of the words allocates nothing,
    // so each program that takes a list from its input reads it itself.
    rt.stdin()
        .take(LONGEST_LIST as u64 + 1)
        .read_to_end(&mut list)?;
    println!(rt; "listcheck 1")?;
    match check_list(list.as_slice()) {
        Ok(summary) => print_account(&rt, list.as_slice(), summary),
        Err(refusal) => {
            rt.println(refusal_line(rt.alloc(), refusal)?)?;
            Ok(())
        }
    }
}

// A line for each request, and the totals. In a list that is taken every word is a request.
fn print_account(rt: &HostRuntime, list: &[u8], summary: ListSummary) -> anyhow::Result<()> {
    let heap = rt.alloc();
    for word in Reader::new(list) {
        if let Ok(request) = word.decode() {
            rt.println(request_line(heap, word.place, request)?)?;
        }
    }
    rt.println(end_line(heap, summary, Account::of(heap, list)?)?)?;
    Ok(())
}
