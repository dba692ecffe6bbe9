ghost use Rattle.std.specs.Prelude.{◌≡◌, IfOk, string_bytes};
ghost use Rattle.words.specs.Refusals.{told};
ghost use Rattle.words.specs.declared.refusal.Refusal.TheVariants.{List as OfList};
ghost use Rattle.listcheck.specs.Lines.{end_line, refusal_line, request_line};

use crate::account::Account;
use std::alloc::{AllocError, Global};
use words::{ListRefusal, ListSummary, Operation, Request};

// The lines of the program. They are functions, and no `Display`: a line joins values of several types, and its text is a
// definition of this program.

// One request: its number, letter, address, the byte of a write, and its wait.
pub fn request_line(heap: Global, place: usize, request: Request) -> Result<String, AllocError>
    ensures { IfOk result (λ s. string_bytes s ≡ request_line place request) }
{
    let operation = request.operation;
    let wait = request.wait.clocks();
    match operation {
        Operation::Write { byte, .. } => format!(in heap; "{place} {operation} {byte} {wait}"),
        _ => format!(in heap; "{place} {operation} - {wait}"),
    }
}

// The totals of a list that is taken: requests, reads, writes, returns, waits, different blocks.
pub fn end_line(heap: Global, summary: ListSummary, account: Account) -> Result<String, AllocError>
    ensures { IfOk result (λ s. string_bytes s ≡ end_line summary account) }
{
    let ListSummary { requests, waits } = summary;
    let Account {
        reads,
        writes,
        returns,
        blocks,
    } = account;
    format!(in heap; "end {requests} {reads} {writes} {returns} {waits} {blocks}")
}

// Why a list is not taken: the cause, and the number of the word to blame or 0.
pub fn refusal_line(heap: Global, refusal: ListRefusal) -> Result<String, AllocError>
    ensures { IfOk result (λ s. string_bytes s ≡ refusal_line (told (OfList refusal))) }
{
    format!(in heap; "list {refusal}")
}
