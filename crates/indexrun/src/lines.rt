ghost use Rattle.std.specs.Prelude.{◌≡◌, IfOk, string_bytes};
ghost use Rattle.words.specs.Refusals.{told};
ghost use Rattle.words.specs.declared.refusal.Refusal.TheVariants.{List as OfList};
ghost use Rattle.lists.specs.Results.{answer_told};
ghost use Rattle.indexrun.specs.Listing.{end_line, refusal_line, request_line};

use std::alloc::{AllocError, Global};
use words::{Accepted, CallResult, ListRefusal, ListSummary, Operation};

// The lines of the program. They are functions, and no `Display`: a line joins values of several types, and its text is a
// definition of this program.

// One request: its number, letter and address, and what became of it. A return gives no byte, so a dash stands for it.
pub fn request_line(
    heap: Global,
    number: usize,
    operation: Operation,
    res: CallResult,
) -> Result<String, AllocError>
    ensures { IfOk result (λ s. string_bytes s ≡ request_line number operation (answer_told res)) }
{
    let Accepted { value, clocks, .. } = match res {
        Ok(done) => done,
        Err(refusal) => return format!(in heap; "{number} {operation} {refusal}\n"),
    };
    match operation {
        Operation::Read { .. } | Operation::Write { .. } => {
            format!(in heap; "{number} {operation} {value} {clocks}\n")
        }
        Operation::ReturnBlock { .. } | Operation::ReturnAll => {
            format!(in heap; "{number} {operation} - {clocks}\n")
        }
    }
}

// The totals of a list that was run: requests, waits, clocks.
pub fn end_line(heap: Global, summary: ListSummary, clocks: u32) -> Result<String, AllocError>
    ensures { IfOk result (λ s. string_bytes s ≡ end_line summary.requests summary.waits clocks) }
{
    let ListSummary { requests, waits } = summary;
    format!(in heap; "end {requests} {waits} {clocks}\n")
}

// Why a list is not taken: the cause, and the number of the word to blame or 0.
pub fn refusal_line(heap: Global, refusal: ListRefusal) -> Result<String, AllocError>
    ensures { IfOk result (λ s. string_bytes s ≡ refusal_line (told (OfList refusal))) }
{
    format!(in heap; "list {refusal}\n")
}
