ghost use Rattle.std.specs.Prelude.{◌≡◌, ◌++◌, IfOk, length, string_bytes, OnOk};
ghost use Rattle.words.specs.Lists.{words};
ghost use Rattle.words.specs.Summaries.{AllLegal};
ghost use Rattle.level.specs.Level.{topped};
ghost use Rattle.level.specs.Listed.{after};
ghost use Rattle.lists.specs.ListRuns.{asks};
ghost use Rattle.lists.specs.Results.{calls};
ghost use Rattle.indexrun.specs.Listing.{all_clocks, listing, request_lines, run_next};

use crate::lines::{end_line, refusal_line, request_line};
use level::Level;
use lists::serve;
use std::alloc::{AllocError, Global};
use words::{Reader, check_list};

// Runs a list on a level, and gives the whole text that tells of it. A list that is refused is not begun.
pub fn listing<L: Level>(heap: Global, pile: &mut L, list: &[u8]) -> Result<String, AllocError>
    ensures text { IfOk result (λ s. string_bytes s ≡ listing L.Level.rules (L.Level.state pile.old) list.now) }
    ensures next { OnOk result (L.Level.state pile.new ≡ run_next L.Level.rules (L.Level.state pile.old) list.now) }
{
    let mut text = String::from_str(heap, "indexrun 1\n")?;
    let last = match check_list(list) {
        Ok(summary) => {
            let clocks = run_lines(heap, pile, list, &mut text)?;
            end_line(heap, summary, clocks)?
        }
        Err(refusal) => refusal_line(heap, refusal)?,
    };
    text.push_str(last.as_str())?;
    Ok(text)
}

// Serves the requests of a list that was taken, in turn, puts a line for each behind the text, and gives their clocks
// together. Each word of such a list is a request, so its place is the number of its line.
fn run_lines<L: Level>(
    heap: Global,
    pile: &mut L,
    list: &[u8],
    text: &mut String,
) -> Result<u32, AllocError>
    requires { AllLegal (words list.now) (length (words list.now)) }
    ensures text { OnOk result (string_bytes text.new ≡ string_bytes text.old ++ request_lines L.Level.rules (L.Level.state pile.old) 1 (asks list.now)) }
    ensures clocks { IfOk result (λ sum. sum ≡ topped (all_clocks L.Level.rules (L.Level.state pile.old) (asks list.now))) }
    ensures next { OnOk result (L.Level.state pile.new ≡ after L.Level.rules (L.Level.state pile.old) (calls (asks list.now))) }
{
    let mut clocks = 0u32;
    for word in Reader::new(list) {
        let request = word.decode().unwrap();
        let result = serve(pile, request.operation);
        // A request that was refused costs nothing.
        clocks = clocks.saturating_add(result.map_or(0, |done| done.clocks));
        let line = request_line(heap, word.place, request.operation, result)?;
        text.push_str(line.as_str())?;
    }
    Ok(clocks)
}
