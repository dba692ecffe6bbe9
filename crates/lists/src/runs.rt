ghost use Rattle.std.specs.Prelude.{◌≡◌, ◌*◌, ◌≤◌, ◌++◌, length, drop};
ghost use Rattle.words.specs.Lists.{words};
ghost use Rattle.words.specs.Summaries.{AllLegal};
ghost use Rattle.level.specs.Arrays.{LikeArray};
ghost use Rattle.level.specs.Listed.{after};
ghost use Rattle.lists.specs.ListRuns.{asks, ran, result_words, told_run};
ghost use Rattle.lists.specs.Results.{calls};

use crate::requests::serve;
use level::Level;
use words::{ListSummary, Reader, Refusal, ResultWord, check_list};

// The bytes of a result word.
const RESULT: usize = 8;

// Runs a list on a level, and writes one result for each request. A list that is refused is not begun. The last clause
// says what the results are worth: those of an array of bytes, whatever the level is made of.
pub fn run_list<L: Level>(
    pile: &mut L,
    list: &[u8],
    results: &mut [u8],
) -> Result<ListSummary, Refusal>
    ensures told { told_run result ≡ (ran L.Level.rules (L.Level.state pile.old) list.now results.old).told }
    ensures next { L.Level.state pile.new ≡ (ran L.Level.rules (L.Level.state pile.old) list.now results.old).next }
    ensures results { results.new ≡ (ran L.Level.rules (L.Level.state pile.old) list.now results.old).results }
    ensures lent { L.Level.lent pile.new ≡ L.Level.lent pile.old }
    ensures array { LikeArray L.Level.rules }
{
    let summary = check_list(list)?;
    if results.len() < RESULT * usize::from(summary.requests) {
        return Err(Refusal::ResultsTooShort);
    }
    serve_all(pile, list, results);
    Ok(summary)
}

// Serves the requests of a list that was taken, in turn. The results stand in the order of the words, and each is written
// by its place: what a loop leaves in chunks of the results that are lent would not be known.
fn serve_all<L: Level>(pile: &mut L, list: &[u8], results: &mut [u8])
    requires legal { AllLegal (words list.now) (length (words list.now)) }
    requires room { 8 * length (words list.now) ≤ length results.old }
    ensures next { L.Level.state pile.new ≡ after L.Level.rules (L.Level.state pile.old) (calls (asks list.now)) }
    ensures results { results.new ≡ result_words L.Level.rules (L.Level.state pile.old) (asks list.now) ++ drop (8 * length (asks list.now)) results.old }
    ensures lent { L.Level.lent pile.new ≡ L.Level.lent pile.old }
{
    for word in Reader::new(list) {
        let request = word.decode().unwrap();
        let result = ResultWord::from(serve(pile, request.operation));
        let end = RESULT * word.place;
        results[end - RESULT..end].copy_from_slice(&result.bytes);
    }
}
