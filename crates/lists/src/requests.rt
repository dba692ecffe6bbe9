ghost use Rattle.std.specs.Prelude.{◌≡◌};
ghost use Rattle.words.specs.Results.{result_word};
ghost use Rattle.level.specs.Level.{capped};
ghost use Rattle.lists.specs.Results.{answer_told, call, word_of};

use level::{Done, Level};
use words::{Accepted, CallResult, Operation};

// Puts a request to a level, and tells what became of it. The state and the lender are clauses of their own here and above:
// proofs cite them by these names, and an edit that breaks one is refused by its name.
pub fn serve<L: Level>(pile: &mut L, operation: Operation) -> CallResult
    ensures answer { answer_told result ≡ capped (L.Level.rules.step (L.Level.state pile.old) (call operation)).answer }
    ensures word { result_word result ≡ word_of operation (capped (L.Level.rules.step (L.Level.state pile.old) (call operation)).answer) }
    ensures next { L.Level.state pile.new ≡ (L.Level.rules.step (L.Level.state pile.old) (call operation)).next }
    ensures lent { L.Level.lent pile.new ≡ L.Level.lent pile.old }
{
    let done = match operation {
        Operation::Read { address } => pile.read(address)?,
        Operation::Write { address, byte } => pile.write(address, byte)?,
        Operation::ReturnBlock { address } => pile.return_block(address)?,
        Operation::ReturnAll => Done {
            value: 0,
            clocks: pile.return_all(),
        },
    };
    Ok(Accepted {
        value: done.value,
        address: operation.address(),
        clocks: done.clocks,
    })
}
