ghost use Rattle.std.specs.Prelude.{false, ◌≡◌};
ghost use Rattle.level.specs.Level.{capped};
ghost use Rattle.level.specs.Level.Call.{read as read_call};
ghost use Rattle.level.specs.Told.{reported};
ghost use Rattle.settle.specs.Code.{session as held};
ghost use Rattle.settle.specs.Sessions.{begun};

use crate::running::Running;
use crate::slip::SaveSlip;
use level::{Done, Level};
use words::CallRefusal;

// A pile at rest, with every byte of the lowest memory as it is seen. It takes reads alone; who wants to write resumes
// first. It cannot be let go: it is ended.
pub struct Settled<L> {
    pub(crate) pile: L,
}

impl<L: Level> Settled<L> {
    pub fn read(&mut self, address: u16) -> Result<Done, CallRefusal>
        ensures answer { reported result ≡ capped (L.Level.rules.step (L.Level.state self.old.pile) (read_call address)).answer }
        ensures next { L.Level.state self.new.pile ≡ (L.Level.rules.step (L.Level.state self.old.pile) (read_call address)).next }
        ensures lent { L.Level.lent self.new.pile ≡ L.Level.lent self.old.pile }
    {
        self.pile.read(address)
    }

    // The counts of the new run begin at 0 again, and its slip is a new one.
    pub fn resume(self) -> (Running<L>, SaveSlip)
        ensures session { held L.Level result.0 ≡ begun (L.Level.state self.pile) }
        ensures slip { result.1.spent ≡ false }
        ensures lent { L.Level.lent result.0.pile ≡ L.Level.lent self.pile }
    {
        Running::start(self.end())
    }

    // The pile goes back to the caller.
    pub fn end(self) -> L
        ensures { result ≡ self.pile }
    {
        let Settled { pile } = self;
        pile
    }
}
