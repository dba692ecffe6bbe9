ghost use Rattle.std.specs.Prelude.{false, ◌≡◌};
ghost use Rattle.level.specs.Level.{clocks as cost, topped};
ghost use Rattle.level.specs.Level.Call.{read as read_call, write as write_call, return_block as return_block_call, return_all as return_all_call};
ghost use Rattle.settle.specs.Code.{Settles, Steps, Takes, session as held};
ghost use Rattle.settle.specs.Promise.{Counts, Rests};
ghost use Rattle.settle.specs.Sessions.{begun};

use crate::account::Account;
use crate::settled::Settled;
use crate::slip::SaveSlip;
use level::{Done, Level};
use words::CallRefusal;

// A pile that takes every call, with the account of its calls since it was started or last resumed. It cannot be let go:
// it is settled, and then ended. It has no Model: a view would leave out what the caller lent.
pub struct Running<L> {
    pile: L,
    account: Account,
}

impl<L: Level> Running<L> {
    // The slip is owed until the run is settled. The contract says what the two counts tell.
    pub fn start(pile: L) -> (Running<L>, SaveSlip)
        ensures session { held L.Level result.0 ≡ begun (L.Level.state pile) }
        ensures slip { result.1.spent ≡ false }
        ensures lent { L.Level.lent result.0.pile ≡ L.Level.lent pile }
        ensures counts { Counts L.Level.rules }
    {
        let running = Running {
            pile,
            account: Account::default(),
        };
        (running, SaveSlip::new())
    }

    // Here and below a refused call is counted too, for nothing: after a `?` it would not be known that the counts fit, since
    // nothing reads them.
    pub fn read(&mut self, address: u16) -> Result<Done, CallRefusal>
        ensures { Takes L.Level self.old (read_call address) result self.new }
    {
        let answer = self.pile.read(address);
        self.account.count(answer.map_or(0, |done| done.clocks), 0);
        answer
    }

    pub fn write(&mut self, address: u16, byte: u8) -> Result<Done, CallRefusal>
        ensures { Takes L.Level self.old (write_call address byte) result self.new }
    {
        let answer = self.pile.write(address, byte);
        self.account.count(
            answer.map_or(0, |done| done.clocks),
            u32::from(answer.is_ok()),
        );
        answer
    }

    pub fn return_block(&mut self, address: u16) -> Result<Done, CallRefusal>
        ensures { Takes L.Level self.old (return_block_call address) result self.new }
    {
        let answer = self.pile.return_block(address);
        self.account.count(answer.map_or(0, |done| done.clocks), 0);
        answer
    }

    pub fn return_all(&mut self) -> u32
        ensures answer { result ≡ topped (cost (L.Level.rules.step (L.Level.state self.old.pile) return_all_call).answer) }
        ensures steps { Steps L.Level self.old return_all_call self.new }
    {
        let clocks = self.pile.return_all();
        self.account.count(clocks, 0);
        clocks
    }

    // A last full return, which the account counts too. The contract says what then holds until the pile is resumed.
    pub fn settle(mut self, slip: SaveSlip) -> (Settled<L>, Account)
        ensures settles { Settles L.Level self result.0 result.1 }
        ensures rests { Rests L.Level.rules }
    {
        let _ = self.return_all();
        slip.spend();
        let Running { pile, account } = self;
        (Settled { pile }, account)
    }
}
