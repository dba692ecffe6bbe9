ghost use Rattle.std.specs.Prelude.{◌≡◌, nat_lt};
ghost use Rattle.level.specs.Guard.{Guarded, guard_check, guard_rules, in_range};
ghost use Rattle.level.specs.Level.{block};
ghost use Rattle.memory.specs.Answers.{guard_number};
ghost use Rattle.memory.specs.Guards.{allowed, guard_state};
ghost use Rattle.level.proofs.GuardMeaning.{guard_meaning};

use level::{Access, Done, Level, deeper};
use words::{CallRefusal, GuardRefusal};

// A level with a range of blocks made read-only: `count` blocks from `first` on. A write there is
// refused here, and every other call goes down.
#[derive(Drop)]
pub struct Guard<L> {
    below: L,
    first: u16,
    count: u16,
    // The check of the making found nothing. It is no `Option` of a range, since the rule has first and count in either
    // case.
    sound: bool,
}

// The blocks that addresses of 16 bits have.
const BLOCKS: u32 = 16384;

// Whether the level below has the address: it then takes a read of it.
fn reaches<L: Level>(below: &L, address: u16) -> bool
    ensures { L.Level.rules.fresh (L.Level.state below.now) → result ≡ nat_lt address (L.Level.rules.size (L.Level.state below.now)) }
{
    below.query(address, Access::Read).is_ok()
}

impl<L: Level> Guard<L> {
    // Whether a guard can be made of these. One that is made of anything else has no addresses.
    pub fn check(below: &L, first: u16, count: u16) -> Result<(), GuardRefusal>
        ensures { L.Level.rules.fresh (L.Level.state below.now) → guard_number result ≡ guard_check first count (L.Level.rules.size (L.Level.state below.now)) }
    {
        let end = u32::from(first) + u32::from(count);
        if count == 0 {
            Err(GuardRefusal::NoBlocks)
        } else if end <= BLOCKS && reaches(below, (end * 4 - 1) as u16) {
            Ok(())
        } else {
            Err(GuardRefusal::BeyondSize)
        }
    }

    pub fn new(below: L, first: u16, count: u16) -> Guard<L>
        ensures first { result.first ≡ first }
        ensures count { result.count ≡ count }
        ensures below { result.below ≡ below }
        ensures fresh { L.Level.rules.fresh (L.Level.state below) → (guard_rules L.Level.rules).fresh (guard_state L.Level.state result) }
    {
        let sound = Guard::check(&below, first, count).is_ok();
        Guard {
            below,
            first,
            count,
            sound,
        }
    }

    // The level below goes back to the caller.
    pub fn into_below(self) -> L
        ensures { result ≡ self.below }
    {
        self.below
    }

    // Whether the address is in the range.
    fn covers(&self, address: u16) -> bool
        ensures { result ≡ in_range L.Level.rules (guard_state L.Level.state self.now) (block address) }
    {
        let first = u32::from(self.first);
        (first..first + u32::from(self.count)).contains(&u32::from(address / 4))
    }

    // What the guard itself says to an access: a refusal of each where its check refused the making, and else of a write
    // in its range.
    fn allow(&self, address: u16, access: Access) -> Result<(), CallRefusal>
        ensures { result ≡ allowed L.Level.rules (guard_state L.Level.state self.now) access address }
    {
        if !self.sound {
            Err(CallRefusal::OutOfRange { address, depth: 0 })
        } else if access == Access::Write && self.covers(address) {
            Err(CallRefusal::ReadOnly { address, depth: 0 })
        } else {
            Ok(())
        }
    }
}

impl<L: Level> Level for Guard<L> {
    ghost State = { Guarded L.Level.State };

    ghost state = { guard_state L.Level.state };

    ghost rules = { guard_rules L.Level.rules };

    ghost lent = { λ g. L.Level.lent g.below };

    ghost meaning = { guard_meaning L.Level.rules L.Level.meaning };

    fn query(&self, address: u16, access: Access) -> Result<(), CallRefusal> {
        self.allow(address, access)?;
        self.below.query(address, access).map_err(deeper)
    }

    fn read(&mut self, address: u16) -> Result<Done, CallRefusal> {
        self.allow(address, Access::Read)?;
        self.below.read(address).map_err(deeper)
    }

    fn write(&mut self, address: u16, byte: u8) -> Result<Done, CallRefusal> {
        self.allow(address, Access::Write)?;
        self.below.write(address, byte).map_err(deeper)
    }

    // It is allowed wherever a read is.
    fn return_block(&mut self, address: u16) -> Result<Done, CallRefusal> {
        self.allow(address, Access::Read)?;
        self.below.return_block(address).map_err(deeper)
    }

    // It goes down even where the guard has no addresses.
    fn return_all(&mut self) -> u32 {
        self.below.return_all()
    }
}
