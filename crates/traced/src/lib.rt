// A memory as a builder writes one, in a crate of its own: whatever keeps the meaning of a level can be put under a pile,
// and nothing above it needs a new proof.

#![tactic(auto)]

ghost use Rattle.std.specs.Prelude.{◌≡◌};
ghost use Rattle.memory.specs.Plains.{plain_made};
ghost use Rattle.traced.specs.States.{watched};
ghost use Rattle.traced.specs.Traced.{Watched, traced_rules, unwatched, with_newest};
ghost use Rattle.traced.specs.TracedMeaning.{traced_meaning};

use level::{Access, Done, Level};
use memory::{BytesMut, Plain};
use words::CallRefusal;

// Plain memory that remembers the addresses of its last four accesses.
#[derive(Drop)]
pub struct Traced<B> {
    memory: Plain<B>,
    recent: [u16; 4],
}

impl<B: BytesMut> Traced<B> {
    pub fn new(bytes: B, figure: u8) -> Traced<B>
        ensures state { watched B.Bytes.content result ≡ unwatched (plain_made (B.Bytes.content bytes) figure) }
        ensures fresh { traced_rules.fresh (watched B.Bytes.content result) }
    {
        Traced {
            memory: Plain::new(bytes, figure),
            recent: [0; 4],
        }
    }

    // The addresses of the last four accesses, the oldest first; 0 where there were fewer.
    pub fn recent(&self) -> [u16; 4]
        ensures { result ≡ self.now.recent }
    {
        self.recent
    }

    // An accepted call was an access.
    fn note(&mut self, address: u16)
        ensures recent { self.new.recent ≡ with_newest self.old.recent address }
        ensures memory { self.new.memory ≡ self.old.memory }
    {
        let [_, second, third, last] = self.recent;
        self.recent = [second, third, last, address];
    }
}

impl<B: BytesMut> Level for Traced<B> {
    ghost State = { Watched };

    ghost state = { watched B.Bytes.content };

    ghost rules = { traced_rules };

    ghost lent = { λ t. B.BytesMut.lent t.memory.bytes };

    ghost meaning = { traced_meaning };

    fn query(&self, address: u16, access: Access) -> Result<(), CallRefusal> {
        self.memory.query(address, access)
    }

    fn read(&mut self, address: u16) -> Result<Done, CallRefusal> {
        let done = self.memory.read(address)?;
        self.note(address);
        Ok(done)
    }

    fn write(&mut self, address: u16, byte: u8) -> Result<Done, CallRefusal> {
        let done = self.memory.write(address, byte)?;
        self.note(address);
        Ok(done)
    }

    fn return_block(&mut self, address: u16) -> Result<Done, CallRefusal> {
        self.memory.return_block(address)
    }

    fn return_all(&mut self) -> u32 {
        self.memory.return_all()
    }
}
