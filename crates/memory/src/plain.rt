ghost use Rattle.std.specs.Prelude.{◌≡◌, ℕ, List, length};
ghost use Rattle.level.specs.Level.{capped};
ghost use Rattle.level.specs.Level.Call.{read as read_call};
ghost use Rattle.level.specs.Memory.{Plain as Memory, plain_check, plain_rules};
ghost use Rattle.level.specs.Told.{reported};
ghost use Rattle.memory.specs.Answers.{memory_number};
ghost use Rattle.memory.specs.Plains.{plain_made, plain_state};
ghost use Rattle.memory.specs.Reach.{reached};
ghost use Rattle.level.proofs.PlainMeaning.{plain_meaning};

use crate::bytes::{Bytes, BytesMut};
use crate::check::{RETURNED, check_figure, check_length, reach};
use level::{Access, Done, Level};
use words::{CallRefusal, MemoryRefusal};

// A memory over bytes that the caller lends. Each access costs the clock figure.
// It has no `Model`: since the bytes go back to the caller, its view would be these two fields.
#[derive(Drop)]
pub struct Plain<B> {
    pub(crate) bytes: B,
    pub(crate) figure: u8,
}

// What asks only for bytes that can be read.
impl<B: Bytes> Plain<B> {
    // Whether a memory can be made of so many bytes and this figure. One that is made of anything else has no addresses.
    pub fn check(count: usize, figure: u8) -> Result<(), MemoryRefusal>
        ensures { (bytes : List ℕ) → length bytes ≡ count → memory_number result ≡ plain_check (plain_made bytes figure) }
    {
        check_length(count)?;
        check_figure(figure)
    }

    // The length, or 0 where the check refuses the making.
    fn size(&self) -> usize
        ensures { result ≡ plain_rules.size (plain_state B.Bytes.content self.now) }
    {
        let count = self.bytes.count();
        Self::check(count, self.figure).map_or(0, |()| count)
    }

    // The refusal of an address that there is not.
    pub(crate) fn reach(&self, address: u16) -> Result<(), CallRefusal>
        ensures { result ≡ reached (plain_rules.size (plain_state B.Bytes.content self.now)) address }
    {
        reach(self.size(), address)
    }

    // What a read of the address answers.
    pub(crate) fn fetch(&self, address: u16) -> Result<Done, CallRefusal>
        ensures { reported result ≡ capped (plain_rules.step (plain_state B.Bytes.content self.now) (read_call address)).answer }
    {
        self.reach(address)?;
        Ok(Done {
            value: self.bytes.get(usize::from(address)),
            clocks: u32::from(self.figure),
        })
    }
}

impl<B: BytesMut> Plain<B> {
    pub fn new(bytes: B, figure: u8) -> Plain<B>
        ensures state { plain_state B.Bytes.content result ≡ plain_made (B.Bytes.content bytes) figure }
        ensures fresh { plain_rules.fresh (plain_state B.Bytes.content result) }
        ensures lent { B.BytesMut.lent result.bytes ≡ B.BytesMut.lent bytes }
    {
        Plain { bytes, figure }
    }

    // The bytes go back to the caller.
    pub fn into_bytes(self) -> B
        ensures { result ≡ self.bytes }
    {
        self.bytes
    }
}

impl<B: BytesMut> Level for Plain<B> {
    ghost State = { Memory };

    ghost state = { plain_state B.Bytes.content };

    ghost rules = { plain_rules };

    ghost lent = { λ p. B.BytesMut.lent p.bytes };

    ghost meaning = { plain_meaning };

    fn query(&self, address: u16, _access: Access) -> Result<(), CallRefusal> {
        self.reach(address)
    }

    fn read(&mut self, address: u16) -> Result<Done, CallRefusal> {
        self.fetch(address)
    }

    fn write(&mut self, address: u16, byte: u8) -> Result<Done, CallRefusal> {
        self.reach(address)?;
        self.bytes.put(usize::from(address), byte);
        Ok(Done {
            value: byte,
            clocks: u32::from(self.figure),
        })
    }

    // Nothing is held above the bytes, so a return has nothing to do.
    fn return_block(&mut self, address: u16) -> Result<Done, CallRefusal> {
        self.reach(address)?;
        Ok(RETURNED)
    }

    fn return_all(&mut self) -> u32 {
        RETURNED.clocks
    }
}
