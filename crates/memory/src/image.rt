ghost use Rattle.std.specs.Prelude.{◌≡◌, ℕ, List, [], length};
ghost use Rattle.level.specs.Memory.{Plain as Memory, plain_check, image_rules};
ghost use Rattle.memory.specs.Answers.{memory_number};
ghost use Rattle.memory.specs.Images.{image_state};
ghost use Rattle.memory.specs.Plains.{plain_made};
ghost use Rattle.level.proofs.ImageMeaning.{image_meaning};

use crate::bytes::Bytes;
use crate::check::RETURNED;
use crate::plain::Plain;
use level::{Access, Done, Level};
use words::{CallRefusal, MemoryRefusal};

// Plain memory held for reading: every block is read-only. Each read costs the clock figure.
#[derive(Drop)]
pub struct Image<B> {
    memory: Plain<B>,
}

impl<B: Bytes> Image<B> {
    // Whether an image can be made of so many bytes and this figure. One that is made of anything else has no addresses.
    pub fn check(count: usize, figure: u8) -> Result<(), MemoryRefusal>
        ensures { (bytes : List ℕ) → length bytes ≡ count → memory_number result ≡ plain_check (plain_made bytes figure) }
    {
        Plain::<B>::check(count, figure)
    }

    pub fn new(bytes: B, figure: u8) -> Image<B>
        ensures state { image_state B.Bytes.content result ≡ plain_made (B.Bytes.content bytes) figure }
        ensures fresh { image_rules.fresh (image_state B.Bytes.content result) }
    {
        Image {
            memory: Plain { bytes, figure },
        }
    }
}

impl<B: Bytes> Level for Image<B> {
    ghost State = { Memory };

    ghost state = { image_state B.Bytes.content };

    ghost rules = { image_rules };

    ghost lent = { λ _. [] };

    ghost meaning = { image_meaning };

    fn query(&self, address: u16, access: Access) -> Result<(), CallRefusal> {
        self.memory.reach(address)?;
        match access {
            Access::Read => Ok(()),
            Access::Write => Err(CallRefusal::ReadOnly { address, depth: 0 }),
        }
    }

    fn read(&mut self, address: u16) -> Result<Done, CallRefusal> {
        self.memory.fetch(address)
    }

    fn write(&mut self, address: u16, _byte: u8) -> Result<Done, CallRefusal> {
        self.memory.reach(address)?;
        Err(CallRefusal::ReadOnly { address, depth: 0 })
    }

    // Nothing is held above the bytes, so a return has nothing to do.
    fn return_block(&mut self, address: u16) -> Result<Done, CallRefusal> {
        self.memory.reach(address)?;
        Ok(RETURNED)
    }

    fn return_all(&mut self) -> u32 {
        RETURNED.clocks
    }
}
