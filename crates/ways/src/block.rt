ghost use Rattle.std.specs.Prelude.{◌≡◌, ◌/◌, ◌%◌, ◌<◌};

// The number of a block of four bytes. The addresses have 16 bits, so there are 16,384 blocks.
#[derive(Clone, Copy)]
pub struct Block {
    number: u16,
    ghost within: { number < 16384 },
}

// Made by name and not by From, which could not tell an address from a block's number.
impl Block {
    // The block that the byte at an address lies in.
    pub fn of(address: u16) -> Block
        ensures { result.number ≡ address / 4 }
    {
        Block {
            number: address / 4,
        }
    }

    // The block of a number. After the last block they are counted from 0 again, so every number has one.
    pub fn wrapping(number: u32) -> Block
        ensures { result.number ≡ number % 16384 }
    {
        Block {
            number: (number % 16384) as u16,
        }
    }

    pub fn number(&self) -> u16
        ensures value { result ≡ self.now.number }
        ensures below { result < 16384 }
    {
        self.number
    }
}
