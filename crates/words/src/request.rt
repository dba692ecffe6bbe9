ghost use Rattle.std.specs.Prelude.{◌≡◌, ◌+◌, ◌*◌, ◌/◌, ◌%◌, ◌<◌, [], ◌∷◌, is_some, IfOk, IfErr, Some, slice_index};
ghost use Rattle.std.specs.Option.{option_map};
ghost use Rattle.std.specs.Result.{result_ok};
ghost use Rattle.words.specs.Refusals.{told};
ghost use Rattle.words.specs.Requests.{address, asked, decoded, letter, word};
ghost use Rattle.words.specs.Shown.{operation_text};

use crate::refusal::{ListRefusal, Refusal};
use crate::wait::Wait;
use std::fmt;

// What a request asks of a pile.
#[derive(Clone, Copy, PartialEq, Eq, Debug)]
pub enum Operation {
    Read { address: u16 },
    Write { address: u16, byte: u8 },
    ReturnBlock { address: u16 },
    ReturnAll,
}

// An operation, and the clocks that pass before it.
#[derive(Clone, Copy, PartialEq, Eq, Debug)]
pub struct Request {
    pub wait: Wait,
    pub operation: Operation,
}

// Four bytes of a list, with their place in it, counted from 1.
#[derive(Clone, Copy)]
pub struct Word {
    pub place: usize,
    pub bytes: [u8; 4],
}

impl Operation {
    // The address that the request word has: 0 for a full return.
    pub fn address(self) -> u16
        ensures { result ≡ address self }
    {
        match self {
            Operation::Read { address }
            | Operation::Write { address, .. }
            | Operation::ReturnBlock { address } => address,
            Operation::ReturnAll => 0,
        }
    }

    // The letter of the operation in a printed list: S and A are returns, of a block and of all.
    pub fn letter(self) -> &'static str
        ensures { result.now ≡ letter self }
    {
        match self {
            Operation::Read { .. } => "R",
            Operation::Write { .. } => "W",
            Operation::ReturnBlock { .. } => "S",
            Operation::ReturnAll => "A",
        }
    }
}

// As in a printed list: letter and address.
impl fmt::Display for Operation {
    ghost output = { λ o. Some (operation_text o) };

    fn fmt<W: fmt::Write>(&self, f: &mut fmt::Formatter<W>) -> fmt::Result {
        let letter = self.letter();
        let address = self.address();
        write!(f, "{letter} {address}")
    }
}

impl Request {
    // The request word. A method, as `to_be_bytes` is one: a `From` would be called by the type of an array, which does not
    // say what the bytes are.
    pub fn encode(self) -> [u8; 4]
        ensures value { result ≡ word self }
        ensures back { decoded result ≡ Some (asked self) }
    {
        let wait = self.wait.clocks();
        match self.operation {
            Operation::Read { address } => packed(0b100, wait, address, 0),
            Operation::Write { address, byte } => packed(0b101, wait, address, byte),
            Operation::ReturnBlock { address } => packed(0b110, wait, address, 0),
            Operation::ReturnAll => packed(0b111, wait, 0, 0),
        }
    }
}

// The valid bit and the mode in three bits, the wait in five; then the address, the high byte first, and the data.
fn packed(head: u8, wait: u8, address: u16, byte: u8) -> [u8; 4]
    requires { (head < 8) × (wait < 32) }
    ensures { result ≡ (head * 32 + wait) ∷ (address / 256) ∷ (address % 256) ∷ byte ∷ [] }
{
    let [high, low] = address.to_be_bytes();
    [head * 32 + wait, high, low, byte]
}

impl Word {
    // What the data and the address stay below, by the first three bits of a word, the data on top. Nothing without the
    // valid bit is a request, a write takes any data, and a full return no address.
    const BOUNDS: [u32; 8] = [0, 0, 0, 0, 1 << 16, 1 << 24, 1 << 16, 1];

    // The request of this word, or the refusal of a word outside the layout. The way back of `encode`, and a method like it;
    // in a `TryFrom` its three promises would be one.
    // By a rule of the project the mode is matched, with guards on the data and the address.
    pub fn decode(self) -> Result<Request, ListRefusal>
        ensures value { option_map asked (result_ok result) ≡ decoded self.bytes }
        ensures back { IfOk result (λ q. word q ≡ self.bytes) }
        ensures refusal { IfErr result (λ e. told (Refusal.List e) ≡ record { number = 8; values = self.place ∷ [] }) }
    {
        let (head, address, byte) = self.fields();
        let wait = Wait::low_bits(head);
        let operation = match head >> 5 {
            0b100 if byte == 0 => Operation::Read { address },
            0b101 => Operation::Write { address, byte },
            0b110 if byte == 0 => Operation::ReturnBlock { address },
            0b111 if address == 0 && byte == 0 => Operation::ReturnAll,
            _ => return Err(ListRefusal::Layout { word: self.place }),
        };
        Ok(Request { wait, operation })
    }

    // Whether the word is inside the layout. A branch on the mode would be guessed wrong too often in a long list, so
    // the mode only chooses a bound.
    pub(crate) fn is_request(self) -> bool
        ensures { result ≡ is_some (decoded self.bytes) }
    {
        let (head, address, byte) = self.fields();
        u32::from(byte) * 65536 + u32::from(address) < Self::BOUNDS[(head >> 5) as usize]
    }

    // The first byte, the address and the data.
    fn fields(self) -> (u8, u16, u8)
        ensures head { result.0 ≡ slice_index self.bytes 0 }
        ensures address { result.1 ≡ slice_index self.bytes 1 * 256 + slice_index self.bytes 2 }
        ensures byte { result.2 ≡ slice_index self.bytes 3 }
    {
        let [head, high, low, byte] = self.bytes;
        (head, u16::from_be_bytes([high, low]), byte)
    }

    // The clocks that pass before the request, in a word inside the layout.
    pub(crate) fn wait(self) -> Wait
        ensures { result.clocks ≡ slice_index self.bytes 0 % 32 }
    {
        let (head, _, _) = self.fields();
        Wait::low_bits(head)
    }
}
