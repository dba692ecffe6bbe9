ghost use Rattle.std.specs.Prelude.{◌≡◌, IfSome, Some};
ghost use Rattle.words.specs.Results.{parsed, result_word};

use crate::refusal::{CallRefusal, Refusal};

// What an accepted request gave. The value is the byte read or written, and 0 for a return.
#[derive(Clone, Copy, PartialEq, Eq, Debug)]
pub struct Accepted {
    pub value: u8,
    pub address: u16,
    pub clocks: u32,
}

// What became of one request.
pub type CallResult = Result<Accepted, CallRefusal>;

// Eight bytes that may tell a result.
#[derive(Clone, Copy, PartialEq, Eq, Debug)]
pub struct ResultWord {
    pub bytes: [u8; 8],
}

impl ResultWord {
    // Set in the first byte of a refused result; the cause stands in the other seven bits.
    const REFUSED: u8 = 128;

    // The result of this word, or none where the bytes are no result word.
    pub fn decode(self) -> Option<CallResult>
        ensures value { result ≡ parsed self.bytes }
        ensures back { IfSome result (λ x. result_word x ≡ self.bytes) }
    {
        let [head, value, high, low, c0, c1, c2, c3] = self.bytes;
        let address = u16::from_be_bytes([high, low]);
        let clocks = u32::from_be_bytes([c0, c1, c2, c3]);
        match head {
            0 => Some(Ok(Accepted {
                value,
                address,
                clocks,
            })),
            0x81 if clocks == 0 => Some(Err(CallRefusal::OutOfRange {
                address,
                depth: value,
            })),
            0x82 if clocks == 0 => Some(Err(CallRefusal::ReadOnly {
                address,
                depth: value,
            })),
            _ => None,
        }
    }
}

impl From<CallResult> for ResultWord {
    ghost from_gives = { λ x r. (r.bytes ≡ result_word x) × (parsed r.bytes ≡ Some x) };

    fn from(outcome: CallResult) -> ResultWord {
        let (head, value, address, clocks) = match outcome {
            Ok(done) => (0, done.value, done.address, done.clocks),
            Err(refusal) => {
                let cause = Refusal::from(refusal).number();
                (Self::REFUSED + cause, refusal.depth(), refusal.address(), 0)
            }
        };
        let [high, low] = address.to_be_bytes();
        let [c0, c1, c2, c3] = clocks.to_be_bytes();
        ResultWord {
            bytes: [head, value, high, low, c0, c1, c2, c3],
        }
    }
}
