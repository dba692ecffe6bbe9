ghost use Rattle.std.specs.Prelude.{◌≡◌, Some, slice_get, slice_index};
ghost use Rattle.words.specs.Refusals.{told};
ghost use Rattle.words.specs.Shown.{call_refusal_text, list_refusal_text};
ghost use Rattle.words.specs.declared.refusal.Refusal.TheVariants.{Call, Guard, List as OfList, Memory};

use std::fmt;

// Why a level refused a call. The depth is 0 at the level that refused, and each level above adds 1. An enum with
// the values in each case, as the other refusals are: what refuses makes a case by its cause, and a caller matches it so.
#[derive(Clone, Copy, PartialEq, Eq, Debug)]
pub enum CallRefusal {
    OutOfRange { address: u16, depth: u8 },
    ReadOnly { address: u16, depth: u8 },
}

// What a memory cannot be made of.
#[derive(Clone, Copy, PartialEq, Eq, Debug)]
pub enum MemoryRefusal {
    Length,
    Figure,
}

// What a guard cannot be made of.
#[derive(Clone, Copy, PartialEq, Eq, Debug)]
pub enum GuardRefusal {
    NoBlocks,
    BeyondSize,
}

// Why a request list is not taken. Words are counted from 1.
#[derive(Clone, Copy, PartialEq, Eq, Debug)]
pub enum ListRefusal {
    Size,
    Layout { word: usize },
}

// Every refusal of the library, each with its number.
#[derive(Clone, Copy, PartialEq, Eq, Debug)]
pub enum Refusal {
    Call(CallRefusal),
    Memory(MemoryRefusal),
    Guard(GuardRefusal),
    List(ListRefusal),
    ResultsTooShort,
    UnknownPile,
}

impl Refusal {
    // The number by which a program of another language knows it, 1 to 10.
    pub fn number(self) -> u8
        ensures { result ≡ (told self).number }
    {
        match self {
            Refusal::Call(CallRefusal::OutOfRange { .. }) => 1,
            Refusal::Call(CallRefusal::ReadOnly { .. }) => 2,
            Refusal::Memory(MemoryRefusal::Length) => 3,
            Refusal::Memory(MemoryRefusal::Figure) => 4,
            Refusal::Guard(GuardRefusal::NoBlocks) => 5,
            Refusal::Guard(GuardRefusal::BeyondSize) => 6,
            Refusal::List(ListRefusal::Size) => 7,
            Refusal::List(ListRefusal::Layout { .. }) => 8,
            Refusal::ResultsTooShort => 9,
            Refusal::UnknownPile => 10,
        }
    }
}

impl From<CallRefusal> for Refusal {
    ghost from_gives = { λ e r. r ≡ Call e };

    fn from(refusal: CallRefusal) -> Refusal {
        Refusal::Call(refusal)
    }
}

impl From<MemoryRefusal> for Refusal {
    ghost from_gives = { λ e r. r ≡ Memory e };

    fn from(refusal: MemoryRefusal) -> Refusal {
        Refusal::Memory(refusal)
    }
}

impl From<GuardRefusal> for Refusal {
    ghost from_gives = { λ e r. r ≡ Guard e };

    fn from(refusal: GuardRefusal) -> Refusal {
        Refusal::Guard(refusal)
    }
}

impl From<ListRefusal> for Refusal {
    ghost from_gives = { λ e r. r ≡ OfList e };

    fn from(refusal: ListRefusal) -> Refusal {
        Refusal::List(refusal)
    }
}

impl CallRefusal {
    pub fn address(self) -> u16
        ensures { result ≡ slice_index (told (Refusal.Call self)).values 0 }
    {
        match self {
            CallRefusal::OutOfRange { address, .. } | CallRefusal::ReadOnly { address, .. } => {
                address
            }
        }
    }

    pub fn depth(self) -> u8
        ensures { result ≡ slice_index (told (Refusal.Call self)).values 1 }
    {
        match self {
            CallRefusal::OutOfRange { depth, .. } | CallRefusal::ReadOnly { depth, .. } => depth,
        }
    }
}

// As in a printed list: the cause, the address and the depth.
impl fmt::Display for CallRefusal {
    ghost output = { λ e. Some (call_refusal_text e) };

    fn fmt<W: fmt::Write>(&self, f: &mut fmt::Formatter<W>) -> fmt::Result {
        let cause = Refusal::from(*self).number();
        let address = self.address();
        let depth = self.depth();
        write!(f, "no {cause} {address} {depth}")
    }
}

impl ListRefusal {
    // The number of the word that is outside the layout, or none where no word is to blame.
    pub fn word(self) -> Option<usize>
        ensures { result ≡ slice_get (told (Refusal.List self)).values 0 }
    {
        match self {
            ListRefusal::Size => None,
            ListRefusal::Layout { word } => Some(word),
        }
    }
}

// As in a printed list: the cause, and the number of the word to blame or 0.
impl fmt::Display for ListRefusal {
    ghost output = { λ e. Some (list_refusal_text e) };

    fn fmt<W: fmt::Write>(&self, f: &mut fmt::Formatter<W>) -> fmt::Result {
        let cause = Refusal::from(*self).number();
        let word = self.word().unwrap_or(0);
        write!(f, "no {cause} {word}")
    }
}
