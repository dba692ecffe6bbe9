ghost use Rattle.std.specs.Prelude.{◌≡◌, ◌%◌, ◌<◌, ◌≤◌, MatchOption};

// The clocks that a drive lets pass before a request: five bits, so at most 31.
#[derive(Clone, Copy, PartialEq, Eq, Debug)]
pub struct Wait {
    clocks: u8,
    ghost short: { clocks < 32 },
}

impl Wait {
    pub const LONGEST: u8 = 31;

    // The wait of so many clocks, or none where five bits do not hold them.
    // No `TryFrom`: its error would say no more than none.
    pub fn new(clocks: u8) -> Option<Wait>
        ensures { MatchOption result (32 ≤ clocks) (λ wait. wait.clocks ≡ clocks) }
    {
        if clocks > Self::LONGEST {
            return None;
        }
        Some(Wait { clocks })
    }

    // The wait in the low five bits of a byte. No `From`, which would not say that three bits are left out.
    pub(crate) fn low_bits(byte: u8) -> Wait
        ensures { result.clocks ≡ byte % 32 }
    {
        Wait { clocks: byte % 32 }
    }

    pub fn clocks(self) -> u8
        ensures { result ≡ self.clocks }
    {
        self.clocks
    }
}
