ghost use Rattle.std.specs.Prelude.{◌≡◌, ◌%◌, ◌<◌, ◌≤◌, map, MatchOption};
ghost use Rattle.std.specs.List.{range_with_len};

// The number of an entry in a table of eight. The entries of a set stand side by side, its way 0 first.
#[derive(Clone, Copy)]
pub struct Slot {
    index: usize,
    ghost within: { index < 8 },
}

impl Slot {
    // Every entry of the table, in rising order.
    pub fn all() -> [Slot; 8]
        ensures { map (λ slot. slot.index) result ≡ range_with_len 0 8 }
    {
        std::array::from_fn(Slot::wrapping)
    }

    // The entry of a number, unless the table has none of that number. No TryFrom: its error would say no more than None.
    pub fn new(index: usize) -> Option<Slot>
        ensures { MatchOption result (8 ≤ index) (λ slot. slot.index ≡ index) }
    {
        if index < 8 {
            Some(Slot { index })
        } else {
            None
        }
    }

    // The entry of a number. After the last entry they are counted from 0 again, so every number has one; From would not
    // say so.
    pub fn wrapping(index: usize) -> Slot
        ensures { result.index ≡ index % 8 }
    {
        Slot { index: index % 8 }
    }

    pub fn index(&self) -> usize
        ensures value { result ≡ self.now.index }
        ensures below { result < 8 }
    {
        self.index
    }
}
