ghost use Rattle.std.specs.Prelude.{◌≡◌, ◌+◌, ◌<◌, ◌≤◌, ◌&&◌, ◌==◌, IfSome, position, slice_range};
ghost use Rattle.pile.specs.Table.{empties};

use pile::Entry;

// The eight entries of a cache. The entries of a set stand side by side, its way 0 first: one row, since a full return goes
// through it in that order, and since a trait's constant is no array length.
#[derive(Drop)]
pub(crate) struct Table {
    pub(crate) entries: [Entry; 8],
}

impl Table {
    pub(crate) fn new() -> Table
        ensures { result.entries ≡ empties }
    {
        Table {
            entries: [Entry::EMPTY; 8],
        }
    }

    // The lowest way whose entry holds the tag, in the set that begins at the entry `base`.
    pub(crate) fn find(&self, base: usize, ways: usize, tag: u16) -> Option<usize>
        requires { base + ways ≤ 8 }
        ensures way { result ≡ position (λ e. e.valid && e.tag == tag) (slice_range self.now.entries base (base + ways)) }
        ensures below { IfSome result (λ way. way < ways) }
    {
        self.entries[base..base + ways]
            .iter()
            .position(|entry| entry.holds(tag))
    }
}
