ghost use Rattle.std.specs.Prelude.{◌≡◌, ◌+◌};
ghost use Rattle.level.specs.Level.{topped};

// What the calls of a run came to, since it was started or last resumed: their clocks, those of the last full return
// too once it was settled, and the accepted writes. Both stop at the top of their 32 bits.
#[derive(Clone, Copy, Default, PartialEq, Eq, Debug)]
pub struct Account {
    pub clocks: u32,
    pub writes: u32,
}

impl Account {
    // Counts a call: its clocks, and 1 if it was an accepted write.
    pub(crate) fn count(&mut self, clocks: u32, writes: u32)
        ensures clocks { self.new.clocks ≡ topped (self.old.clocks + clocks) }
        ensures writes { self.new.writes ≡ topped (self.old.writes + writes) }
    {
        self.clocks = self.clocks.saturating_add(clocks);
        self.writes = self.writes.saturating_add(writes);
    }
}
