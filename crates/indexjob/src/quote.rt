ghost use Rattle.std.specs.Prelude.{◌≡◌};
ghost use Rattle.indexjob.specs.Job.{most_clocks};

// A stretch of reads and writes: so many calls in so many blocks.
#[derive(Clone, Copy)]
pub struct Stretch {
    pub calls: u8,
    pub blocks: u8,
}

impl Stretch {
    // What is quoted for it before it is made, through a cache over a level whose dearest access costs `worst` clocks.
    pub fn quote(self, worst: u8) -> u32
        ensures { result ≡ most_clocks self.calls self.blocks worst }
    {
        self.calls as u32 + self.blocks as u32 * (13 + 8 * worst as u32)
    }
}
