ghost use Rattle.std.specs.Prelude.{◌≡◌, ◌%◌, ◌&&◌, ◌==◌, slice_index};
ghost use Rattle.pile.specs.Table.{clean, empty, with_byte};

// One of the eight entries of a cache: the tag of a block, whether it holds that block, whether the
// level below has yet to get its bytes, and the bytes. An empty entry is zero throughout.
#[derive(Clone, Copy)]
pub struct Entry {
    pub tag: u16,
    // A flag, and the entry no Option: a rule of the project has an empty entry in its place, zero throughout.
    pub valid: bool,
    pub dirty: bool,
    pub bytes: [u8; 4],
}

impl Entry {
    pub const EMPTY: Entry = Entry {
        tag: 0,
        valid: false,
        dirty: false,
        bytes: [0; 4],
    };

    // Whether this is the entry of the block that has the tag in the entry's set.
    pub fn holds(&self, tag: u16) -> bool
        ensures { result ≡ (self.now.valid && self.now.tag == tag) }
    {
        self.valid && self.tag == tag
    }

    // The byte at an address of the entry's block.
    pub fn byte(&self, address: u16) -> u8
        ensures { result ≡ slice_index self.now.bytes (address % 4) }
    {
        self.bytes[(address % 4) as usize]
    }

    // A block comes in from below, so it is clean.
    pub fn fill(&mut self, tag: u16, bytes: [u8; 4])
        ensures { self.new ≡ clean tag bytes }
    {
        *self = Entry {
            tag,
            valid: true,
            dirty: false,
            bytes,
        };
    }

    // The byte at an address of the entry's block is written here alone: the level below has yet to get it.
    pub fn put(&mut self, address: u16, byte: u8)
        ensures { self.new ≡ with_byte self.old (address % 4) byte }
    {
        let place = (address % 4) as usize;
        self.bytes[place] = byte;
        self.dirty = true;
    }

    // Nothing of the block stays.
    pub fn clear(&mut self)
        ensures { self.new ≡ empty }
    {
        *self = Self::EMPTY;
    }
}
