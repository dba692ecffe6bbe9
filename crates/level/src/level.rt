ghost use Rattle.std.specs.Borrow.{GName};
ghost use Rattle.std.specs.Prelude.{◌≡◌, List};
ghost use Rattle.level.specs.Level.{Rules, capped, clocks, topped};
ghost use Rattle.level.specs.Level.Answer.{accepted};
ghost use Rattle.level.specs.Level.Call.{read as read_call, write as write_call, return_block as return_block_call, return_all as return_all_call};
ghost use Rattle.level.specs.Meaning.{Meaning};
ghost use Rattle.level.specs.Told.{reported, reported_query};

use words::CallRefusal;

// What a query asks about: a block return is asked about as a read.
#[derive(Clone, Copy, PartialEq, Eq, Debug)]
pub enum Access {
    Read,
    Write,
}

// What an accepted call gives: the byte read or written, or 0 for a return, and its clocks, which stop
// at the top of their 32 bits.
#[derive(Clone, Copy, Default, PartialEq, Eq, Debug)]
pub struct Done {
    pub value: u8,
    pub clocks: u32,
}

// A level of memory. Its rule over plain values says what each call answers and which state it leads
// to, and `meaning` what that rule is worth to a caller, of whatever it is made.
pub trait Level {
    ghost State: { Type 0 };

    ghost state: { Self → State };

    ghost rules: { Rules State };

    // The memories at the bottom, which the caller lends: one, two for two modules, and none for an image.
    ghost lent: { Self → List GName };

    // Whether a call would be taken, or the refusal that it would get.
    fn query(&self, address: u16, access: Access) -> Result<(), CallRefusal>
        ensures { reported_query result ≡ rules.ask (state self.now) access address };

    fn read(&mut self, address: u16) -> Result<Done, CallRefusal>
        ensures answer { reported result ≡ capped (rules.step (state self.old) (read_call address)).answer }
        ensures next { state self.new ≡ (rules.step (state self.old) (read_call address)).next }
        ensures lent { lent self.new ≡ lent self.old };

    fn write(&mut self, address: u16, byte: u8) -> Result<Done, CallRefusal>
        ensures answer { reported result ≡ capped (rules.step (state self.old) (write_call address byte)).answer }
        ensures next { state self.new ≡ (rules.step (state self.old) (write_call address byte)).next }
        ensures lent { lent self.new ≡ lent self.old };

    // The block of the address goes down to the lowest memory.
    fn return_block(&mut self, address: u16) -> Result<Done, CallRefusal>
        ensures answer { reported result ≡ capped (rules.step (state self.old) (return_block_call address)).answer }
        ensures next { state self.new ≡ (rules.step (state self.old) (return_block_call address)).next }
        ensures lent { lent self.new ≡ lent self.old };

    // Everything goes down to the lowest memory. It is never refused, and gives its clocks.
    fn return_all(&mut self) -> u32
        ensures answer { result ≡ topped (clocks (rules.step (state self.old) return_all_call).answer) }
        ensures taken { accepted 0 result ≡ capped (rules.step (state self.old) return_all_call).answer }
        ensures next { state self.new ≡ (rules.step (state self.old) return_all_call).next }
        ensures lent { lent self.new ≡ lent self.old };

    ghost meaning: { Meaning rules };
}
