ghost use Rattle.std.specs.Prelude.{◌≡◌, ℕ, ◌+◌, ◌%◌, ◌&&◌, List, ◌++◌, length, if◌then◌else◌, ◌==◌, Ok, Err};
ghost use Rattle.words.specs.declared.refusal.MemoryRefusal.TheVariants.{Length};
ghost use Rattle.level.specs.Memory.{length_ok};
ghost use Rattle.level.specs.Modules.{Modules as Halves, modules_check, modules_rules, switched};
ghost use Rattle.memory.specs.Answers.{memory_number};
ghost use Rattle.memory.specs.Reach.{reached};
ghost use Rattle.memory.specs.TwoModules.{module_number, last_of, modules_made, modules_state};
ghost use Rattle.level.proofs.ModulesMeaning.{modules_meaning};

use crate::bytes::BytesMut;
use crate::check::{RETURNED, check_figure, check_length, reach};
use level::{Access, Done, Level};
use words::{CallRefusal, MemoryRefusal};

// Where an address lies: in the even or in the odd module.
#[derive(Clone, Copy, PartialEq, Eq)]
enum Module {
    Even,
    Odd,
}

// A memory of two modules that the caller lends. Address a is in module a mod 2 at place a div 2.
// An access costs the short figure if the last one went to the other module, and else the long one. The figures are two
// fields and two parameters: a check and a making take them, and nothing else.
#[derive(Drop)]
pub struct Modules<B> {
    even: B,
    odd: B,
    short: u8,
    long: u8,
    // none before the first access
    last: Option<Module>,
}

impl Module {
    // Where an address lies. A `From` would say that the address is a module.
    fn of(address: u16) -> Module
        ensures { module_number result ≡ address % 2 }
    {
        if address % 2 == 0 {
            Module::Even
        } else {
            Module::Odd
        }
    }
}

// Two modules have equal and even lengths, and together that of a memory. Any others are refused. Equal lengths whose sum
// is whole blocks are even.
fn check_lengths(even: usize, odd: usize) -> Result<(), MemoryRefusal>
    ensures { result ≡ (if even == odd && (even % 2 == 0 && length_ok (even + odd)) then Ok tt else Err Length) }
{
    if even == odd {
        check_length(even.saturating_add(odd))
    } else {
        Err(MemoryRefusal::Length)
    }
}

impl<B: BytesMut> Modules<B> {
    // Whether a memory can be made of two modules of these lengths and these figures. One that is made of anything else
    // has no addresses.
    pub fn check(even: usize, odd: usize, short: u8, long: u8) -> Result<(), MemoryRefusal>
        ensures { (e o : List ℕ) → length e ≡ even → length o ≡ odd → memory_number result ≡ modules_check (modules_made e o short long) }
    {
        check_lengths(even, odd)?;
        check_figure(short)?;
        check_figure(long)?;
        if short <= long {
            Ok(())
        } else {
            Err(MemoryRefusal::Figure)
        }
    }

    pub fn new(even: B, odd: B, short: u8, long: u8) -> Modules<B>
        ensures state { modules_state B.Bytes.content result ≡ modules_made (B.Bytes.content even) (B.Bytes.content odd) short long }
        ensures fresh { modules_rules.fresh (modules_state B.Bytes.content result) }
        ensures lent { B.BytesMut.lent result.even ++ B.BytesMut.lent result.odd ≡ B.BytesMut.lent even ++ B.BytesMut.lent odd }
    {
        Modules {
            even,
            odd,
            short,
            long,
            last: None,
        }
    }

    // The bytes go back to the caller, the even module first.
    pub fn into_modules(self) -> (B, B)
        ensures { result ≡ (self.even, self.odd) }
    {
        (self.even, self.odd)
    }

    // Both lengths together, or 0 where the check refuses the making.
    fn size(&self) -> usize
        ensures { result ≡ modules_rules.size (modules_state B.Bytes.content self.now) }
    {
        let even = self.even.count();
        let odd = self.odd.count();
        Self::check(even, odd, self.short, self.long).map_or(0, |()| even.saturating_add(odd))
    }

    // The refusal of an address that there is not.
    fn reach(&self, address: u16) -> Result<(), CallRefusal>
        ensures { result ≡ reached (modules_rules.size (modules_state B.Bytes.content self.now)) address }
    {
        reach(self.size(), address)
    }

    // The clocks of an access. The module that it calls is the last one from then on.
    fn turn_to(&mut self, called: Module) -> u32
        ensures clocks { result ≡ (if switched (last_of self.old.last) (module_number called) then self.old.short else self.old.long) }
        ensures next { self.new ≡ record self.old { last = Some called } }
    {
        let switched = self.last.replace(called).is_some_and(|last| last != called);
        u32::from(if switched { self.short } else { self.long })
    }
}

impl<B: BytesMut> Level for Modules<B> {
    ghost State = { Halves };

    ghost state = { modules_state B.Bytes.content };

    ghost rules = { modules_rules };

    ghost lent = { λ m. B.BytesMut.lent m.even ++ B.BytesMut.lent m.odd };

    ghost meaning = { modules_meaning };

    fn query(&self, address: u16, _access: Access) -> Result<(), CallRefusal> {
        self.reach(address)
    }

    // A read and a write each choose the module: a function that lends it would have to say how the loan ends.
    fn read(&mut self, address: u16) -> Result<Done, CallRefusal> {
        self.reach(address)?;
        let module = Module::of(address);
        let clocks = self.turn_to(module);
        let place = usize::from(address) / 2;
        let value = match module {
            Module::Even => self.even.get(place),
            Module::Odd => self.odd.get(place),
        };
        Ok(Done { value, clocks })
    }

    fn write(&mut self, address: u16, byte: u8) -> Result<Done, CallRefusal> {
        self.reach(address)?;
        let module = Module::of(address);
        let clocks = self.turn_to(module);
        let place = usize::from(address) / 2;
        match module {
            Module::Even => self.even.put(place, byte),
            Module::Odd => self.odd.put(place, byte),
        }
        Ok(Done {
            value: byte,
            clocks,
        })
    }

    // Nothing is held above the bytes, so a return has nothing to do.
    fn return_block(&mut self, address: u16) -> Result<Done, CallRefusal> {
        self.reach(address)?;
        Ok(RETURNED)
    }

    fn return_all(&mut self) -> u32 {
        RETURNED.clocks
    }
}
