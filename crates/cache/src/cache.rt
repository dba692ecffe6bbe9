ghost use Rattle.std.specs.Prelude.{◌≡◌};
ghost use Rattle.pile.specs.Promise.{WholePromise};
ghost use Rattle.ways.specs.Slots.{set_of};
ghost use Rattle.cache.specs.Steps.{StateOf, held, rules_of, empty_over, LooksUp, Flushes, Loads, Readies, Reads, Writes, Evicts, EvictsBlock, EvictsAt, EvictsAll, Returns};
ghost use Rattle.pile.proofs.CacheMeaning.{cache_meaning};

use crate::table::Table;
use crate::transfer::{fetch, send};
use level::{Access, Done, Level, deeper};
use std::marker::PhantomData;
use ways::{Block, Mapping, Policy, Slot};
use words::CallRefusal;

// A write-back cache of eight blocks over a level. The mapping is a type alone: it holds nothing.
#[derive(Drop)]
pub struct Cache<L, M, P> {
    below: L,
    table: Table,
    policy: P,
    mapping: PhantomData<M>,
}

// The set of an entry.
fn set_of<M: Mapping>(slot: Slot) -> u8
    ensures { result ≡ set_of M.Mapping.shape slot.index }
{
    (slot.index() / M::WAYS) as u8
}

impl<L: Level, M: Mapping, P: Policy<M>> Cache<L, M, P> {
    // An empty cache over a level. Its contract says what every run of it keeps.
    pub fn over(below: L) -> Self
        ensures state { held L.Level P.Policy result ≡ empty_over L.Level M.Mapping P.Policy below }
        ensures fresh { L.Level.rules.fresh (L.Level.state below) → (rules_of L.Level M.Mapping P.Policy).fresh (held L.Level P.Policy result) }
        ensures lent { L.Level.lent result.below ≡ L.Level.lent below }
        ensures promise { WholePromise L.Level.rules M.Mapping.shape P.Policy.orders }
    {
        Cache {
            below,
            table: Table::new(),
            policy: P::fresh(),
            mapping: PhantomData,
        }
    }

    // The level below, as the cache leaves it: what was written here alone is lost, unless it was returned before.
    pub fn into_below(self) -> L
    where
        P: Drop,
        ensures state { L.Level.state result ≡ (held L.Level P.Policy self).below }
        ensures lent { L.Level.lent result ≡ L.Level.lent self.below }
    {
        self.below
    }

    // The entry that holds a block.
    fn lookup(&self, block: Block) -> Option<Slot>
        ensures { LooksUp L.Level M.Mapping P.Policy self.now block.number result }
    {
        let (set, tag) = M::split(block);
        let ways = M::WAYS;
        let base = set as usize * ways;
        let way = self.table.find(base, ways, tag)?;
        Slot::new(base + way)
    }

    // A dirty entry is written below; a clean one is not.
    fn flush(&mut self, slot: Slot) -> u32
        ensures { Flushes L.Level M.Mapping P.Policy self.old slot.index result self.new }
    {
        let entry = self.table.entries[slot.index()];
        if !entry.dirty {
            return 0;
        }
        let block = M::join((set_of::<M>(slot), entry.tag));
        send(&mut self.below, block, entry.bytes)
    }

    // The block of an address comes into the last way of its set's order: the entry of that way, and the clocks.
    fn load(&mut self, address: u16) -> (Slot, u32)
        ensures { Loads L.Level M.Mapping P.Policy self.old address result.0.index result.1 self.new }
    {
        let block = Block::of(address);
        let slot = self.policy.victim(block);
        let flushed = self.flush(slot);
        let (bytes, fetched) = fetch(&mut self.below, address);
        let (_, tag) = M::split(block);
        let entry = &mut self.table.entries[slot.index()];
        entry.fill(tag, bytes);
        self.policy.loaded(slot);
        // The last two clocks are the looks before and after.
        (slot, flushed.saturating_add(fetched).saturating_add(2))
    }

    // The block of an address has an entry after this, wherever it was before: that entry, and the clocks.
    fn ready(&mut self, address: u16) -> (Slot, u32)
        ensures { Readies L.Level M.Mapping P.Policy self.old address result.0.index result.1 self.new }
    {
        match self.lookup(Block::of(address)) {
            Some(slot) => {
                self.policy.hit(slot);
                (slot, 1)
            }
            None => self.load(address),
        }
    }

    // A read, once the level below has not refused it.
    fn after_read(&mut self, address: u16) -> Done
        ensures { Reads L.Level M.Mapping P.Policy self.old address result self.new }
    {
        let (slot, clocks) = self.ready(address);
        let entry = &self.table.entries[slot.index()];
        Done {
            value: entry.byte(address),
            clocks,
        }
    }

    // A write, once the level below has not refused it.
    fn after_write(&mut self, address: u16, byte: u8) -> Done
        ensures { Writes L.Level M.Mapping P.Policy self.old address byte result self.new }
    {
        let (slot, clocks) = self.ready(address);
        let entry = &mut self.table.entries[slot.index()];
        entry.put(address, byte);
        Done {
            value: byte,
            clocks,
        }
    }

    // An entry is written below if it is dirty, for one look more, and emptied. Not inlined: in sets of two ways the eight
    // turns of a full return get too long to be unrolled, and the slots are then an array in memory, made anew each time.
    #[inline(never)]
    fn evict(&mut self, slot: Slot) -> u32
        ensures { Evicts L.Level M.Mapping P.Policy self.old slot.index result self.new }
    {
        let flushed = self.flush(slot);
        let entry = &mut self.table.entries[slot.index()];
        let looks = u32::from(entry.dirty);
        entry.clear();
        self.policy.emptied(slot);
        flushed.saturating_add(looks)
    }

    // The entry of an address's block, where there is one.
    fn evict_block(&mut self, address: u16) -> u32
        ensures { EvictsBlock L.Level M.Mapping P.Policy self.old address result self.new }
    {
        // A match, since what a closure of `map_or` changes in the cache is not proved.
        match self.lookup(Block::of(address)) {
            Some(slot) => self.evict(slot),
            None => 0,
        }
    }

    // A block return, once the level below has not refused it.
    fn after_return(&mut self, address: u16) -> Done
        ensures { Returns L.Level M.Mapping P.Policy self.old address result self.new }
    {
        let evicted = self.evict_block(address);
        let returned = self
            .below
            .return_block(address)
            .map_or(0, |done| done.clocks);
        Done {
            value: 0,
            clocks: evicted.saturating_add(returned).saturating_add(1),
        }
    }

    // Evicts an entry, where it is valid.
    fn evict_at(&mut self, slot: Slot) -> u32
        ensures { EvictsAt L.Level M.Mapping P.Policy self.old slot.index result self.new }
    {
        if self.table.entries[slot.index()].valid {
            self.evict(slot)
        } else {
            0
        }
    }

    // Each entry in turn, with a look at each.
    fn evict_all(&mut self) -> u32
        ensures { EvictsAll L.Level M.Mapping P.Policy self.old result self.new }
    {
        let mut clocks: u32 = 0;
        for slot in Slot::all() {
            clocks = clocks.saturating_add(self.evict_at(slot)).saturating_add(1);
        }
        clocks
    }
}

impl<L: Level, M: Mapping, P: Policy<M>> Level for Cache<L, M, P> {
    ghost State = { StateOf L.Level P.Policy };

    ghost state = { held L.Level P.Policy };

    ghost rules = { rules_of L.Level M.Mapping P.Policy };

    ghost lent = { λ c. L.Level.lent c.below };

    ghost meaning = { cache_meaning L.Level.rules M.Mapping.shape P.Policy.orders L.Level.meaning M.Mapping.mapped P.Policy.ordered };

    fn query(&self, address: u16, access: Access) -> Result<(), CallRefusal> {
        self.below.query(address, access).map_err(deeper)
    }

    fn read(&mut self, address: u16) -> Result<Done, CallRefusal> {
        self.query(address, Access::Read)?;
        Ok(self.after_read(address))
    }

    fn write(&mut self, address: u16, byte: u8) -> Result<Done, CallRefusal> {
        self.query(address, Access::Write)?;
        Ok(self.after_write(address, byte))
    }

    fn return_block(&mut self, address: u16) -> Result<Done, CallRefusal> {
        self.query(address, Access::Read)?;
        Ok(self.after_return(address))
    }

    fn return_all(&mut self) -> u32 {
        let evicted = self.evict_all();
        evicted.saturating_add(self.below.return_all())
    }
}
