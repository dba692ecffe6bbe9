ghost use Rattle.std.specs.Prelude.{◌≡◌, ◌+◌, ◌^◌, ◌<◌, List, ◌∷◌, IfOk, OnOk};
ghost use Rattle.std.specs.BTreeSet.{contains, btree_set_len, IsOrdered};
ghost use Rattle.words.specs.Lists.{words};
ghost use Rattle.words.specs.Requests.{operations};
ghost use Rattle.listcheck.specs.Account.{block as block_of, count, distinct_blocks, new_blocks, reading, returning, writing};
ghost use Rattle.std.specs.Ordering.{nat_cmp};

use std::alloc::{AllocError, Global};
use std::collections::BTreeSet;
use words::{Operation, Reader};

// How often a list asks for what, and how many different blocks it names.
#[derive(Clone, Copy, Default)]
pub struct Account {
    pub reads: usize,
    pub writes: usize,
    pub returns: usize,
    pub blocks: usize,
}

impl Account {
    // Goes through a list and counts. With a `filter_map` in front the loop's step is not proved, since what the chain
    // skips is only told as a run of the reader.
    pub fn of(heap: Global, list: &[u8]) -> Result<Self, AllocError>
        ensures reads { IfOk result (λ a. a.reads ≡ count reading (operations (words list.now))) }
        ensures writes { IfOk result (λ a. a.writes ≡ count writing (operations (words list.now))) }
        ensures returns { IfOk result (λ a. a.returns ≡ count returning (operations (words list.now))) }
        ensures blocks { IfOk result (λ a. a.blocks ≡ distinct_blocks (operations (words list.now))) }
    {
        let mut account = Account::default();
        let mut named = BTreeSet::new(heap);
        for word in Reader::new(list) {
            let Ok(request) = word.decode() else {
                continue;
            };
            account.count(request.operation);
            name_block(&mut named, request.operation)?;
        }
        account.blocks = named.len();
        Ok(account)
    }

    // One operation more.
    fn count(&mut self, operation: Operation)
        requires { self.old.reads + self.old.writes + self.old.returns + 1 < 2 ^ 64 }
        ensures reads { self.new.reads ≡ self.old.reads + reading operation }
        ensures writes { self.new.writes ≡ self.old.writes + writing operation }
        ensures returns { self.new.returns ≡ self.old.returns + returning operation }
    {
        match operation {
            Operation::Read { .. } => self.reads += 1,
            Operation::Write { .. } => self.writes += 1,
            Operation::ReturnBlock { .. } | Operation::ReturnAll => self.returns += 1,
        }
    }
}

// Puts the block that an operation names among those named before it.
fn name_block(named: &mut BTreeSet<u16>, operation: Operation) -> Result<(), AllocError>
    requires { IsOrdered nat_cmp named.old }
    ensures order { IsOrdered nat_cmp named.new }
    ensures new { OnOk result ((os : List Operation) → btree_set_len named.new + new_blocks (contains nat_cmp named.new) os ≡ btree_set_len named.old + new_blocks (contains nat_cmp named.old) (operation ∷ os)) }
{
    if let Some(block) = block(operation) {
        named.insert(block)?;
    }
    Ok(())
}

// The block that an operation names; a full return names none.
fn block(operation: Operation) -> Option<u16>
    ensures { result ≡ block_of operation }
{
    match operation {
        Operation::ReturnAll => None,
        other => Some(other.address() / 4),
    }
}
