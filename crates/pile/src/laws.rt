ghost use Rattle.pile.specs.Cache.{cache_rules};
ghost use Rattle.pile.specs.Promise.{WholePromise};
ghost use Rattle.pile.specs.Rows.{BenchRows};
ghost use Rattle.level.specs.Meaning.{Meaning};

use level::Level;
use ways::{Mapping, Policy};

// The theorems of this crate. Each function does nothing, and its contract is the theorem.

// A cache over any level, with any mapping and any policy, means a level.
pub fn cache_keeps_meaning<L: Level, M: Mapping, P: Policy<M>>()
    ensures { Meaning (cache_rules L.Level.rules M.Mapping.shape P.Policy.orders) }
{}

// What every run of such a cache keeps: the whole promise.
pub fn pile_promise<L: Level, M: Mapping, P: Policy<M>>()
    ensures { WholePromise L.Level.rules M.Mapping.shape P.Policy.orders }
{}

// The bench rows, worked examples of the rules, follow from the rules.
pub fn bench_rows()
    ensures { BenchRows }
{}
