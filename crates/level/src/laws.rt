ghost use Rattle.level.specs.Arrays.{LikeArray};
ghost use Rattle.level.specs.Checks.{MemoryChecks, GuardChecks};
ghost use Rattle.level.specs.Guard.{guard_rules};
ghost use Rattle.level.specs.Meaning.{Meaning};
ghost use Rattle.level.specs.Memory.{image_rules, plain_rules};
ghost use Rattle.level.specs.Modules.{modules_rules};
ghost use Rattle.level.specs.Promise.{Promise};
ghost use Rattle.level.specs.Runs.{RunsBelow};

use crate::level::Level;

// The theorems of this crate. Each function does nothing, and its contract is the theorem.

// Plain memory means a level.
pub fn plain_keeps_meaning()
    ensures { Meaning plain_rules }
{}

// Two-module memory means a level.
pub fn modules_keep_meaning()
    ensures { Meaning modules_rules }
{}

// An image means a level.
pub fn image_keeps_meaning()
    ensures { Meaning image_rules }
{}

// A guard over any level means a level.
pub fn guard_keeps_meaning<L: Level>()
    ensures { Meaning (guard_rules L.Level.rules) }
{}

// Every run of any level keeps the promise.
pub fn level_promise<L: Level>()
    ensures { Promise L.Level.rules }
{}

// At every moment any level answers a list of calls as an array of bytes would.
pub fn level_like_array<L: Level>()
    ensures { LikeArray L.Level.rules }
{}

// What a guard does to the level below is a run of that level.
pub fn guard_runs_below<L: Level>()
    ensures { RunsBelow L.Level.rules (guard_rules L.Level.rules) (λ s. s.below) }
{}

// The check of a memory tells what is wrong with a making, and gives 0 just where nothing is.
pub fn memory_checks_tell()
    ensures { MemoryChecks }
{}

// The check of a guard over any level does so too.
pub fn guard_check_tells<L: Level>()
    ensures { GuardChecks L.Level.rules }
{}
