ghost use Rattle.std.specs.Prelude.{◌≡◌};
ghost use Rattle.volleyholly.specs.Host.{ArrayLaw, AsArrayRun, hosted, policy_of, run_and_return, run_number, run_through, shape_of};

use crate::piles::PileKind;
use cache::Cache;
use level::Level;
use lists::run_list;
use memory::{BytesMut, Plain};
use ways::{Associative, Direct, Fifo, Lru, Mapping, Policy, SetAssociative};
use words::Refusal;

// Runs a list, and returns everything if it was taken.
fn run_and_return<L: Level>(pile: &mut L, list: &[u8], results: &mut [u8]) -> Result<(), Refusal>
    ensures code { run_number result ≡ (run_and_return L.Level.rules (L.Level.state pile.old) list.now results.old).code }
    ensures next { L.Level.state pile.new ≡ (run_and_return L.Level.rules (L.Level.state pile.old) list.now results.old).next }
    ensures results { results.new ≡ (run_and_return L.Level.rules (L.Level.state pile.old) list.now results.old).results }
    ensures lent { L.Level.lent pile.new ≡ L.Level.lent pile.old }
{
    run_list(pile, list, results)?;
    let _clocks = pile.return_all();
    Ok(())
}

// Puts a cache on the memory, runs the list, and hands the memory back. The bytes are a type parameter: what a
// slice of the caller holds is not known after a cache was made of the slice itself. There are four parameters and no
// struct of them: with slices that are lent it would need a clause for each slice, that it stays the same one.
#[tactic(auto, unfolding(crate::specs::Host::run_through))]
fn run_through<B: BytesMut, M: Mapping, P: Policy<M> + Drop>(
    memory: B,
    figure: u8,
    list: &[u8],
    results: &mut [u8],
) -> (B, Result<(), Refusal>)
    ensures memory { B.Bytes.content result.0 ≡ (run_through M.Mapping.shape P.Policy.orders (B.Bytes.content memory) figure list.now results.old).memory }
    ensures results { results.new ≡ (run_through M.Mapping.shape P.Policy.orders (B.Bytes.content memory) figure list.now results.old).results }
    ensures code { run_number result.1 ≡ (run_through M.Mapping.shape P.Policy.orders (B.Bytes.content memory) figure list.now results.old).code }
    ensures lent { B.BytesMut.lent result.0 ≡ B.BytesMut.lent memory }
    ensures array { ArrayLaw M.Mapping.shape P.Policy.orders }
{
    let mut pile: Cache<Plain<B>, M, P> = Cache::over(Plain::new(memory, figure));
    let outcome = run_and_return(&mut pile, list, results);
    (pile.into_below().into_bytes(), outcome)
}

// Runs a request list on a fresh pile over the memory, and ends with a full return. A refusal changes nothing. It has the
// parameters and the clauses of the call for C, one for each thing that is left behind, so that each is told by its name.
fn run(
    pile: u32,
    memory: &mut [u8],
    clocks: u32,
    list: &[u8],
    results: &mut [u8],
) -> Result<(), Refusal>
    ensures code { run_number result ≡ (hosted pile memory.old clocks list.now results.old).code }
    ensures memory { memory.new ≡ (hosted pile memory.old clocks list.now results.old).memory }
    ensures results { results.new ≡ (hosted pile memory.old clocks list.now results.old).results }
    ensures array { run_number result ≡ 0 → AsArrayRun (shape_of pile) (policy_of pile) memory.old clocks list.now memory.new }
{
    let kind = PileKind::try_from(pile)?;
    // A figure that a byte does not hold is out of range, as 0 is.
    let figure = u8::try_from(clocks).unwrap_or(0);
    Plain::<&mut [u8]>::check(memory.len(), figure)?;
    // One arm for each, since a value cannot choose types in another way.
    match kind {
        PileKind::DirectFifo => run_through::<_, Direct, Fifo>(memory, figure, list, results).1,
        PileKind::SetAssociativeFifo => run_through::<_, SetAssociative, Fifo>(
            memory, figure, list, results,
        ).1,
        PileKind::AssociativeLru => run_through::<_, Associative, Lru>(
            memory, figure, list, results,
        ).1,
    }
}

// Runs a request list on a fresh pile over the caller's memory, and ends with a full return. Its answer is 0, or the
// number of the refusal, and then nothing is changed.
#[unsafe(no_mangle)]
pub extern "C" fn volleyholly_run(
    pile: u32,
    memory: &mut [u8],
    clocks: u32,
    list: &[u8],
    results: &mut [u8],
) -> u32
    ensures code { result ≡ (hosted pile memory.old clocks list.now results.old).code }
    ensures memory { memory.new ≡ (hosted pile memory.old clocks list.now results.old).memory }
    ensures results { results.new ≡ (hosted pile memory.old clocks list.now results.old).results }
    ensures array { result ≡ 0 → AsArrayRun (shape_of pile) (policy_of pile) memory.old clocks list.now memory.new }
{
    match run(pile, memory, clocks, list, results) {
        Ok(()) => 0,
        Err(refusal) => u32::from(refusal.number()),
    }
}
