// Measures what a call costs in time: a hit against a bare array read with the same test of the address, and 4,096 mixed
// requests on each pile, over a small and over the largest memory. The figures go to standard error, since they differ
// from run to run.

#![tactic(auto)]

use cache::Cache;
use level::Level;
use memory::Plain;
use std::time::Instant;
use ways::{Associative, Direct, Fifo, Lru, Mapping, Policy, SetAssociative};

const HITS: u32 = 2_000_000;

const REQUESTS: u32 = 4096;

fn main(rt: HostRuntime) -> anyhow::Result<()> {
    let mut bytes = [7; 65536];
    let bare = reads(&rt, false, |at| bytes.get(at as usize).copied())?;
    let bare_chained = reads(&rt, true, |at| bytes.get(at as usize).copied())?;
    let mut pile = cached::<Direct, Fifo>(&mut bytes);
    let hits = reads(&rt, false, |at| Some(pile.read(at).ok()?.value))?;
    let hits_chained = reads(&rt, true, |at| Some(pile.read(at).ok()?.value))?;
    eprintln!(rt; "{HITS} independent reads: bare {bare} ns, hits {hits} ns")?;
    eprintln!(rt; "{HITS} chained reads: bare {bare_chained} ns, hits {hits_chained} ns")?;
    pile_times::<Direct, Fifo>(&rt, "direct FIFO")?;
    pile_times::<SetAssociative, Fifo>(&rt, "set-associative FIFO")?;
    pile_times::<Associative, Lru>(&rt, "associative LRU")
}

// An empty cache over plain memory, as the bench sheet makes it: one line is no crate to share.
fn cached<'a, M: Mapping, P: Policy<M>>(bytes: &'a mut [u8]) -> Cache<Plain<&'a mut [u8]>, M, P> {
    Cache::over(Plain::new(bytes, 3))
}

// How long so many steps take, each of which makes the next sum of the last one and its own number.
fn timed<F: FnMut(u32, u32) -> u32>(
    rt: &HostRuntime,
    of: &str,
    steps: u32,
    mut step: F,
) -> anyhow::Result<u128>
    requires { F.IsAlwaysCallable step }
{
    let start = Instant::now(rt)?;
    let mut sum = 0;
    // A `for`: of a `fold` it is not proved that the step may be called each time.
    for i in 0..steps {
        sum = step(sum, i);
    }
    let time = start.elapsed(rt)?.as_nanos();
    eprintln!(rt; "({of} {sum})")?;
    Ok(time)
}

// Reads in one block. They do not hang on one another, so the compiler may do several at once; chained ones take each
// address from the sum so far, so that one read waits for the other.
fn reads<F: FnMut(u16) -> Option<u8>>(
    rt: &HostRuntime,
    chained: bool,
    mut read: F,
) -> anyhow::Result<u128>
    requires { (state : F) (x : _) → F.pre state x }
{
    let step = |sum: u32, i: u32| -> u32
        requires { (state : F) (x : _) → F.pre state x }
    {
        let at = if chained { sum } else { i } % 4;
        read(at as u16).map_or(sum, |byte| sum.wrapping_add(byte as u32 ^ i))
    };
    timed(rt, "sum", HITS, step)
}

// Mixed reads and writes at scattered addresses, over 256 bytes and over 65,536.
fn pile_times<M: Mapping, P: Policy<M> + Drop>(rt: &HostRuntime, name: &str) -> anyhow::Result<()> {
    let over_large = mixed::<M, P>(rt, &mut [7; 65536], 65535)?;
    let over_small = mixed::<M, P>(rt, &mut [7; 256], 255)?;
    eprintln!(rt;
        "{name}: {REQUESTS} mixed requests over 65,536 bytes {over_large} ns, over 256 bytes {over_small} ns"
    )?;
    Ok(())
}

fn mixed<M: Mapping, P: Policy<M> + Drop>(
    rt: &HostRuntime,
    bytes: &mut [u8],
    highest: u16,
) -> anyhow::Result<u128> {
    let mut pile = cached::<M, P>(bytes);
    let mut seed = 1u32;
    timed(rt, "clocks", REQUESTS, |sum, _| {
        seed = seed.wrapping_mul(1664525).wrapping_add(1013904223);
        let address = ((seed >> 16) % (highest as u32 + 1)) as u16;
        let answer = if seed % 4 == 0 {
            pile.write(address, 9)
        } else {
            pile.read(address)
        };
        answer.map_or(sum, |done| sum.wrapping_add(done.clocks))
    })
}
