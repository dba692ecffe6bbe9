// Runs the rows of the bench sheet, each on a fresh pile, and tells of each what was wanted and what came.

#![tactic(auto)]

use anyhow::ensure;
use cache::Cache;
use level::{Done, Level};
use memory::{Guard, Modules, Plain};
use traced::Traced;
use ways::{Associative, Direct, Fifo, Lru, Mapping, Policy, SetAssociative};
use words::{CallRefusal, Refusal, check_list};

fn main(rt: HostRuntime) -> anyhow::Result<()> {
    let mut sheet = Sheet::default();
    sheet.put(&rt, &first_rows())?;
    sheet.put(&rt, &[policy_row()])?;
    sheet.put(&rt, &miss_rows())?;
    sheet.put(&rt, &layer_rows())?;
    sheet.put(&rt, &[stretch_row()])?;
    sheet.put(&rt, &check_rows())?;
    sheet.put(&rt, &builder_rows())?;
    let Sheet { agree, rows } = sheet;
    println!(rt; "{agree} of {rows} agree")?;
    ensure!(agree == rows, "a row disagrees");
    Ok(())
}

// What was asked, what was wanted and what came: four numbers each, as the sheet has them, a refusal by its number.
type Row = (&'static str, [u32; 4], [u32; 4]);

// How many rows came out as they should, of how many.
#[derive(Clone, Copy, Default)]
struct Sheet {
    agree: u32,
    rows: u32,
}

impl Sheet {
    // Prints a line for each row. The rows are counted from one part of the sheet to the next.
    fn put(&mut self, rt: &HostRuntime, rows: &[Row]) -> anyhow::Result<()> {
        for (asked, wanted, came) in rows {
            self.rows = self.rows.saturating_add(1);
            let row = self.rows;
            let mark = if wanted == came {
                self.agree = self.agree.saturating_add(1);
                "agrees"
            } else {
                "DISAGREES"
            };
            println!(rt; "row {row}: {asked}: wanted {wanted:?}, came {came:?}: {mark}")?;
        }
        Ok(())
    }
}

// An accepted call as 0, its byte and its clocks; a refusal as its cause, address and depth. Each is a whole row of numbers
// and no default for the other, so a `match` says it more plainly than `map_or_else`.
fn outcome(answer: Result<Done, CallRefusal>) -> [u32; 4] {
    match answer {
        Ok(done) => [0, done.value as u32, done.clocks, 0],
        Err(refusal) => [
            u32::from(Refusal::from(refusal).number()),
            refusal.address() as u32,
            refusal.depth() as u32,
            0,
        ],
    }
}

// The clocks of an accepted call; a refused one costs none.
fn clocks(answer: Result<Done, CallRefusal>) -> u32 {
    answer.map_or(0, |done| done.clocks)
}

// An empty cache over plain memory, whose figure is 3 on the whole sheet. One line is no crate to share with other programs.
fn cached<'a, M: Mapping, P: Policy<M>>(bytes: &'a mut [u8]) -> Cache<Plain<&'a mut [u8]>, M, P> {
    Cache::over(Plain::new(bytes, 3))
}

// Rows 1 to 5: one pile, one call after the other.
fn first_rows() -> [Row; 5] {
    let mut bytes = [0; 256];
    let mut pile = cached::<SetAssociative, Fifo>(&mut bytes);
    [
        ("write 7 at 18", [0, 7, 22, 0], outcome(pile.write(18, 7))),
        ("read at 18", [0, 7, 1, 0], outcome(pile.read(18))),
        ("read at 300", [1, 300, 1, 0], outcome(pile.read(300))),
        (
            "block return at 16",
            [0, 0, 18, 0],
            outcome(pile.return_block(16)),
        ),
        ("full return", [0, 0, 8, 0], [0, 0, pile.return_all(), 0]),
    ]
}

// The block that reads at 0, 16, 0 and 32 push out: block 0 or block 4, whichever is not there any more.
fn pushed_out<P: Policy<SetAssociative> + Drop>() -> u32 {
    let mut bytes = [0; 256];
    let mut pile = cached::<SetAssociative, P>(&mut bytes);
    for address in [0, 16, 0, 32] {
        let _ = pile.read(address);
    }
    if clocks(pile.read(16)) == 1 { 0 } else { 4 }
}

// Row 6.
fn policy_row() -> Row {
    (
        "block pushed out under FIFO and under LRU",
        [0, 4, 0, 0],
        [pushed_out::<Fifo>(), pushed_out::<Lru>(), 0, 0],
    )
}

// Rows 7 and 8.
fn miss_rows() -> [Row; 2] {
    let mut bytes = [0; 256];
    let mut traced: Cache<_, SetAssociative, Fifo> = Cache::over(Traced::new(&mut bytes[..], 3));
    let _ = traced.read(19);
    let mut bytes = [0; 256];
    let mut direct = cached::<Direct, Fifo>(&mut bytes);
    let _ = direct.write(0, 9);
    [
        (
            "reads below of a miss at 19",
            [19, 16, 17, 18],
            traced.into_below().recent().map(u32::from),
        ),
        (
            "direct, write at 0, then read at 32",
            [0, 0, 38, 0],
            outcome(direct.read(32)),
        ),
    ]
}

// Rows 9 to 11.
fn layer_rows() -> [Row; 3] {
    let mut bytes = [0; 256];
    let inner = cached::<Associative, Lru>(&mut bytes);
    let mut layered: Cache<_, Direct, Fifo> = Cache::over(inner);
    let mut even = [0; 128];
    let mut odd = [0; 128];
    let modules = Modules::new(&mut even[..], &mut odd[..], 2, 5);
    let mut split: Cache<_, SetAssociative, Fifo> = Cache::over(modules);
    let mut bytes = [0; 256];
    let guard = Guard::new(Plain::new(&mut bytes[..], 3), 2, 1);
    let mut guarded: Cache<_, SetAssociative, Fifo> = Cache::over(guard);
    [
        (
            "direct over associative, read at 0",
            [0, 0, 35, 0],
            outcome(layered.read(0)),
        ),
        ("modules, read at 1", [0, 0, 21, 0], outcome(split.read(1))),
        (
            "guard on block 2, write at 9",
            [2, 9, 1, 0],
            outcome(guarded.write(9, 1)),
        ),
    ]
}

// Row 12: the clocks of four reads in two blocks, and the bound k + d × (13 + 8 × W).
fn stretch_row() -> Row {
    let mut bytes = [0; 256];
    let mut pile = cached::<SetAssociative, Fifo>(&mut bytes);
    let sum = [0, 16, 0, 16].into_iter().fold(0u32, |sum, address| {
        sum.saturating_add(clocks(pile.read(address)))
    });
    (
        "clocks of reads at 0, 16, 0, 16, and their bound",
        [46, 78, 0, 0],
        [sum, 4 + 2 * (13 + 8 * 3), 0, 0],
    )
}

// The number of the refusal of a memory with so many bytes, or 0 where one can be made.
fn refusal_of(length: usize) -> u32 {
    Plain::<&mut [u8]>::check(length, 3)
        .err()
        .map_or(0, |refusal| u32::from(Refusal::from(refusal).number()))
}

// Rows 13 and 14.
fn check_rows() -> [Row; 2] {
    let checked = check_list(&[0x80, 0x00, 0x12, 0x01]);
    [
        (
            "lengths 65,536 and 65,540",
            [0, 3, 0, 0],
            [refusal_of(65536), refusal_of(65540), 0, 0],
        ),
        (
            "word 80 00 12 01",
            [8, 1, 0, 0],
            checked.err().map_or([0; 4], |refusal| {
                let word = refusal.word().unwrap_or(0);
                let word = u32::try_from(word).unwrap_or(0);
                [u32::from(Refusal::from(refusal).number()), word, 0, 0]
            }),
        ),
    ]
}

// Beyond the sheet: a builder's own memory under a guard and two caches.
fn builder_rows() -> [Row; 2] {
    let mut bytes = [0; 256];
    let guard = Guard::new(Traced::new(&mut bytes[..], 3), 2, 1);
    let inner: Cache<_, Associative, Lru> = Cache::over(guard);
    let mut pile: Cache<_, Direct, Fifo> = Cache::over(inner);
    let refused = outcome(pile.write(9, 1));
    let _ = pile.write(18, 7);
    let _ = pile.return_all();
    let traced = pile.into_below().into_below().into_below();
    [
        (
            "own memory, guard, two caches, write at 9",
            [2, 9, 2, 0],
            refused,
        ),
        (
            "last accesses after write at 18 and full return",
            [16, 17, 18, 19],
            traced.recent().map(u32::from),
        ),
    ]
}
