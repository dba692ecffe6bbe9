// An index job of a rotary table. The angles of its eight stations go through a pile into the memory below it, the table
// goes once round, and an account of the job is printed.

#![tactic(auto)]

ghost use Rattle.std.specs.Prelude.{◌≡◌, IfOk};

mod angle;
mod quote;
mod stations;

use angle::Angle;
use anyhow::{anyhow, bail, ensure};
use cache::Cache;
use level::{Done, Level};
use memory::{Guard, Plain};
use settle::{Account, Running};
use stations::{
    Angles, MOVE, Move, STATIONS, home_angles, index_round, read_all, teach, teach_all, went_by,
};
use ways::{Fifo, SetAssociative};
use words::CallRefusal;

// The clock figure of the memory. It is the W below the cache too, since a guard adds nothing to it.
const FIGURE: u8 = 3;

// The block of the calibration bytes, which no job may write.
const CALIBRATION: u16 = 61;

// What the stations are taught at first: 350 degrees, 10 degrees, and so on.
const TAUGHT: Angles = [
    Angle { tenths: 3500 },
    Angle { tenths: 100 },
    Angle { tenths: 3300 },
    Angle { tenths: 450 },
    Angle { tenths: 900 },
    Angle { tenths: 2000 },
    Angle { tenths: 1400 },
    Angle { tenths: 2600 },
];

// The station whose angle is corrected later, and that angle.
const CORRECTED: u8 = 2;

const CORRECTED_ANGLE: Angle = Angle { tenths: 3200 };

fn main(rt: HostRuntime) -> anyhow::Result<()> {
    println!(rt; "indexjob 1")?;
    let mut bytes = [0; 256];
    let (memory, angles) = index_job(&rt, Plain::new(&mut bytes[..], FIGURE))?;
    // What the pile was last seen to hold is what it left in the memory.
    let home = home_angles(&memory.into_bytes());
    ensure!(home == angles, "the memory is behind what was read");
    println!(rt; "memory: {STATIONS} angles as read back")?;
    Ok(())
}

// What a job came to. Refusals are left in: they wait until the pile is settled and ended.
#[derive(Clone, Copy)]
struct Report {
    // what is quoted for a move before the first one is made
    quoted: u32,
    taught: Result<(), CallRefusal>,
    moves: Result<[Move; STATIONS], CallRefusal>,
    // the write of a calibration byte
    calibration: Result<Done, CallRefusal>,
    first: Account,
    corrected: Result<(), CallRefusal>,
    angles: Result<Angles, CallRefusal>,
    second: Account,
}

// Piles a guard and a cache on the memory, runs the job, prints the account of it, and hands the memory back with the angles
// as they were last read.
fn index_job<L: Level + Drop>(rt: &HostRuntime, memory: L) -> anyhow::Result<(L, Angles)>
    ensures { IfOk result (λ back. L.Level.lent back.0 ≡ L.Level.lent memory) }
{
    let quoted = MOVE.quote(FIGURE);
    let pile: Cache<Guard<L>, SetAssociative, Fifo> = Cache::over(Guard::new(
        memory,
        CALIBRATION,
        1,
    ));
    let (mut running, slip) = Running::start(pile);
    let taught = teach_all(&mut running, TAUGHT);
    let moves = index_round(&mut running);
    let calibration = running.write(4 * CALIBRATION, 1);
    let (settled, first) = running.settle(slip);
    let (mut running, slip) = settled.resume();
    let corrected = teach(&mut running, CORRECTED, CORRECTED_ANGLE);
    let angles = read_all(&mut running);
    let (settled, second) = running.settle(slip);
    let memory = settled.end().into_below().into_below();
    let report = Report {
        quoted,
        taught,
        moves,
        calibration,
        first,
        corrected,
        angles,
        second,
    };
    Ok((memory, print_report(rt, report)?))
}

// The account of a job, and the angles as they were last read.
fn print_report(rt: &HostRuntime, report: Report) -> anyhow::Result<Angles> {
    accepted(report.taught)?;
    print_moves(rt, report.quoted, accepted(report.moves)?)?;
    print_refusal(rt, report.calibration)?;
    print_account(rt, report.first)?;
    accepted(report.corrected)?;
    let angles = accepted(report.angles)?;
    print_read_back(rt, angles)?;
    print_account(rt, report.second)?;
    Ok(angles)
}

// A refusal as the error that it ends the job with.
fn accepted<T>(answer: Result<T, CallRefusal>) -> anyhow::Result<T> {
    answer.map_err(|_| anyhow!("a call was refused"))
}

// A line for each move: the angles, the turn, and the clocks quoted and spent.
fn print_moves(rt: &HostRuntime, quoted: u32, moves: [Move; STATIONS]) -> anyhow::Result<()> {
    for (station, step) in moves.iter().enumerate() {
        let next = (station + 1) % STATIONS;
        let from = step.from.tenths;
        let to = step.to.tenths;
        let turn = step.from.way_to(step.to);
        let clocks = step.clocks;
        println!(rt;
            "move {station} to {next}: {from} to {to} by {turn:+}, quoted {quoted}, cost {clocks}"
        )?;
        ensure!(clocks <= quoted, "a move cost more than was quoted");
    }
    ensure!(
        went_by(&moves, &TAUGHT),
        "a move went by another angle than was taught"
    );
    Ok(())
}

// The write of a calibration byte, which must have been refused.
fn print_refusal(rt: &HostRuntime, answer: Result<Done, CallRefusal>) -> anyhow::Result<()> {
    let Err(CallRefusal::ReadOnly { address, depth }) = answer else {
        bail!("a calibration byte was open to a write");
    };
    println!(rt; "calibration at {address}: refused at depth {depth}")?;
    Ok(())
}

fn print_account(rt: &HostRuntime, account: Account) -> anyhow::Result<()> {
    let Account { clocks, writes } = account;
    println!(rt; "settled: {clocks} clocks, {writes} writes")?;
    Ok(())
}

// The angles as they came back, which must be those taught.
fn print_read_back(rt: &HostRuntime, angles: Angles) -> anyhow::Result<()> {
    let mut wanted = TAUGHT;
    wanted[CORRECTED as usize] = CORRECTED_ANGLE;
    ensure!(
        angles == wanted,
        "a station came back with another angle than it was taught"
    );
    println!(rt; "read back: {STATIONS} angles as taught")?;
    Ok(())
}
