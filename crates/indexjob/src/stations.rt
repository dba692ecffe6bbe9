ghost use Rattle.std.specs.Prelude.{◌≡◌, ℕ, ◌+◌, ◌*◌, ◌%◌, ◌<◌, true, IfOk, slice_index_or, sum_by};
ghost use Rattle.level.specs.Level.{topped};
ghost use Rattle.indexjob.specs.Angles.{angle_at};
ghost use Rattle.indexjob.specs.Job.{Costs, Does, Reads, WentBy, after_angle, after_angles, after_move, after_round, after_teaching, after_teachings, angle_clocks, angle_read, nowhere, origin};

use crate::angle::Angle;
use crate::quote::Stretch;
use level::Level;
use memory::Bytes;
use settle::Running;
use std::array;
use words::CallRefusal;

pub const STATIONS: usize = 8;

// What a move asks of the pile: four reads and a write, in the records of two stations.
pub const MOVE: Stretch = Stretch {
    calls: 5,
    blocks: 2,
};

// The angles of the stations.
pub type Angles = [Angle; STATIONS];

// A move of the table from one station to another, and what its calls cost.
#[derive(Clone, Copy, Default)]
pub struct Move {
    pub from: Angle,
    pub to: Angle,
    pub clocks: u32,
}

// Where the record of a station begins. A record has 16 bytes, the angle in front, so the angles of all stations meet in
// one set of the cache, where two of them find room.
pub fn record_of(station: u8) -> u16
    ensures { result ≡ 16 * station }
{
    16 * station as u16
}

// The angle of a station, and what the two reads cost.
fn read_angle<L: Level>(running: &mut Running<L>, station: u8) -> Result<(Angle, u32), CallRefusal>
    ensures angle { IfOk result (λ told. told.0.tenths ≡ angle_read L.Level.rules (L.Level.state running.old.pile) (16 * station)) }
    ensures cost { IfOk result (λ told. told.1 ≡ topped (angle_clocks L.Level.rules (L.Level.state running.old.pile) (16 * station))) }
    ensures clocks { IfOk result (λ told. Costs running.old told.1 running.new) }
    ensures does { Does L.Level running.old (λ s. after_angle L.Level.rules s (16 * station)) running.new result }
{
    let place = record_of(station);
    let high = running.read(place)?;
    let low = running.read(place + 1)?;
    let angle = Angle::from([high.value, low.value]);
    Ok((angle, high.clocks.saturating_add(low.clocks)))
}

// The angles of all stations, one after the other. The array is filled in a loop, here and in a round: of `try_from_fn` it
// is not proved what its steps leave in the run.
pub fn read_all<L: Level>(running: &mut Running<L>) -> Result<Angles, CallRefusal>
    ensures angles { IfOk result (λ angles. (k : ℕ) → k < 8 → (slice_index_or angles k origin).tenths ≡ angle_read L.Level.rules (after_angles L.Level.rules (L.Level.state running.old.pile) k) (16 * k)) }
    ensures does { Does L.Level running.old (λ s. after_angles L.Level.rules s 8) running.new result }
{
    let mut angles = [Angle::default(); STATIONS];
    for (station, angle) in angles.iter_mut().enumerate() {
        *angle = read_angle(running, station as u8)?.0;
    }
    Ok(angles)
}

// A station is taught its angle.
pub fn teach<L: Level>(
    running: &mut Running<L>,
    station: u8,
    angle: Angle,
) -> Result<(), CallRefusal>
    ensures { Does L.Level running.old (λ s. after_teaching L.Level.rules s (16 * station) angle.tenths) running.new result }
{
    let place = record_of(station);
    let [high, low]: [u8; 2] = angle.into();
    running.write(place, high)?;
    running.write(place + 1, low)?;
    Ok(())
}

// All stations are taught their angles, one after the other.
pub fn teach_all<L: Level>(running: &mut Running<L>, angles: Angles) -> Result<(), CallRefusal>
    ensures { Does L.Level running.old (λ s. after_teachings L.Level.rules s angles 8) running.new result }
{
    for (station, angle) in angles.iter().enumerate() {
        teach(running, station as u8, *angle)?;
    }
    Ok(())
}

// Both angles are read, and the station that the table leaves is noted in the record of the one that it comes to. The two
// stations are two numbers: nothing but a move takes both, and it uses them apart.
fn index<L: Level>(running: &mut Running<L>, from: u8, to: u8) -> Result<Move, CallRefusal>
    ensures reads { IfOk result (λ step. Reads L.Level.rules (L.Level.state running.old.pile) from to step) }
    ensures clocks { IfOk result (λ step. Costs running.old step.clocks running.new) }
    ensures does { Does L.Level running.old (λ s. after_move L.Level.rules s from to) running.new result }
{
    let (from_angle, first) = read_angle(running, from)?;
    let (to_angle, second) = read_angle(running, to)?;
    let note = running.write(record_of(to) + 2, from)?;
    Ok(Move {
        from: from_angle,
        to: to_angle,
        clocks: first.saturating_add(second).saturating_add(note.clocks),
    })
}

// Once through all stations and back to the first.
pub fn index_round<L: Level>(running: &mut Running<L>) -> Result<[Move; STATIONS], CallRefusal>
    ensures reads { IfOk result (λ moves. (k : ℕ) → k < 8 → Reads L.Level.rules (after_round L.Level.rules (L.Level.state running.old.pile) k) k ((k + 1) % 8) (slice_index_or moves k nowhere)) }
    ensures clocks { IfOk result (λ moves. Costs running.old (sum_by (λ step. step.clocks) moves) running.new) }
    ensures does { Does L.Level running.old (λ s. after_round L.Level.rules s 8) running.new result }
{
    let mut moves = [Move::default(); STATIONS];
    for (station, step) in moves.iter_mut().enumerate() {
        let next = (station + 1) % STATIONS;
        *step = index(running, station as u8, next as u8)?;
    }
    Ok(moves)
}

// The angles as the bytes of a memory hold them.
pub fn home_angles<B: Bytes>(bytes: &B) -> Angles
    ensures { (k : ℕ) → k < 8 → (slice_index_or result k origin).tenths ≡ angle_at (B.Bytes.content bytes.now) (16 * k) }
{
    array::from_fn(|station| {
        let place = record_of(station as u8) as usize;
        Angle::from([bytes.get(place), bytes.get(place + 1)])
    })
}

// Whether every move went from the angle of one station to that of the next.
pub fn went_by(moves: &[Move; STATIONS], angles: &Angles) -> bool
    ensures { result ≡ true → (k : ℕ) → k < 8 → WentBy moves.now angles.now k }
{
    moves.iter().enumerate().all(|(station, step)| {
        step.from == angles[station] && step.to == angles[(station + 1) % STATIONS]
    })
}
