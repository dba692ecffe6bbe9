ghost use Rattle.std.specs.Prelude.{◌≡◌};
ghost use Rattle.indexjob.specs.Angles.{ShorterWay, angle_at, angle_bytes};

// An angle of the table in tenths of a degree.
#[derive(Clone, Copy, PartialEq, Eq, Default)]
pub struct Angle {
    pub tenths: u16,
}

// Once round.
const ROUND: u16 = 3600;

impl Angle {
    // The shorter way round to another angle, in tenths of a degree; below 0 the table turns back.
    pub fn way_to(self, to: Angle) -> i16
        ensures { ShorterWay self.tenths to.tenths result }
    {
        let forward = (to.tenths % ROUND + ROUND - self.tenths % ROUND) % ROUND;
        if forward <= ROUND / 2 {
            forward as i16
        } else {
            forward as i16 - ROUND as i16
        }
    }
}

// From the bytes of a station's record, the high one first.
impl From<[u8; 2]> for Angle {
    ghost from_gives = { λ bytes angle. angle.tenths ≡ angle_at bytes 0 };

    fn from(bytes: [u8; 2]) -> Angle {
        Angle {
            tenths: u16::from_be_bytes(bytes),
        }
    }
}

impl From<Angle> for [u8; 2] {
    ghost from_gives = { λ angle bytes. bytes ≡ angle_bytes angle.tenths };

    fn from(angle: Angle) -> [u8; 2] {
        angle.tenths.to_be_bytes()
    }
}
