ghost use Rattle.std.specs.Prelude.{◌≡◌};
ghost use Rattle.level.specs.Level.{deeper};
ghost use Rattle.level.specs.Told.{refusal as meant};

use words::CallRefusal;

// A refusal as the level above passes it up: one deeper, and the depth stops at 255.
pub fn deeper(refusal: CallRefusal) -> CallRefusal
    ensures { meant result ≡ deeper (meant refusal) }
{
    let depth = refusal.depth().saturating_add(1);
    match refusal {
        CallRefusal::OutOfRange { address, .. } => CallRefusal::OutOfRange { address, depth },
        CallRefusal::ReadOnly { address, .. } => CallRefusal::ReadOnly { address, depth },
    }
}
