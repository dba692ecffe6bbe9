ghost use Rattle.std.specs.Prelude.{◌≡◌, true, false, MatchResult};
ghost use Rattle.words.specs.declared.refusal.Refusal.TheVariants.{UnknownPile};
ghost use Rattle.volleyholly.specs.Host.{known};
ghost use Rattle.volleyholly.specs.Piles.{pile_number};

use words::Refusal;

// The piles that the host call knows: a cache by its mapping and its policy, over plain memory.
#[derive(Clone, Copy)]
pub(crate) enum PileKind {
    DirectFifo,
    SetAssociativeFifo,
    AssociativeLru,
}

// The pile of a number, where there is one.
impl TryFrom<u32> for PileKind {
    type Error = Refusal;

    ghost try_from_gives = { λ number r. MatchResult r (λ kind. (known number ≡ true) × (pile_number kind ≡ number)) (λ e. (known number ≡ false) × (e ≡ UnknownPile)) };

    fn try_from(number: u32) -> Result<PileKind, Refusal> {
        match number {
            1 => Ok(PileKind::DirectFifo),
            2 => Ok(PileKind::SetAssociativeFifo),
            3 => Ok(PileKind::AssociativeLru),
            _ => Err(Refusal::UnknownPile),
        }
    }
}
