// A kind of sound file by its number.
ghost use Rattle.std.specs.Prelude.{◌≡◌};
ghost use Rattle.pasoreum.specs.Kinds.{kind_of};

use messages::file_reference::Kind;

// The kind that a number names: 0 bank, 1 WAV. Kept as a match: C has a number for a kind.
#[tactic(auto, unfolding(crate::specs::Kinds::kind_of))]
pub fn kind_of(n: u32) -> Option<Kind>
    ensures { result ≡ kind_of n }
{
    match n {
        0 => Some(Kind::Bank),
        1 => Some(Kind::WAV),
        _ => None,
    }
}
