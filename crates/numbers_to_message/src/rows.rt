// Messages of rows, and whether the numbers fit them.
ghost use Rattle.std.specs.Prelude.{◌≡◌, MatchResult};
ghost use Rattle.numbers_to_message.specs.Fits.{fitting};

use crate::fit::{NumberType, fits_row};
use messages::system_exclusive::UniversalNonRealTimeMsg;

// The message that numbers say, or else that of the last row, whose values stand for the numbers that misfit.
pub type Answer = Result<UniversalNonRealTimeMsg, UniversalNonRealTimeMsg>;

// The message of a row, and whether the numbers fit it.
// Inlined, so that the message is made where it is answered: called, a select took 163 ns and not 87 (docs/SPEED.md).
#[inline(always)]
pub fn row(v: &[u64], types: &[NumberType], m: UniversalNonRealTimeMsg) -> Answer
    ensures { result ≡ fitting types.now v.now m }
{
    if fits_row(v, types) { Ok(m) } else { Err(m) }
}

// The message of an answer.
pub fn message_of(a: Answer) -> UniversalNonRealTimeMsg
    ensures { MatchResult a (λ m. result ≡ m) (λ m. result ≡ m) }
{
    a.unwrap_or_else(|m| m)
}
