// Op 64: a file is split behind each F7, and each stretch is read as a frame and written again.
ghost use Rattle.std.specs.Prelude.{◌≡◌, true};
ghost use Rattle.replay_write.specs.Replays.{StretchesRight};

use super::again;
use messages::file_reference::Kind;
use replay_vectors::cases::Case;
use replay_vectors::numbers::number;

// Kept as a number: the case has one.
// The number of a stretch in a case: 0 where it is written again with the same bytes, or that of its refusal. No refusal has the number of other
// bytes.
fn number_of(stretch: &[u8]) -> u8 {
    match again::is_same(stretch, Kind::Bank) {
        Ok(true) => 0,
        Ok(false) => 255,
        Err(r) => r.number(),
    }
}

// Whether each stretch of the text is answered by the case's number for it, and there are as many as its answer value says.
pub fn is_resent(case: Case) -> bool
    ensures { result ≡ true → StretchesRight case.entry }
{
    let count = case.out_entries.len();
    case.refusal == 0
        && case.value == count as u64
        && case.text.split_inclusive(|b| *b == 0xF7).count() == count
        && case
            .text
            .split_inclusive(|b| *b == 0xF7)
            .zip(case.out_entries)
            .all(|(stretch, answer)| u64::from(number_of(stretch)) == number(answer))
}
