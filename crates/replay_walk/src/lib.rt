// Op 3: a stream is walked with an index. Op 65: all short streams of a length are.
// Kept as parameters side by side, as the functions have them that are replayed.
#![tactic(auto)]

mod short;

ghost use Rattle.std.specs.Prelude.{◌≡◌, ◌<◌, true, false, MatchResult};
ghost use Rattle.replay_vectors.specs.declared.verdicts.Fault.TheVariants.{Malformed};
ghost use Rattle.replay_vectors.specs.Verdicts.{FindsOnly};
ghost use Rattle.replay_walk.specs.Replays.{code, Answers, Walks, StreamCase, StreamRight, ShortCase};

use messages::file_reference::Kind;
use replay_vectors::cases::Case;
use replay_vectors::numbers::{are_left, number_at};
use replay_vectors::verdicts::{Fault, judged};
use util::refusal::Refusal;
use walk::WalkError;

// The most whole pairs that a case lends.
const MOST: u64 = 70000;

// The number of a place of an index before a walk, as of any lent place.
const BEFORE: u32 = 4294967295;

// Whether the answer is the case's: a refusal's number and its value, or the number of frames.
fn is_answer(answer: Result<usize, WalkError>, case: Case) -> bool
    ensures right { result ≡ true → Answers answer case.entry }
    ensures wrong { result ≡ false → Answers answer case.entry → ⊥ }
{
    match answer {
        Ok(n) => case.refusal == 0 && n as u64 == case.value,
        Err(e) => {
            let value = match e {
                WalkError::Stream => 0,
                WalkError::Index(n) => n as u64,
            };
            Refusal::from(e).number() == case.refusal && value == case.value
        }
    }
}

// Walks a stream for a kind with an index, and holds the answer and the index to the case.
fn is_walked(case: Case, kind: Kind, index: &mut [u32]) -> bool
    ensures { result ≡ true → Walks case.entry kind index.old index.new }
{
    is_answer(walk::walk(case.text, kind, index), case) && are_left(index, case.out_entries)
}

// The kind of sound file that a number names: 0 bank, 1 WAV. Kept in two crates: replay_vectors, which both use, would need messages for it.
fn kind_of(n: u64) -> Result<Kind, Fault>
    ensures { MatchResult result (λ k. n ≡ code k) (λ e. (e ≡ Malformed) × (1 < n)) }
{
    match n {
        0 => Ok(Kind::Bank),
        1 => Ok(Kind::WAV),
        _ => Err(Fault::Malformed),
    }
}

// Replays a case of op 3; an index has a number more than its whole pairs.
pub fn replay_stream(case: Case) -> Result<(), Fault>
    ensures { FindsOnly result (StreamCase case.entry) (StreamRight case.entry) }
{
    if case.numbers.len() != 2 {
        return Err(Fault::Malformed);
    }
    let kind = kind_of(number_at(case.numbers, 0))?;
    let pairs = number_at(case.numbers, 1);
    if MOST < pairs {
        return Err(Fault::Malformed);
    }
    let mut index = [BEFORE; 140001];
    let n = pairs as usize * 2 + 1;
    judged(is_walked(case, kind, &mut index[0..n]))
}

// Replays a case of op 65: the streams of a length, so many, with so many frames in all.
pub fn replay_short_streams(case: Case) -> Result<(), Fault>
    ensures { FindsOnly result (ShortCase case.entry) (case.entry.refusal ≡ 0) }
{
    let len = number_at(case.numbers, 0) as usize;
    let streams = number_at(case.numbers, 1);
    if case.numbers.len() != 2 || short::MOST < len {
        return Err(Fault::Malformed);
    }
    judged(case.refusal == 0 && short::frames_of_all(len, streams) == Some(case.value))
}
