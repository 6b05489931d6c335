// Op 2: a frame is read with lent space. Op 4: identity bytes are read.
// Kept as parameters side by side, as the functions have them that are replayed.
#![tactic(auto)]

ghost use Rattle.std.specs.Prelude.{◌≡◌, ◌<◌, true, length, take, MatchResult};
ghost use Rattle.replay_vectors.specs.declared.verdicts.Fault.TheVariants.{Malformed};
ghost use Rattle.replay_vectors.specs.Verdicts.{FindsOnly};
ghost use Rattle.replay_read.specs.Replays.{code, IsText, Answers, Reads, FrameCase, FrameRight, IdentityRight};

use messages::file_reference::Kind;
use messages::system_exclusive::{DeviceID, UniversalNonRealTimeMsg};
use reader::lent::Reading;
use replay_vectors::cases::Case;
use replay_vectors::numbers;
use replay_vectors::numbers::{are_left, number_at};
use replay_vectors::verdicts::{Fault, judged};
use util::bytes::sub_slice;
use util::refusal::Refusal;

// The most places that a case lends.
const MOST: usize = 70000;

// The byte of a lent place before a reading.
const BEFORE: u8 = 0xA5;

// Whether lent places begin with these bytes, and behind them are as they were.
fn is_left(lent: &[u8], bytes: &[u8]) -> bool
    ensures { result ≡ true → take (length bytes.now) lent.now ≡ bytes.now }
{
    match lent.split_at_checked(bytes.len()) {
        Some((front, rest)) => check::same(front, bytes) && rest.iter().all(|b| *b == BEFORE),
        None => false,
    }
}

// Whether the numbers of a message, but for the first few, are those of a list.
fn is_message(device: DeviceID, m: UniversalNonRealTimeMsg, few: usize, list: &[[u8; 8]]) -> bool {
    let mut got = [numbers::BEFORE; 16];
    let count = numbers_of_message::to_numbers(device, m, &mut got);
    match got.get(few..) {
        Some(rest) => few <= count && count - few == list.len() && are_left(rest, list),
        None => false,
    }
}

// Whether the text and the lent space are the case's: file data in so many lent places, or a part of the frame and so many entries.
fn is_text(case: Case, r: Reading, data: &[u8]) -> bool
    ensures { result ≡ true → IsText case.entry r «data».now }
{
    if number_at(case.out_numbers, 0) == 0x0702 {
        return r.places == case.bytes.len()
            && r.from == 0
            && r.len == 0
            && is_left(data, case.bytes);
    }
    r.places == case.out_entries.len()
        && r.len == case.bytes.len()
        && is_left(data, b"")
        && check::same(sub_slice(case.text, r.from, r.len), case.bytes)
}

// Whether an answer is the case's, and the lent space too.
fn is_answer(case: Case, answer: Result<Reading, Refusal>, data: &[u8], entries: &[u64]) -> bool
    ensures { result ≡ true → Answers answer case.entry «data».now }
{
    if !are_left(entries, case.out_entries) {
        return false;
    }
    match answer {
        Ok(r) => case.refusal == 0
            && is_message(r.device, r.m, 0, case.out_numbers)
            && is_text(case, r, data),
        Err(r) => r.number() == case.refusal && is_left(data, b""),
    }
}

// Reads a frame for a kind with places lent for file data and for entries, and holds the answer to the case.
fn is_read(case: Case, kind: Kind, data: &mut [u8], entries: &mut [u64]) -> bool
    ensures { result ≡ true → Reads case.entry kind «data».old «data».new entries.old entries.new }
{
    let answer = reader::read(case.text, kind, data, entries);
    is_answer(case, answer, data, entries)
}

// Whether identity bytes are read as the case says: its numbers are those of the reply without head code and device.
fn is_identity(case: Case) -> bool
    ensures { result ≡ true → IdentityRight case.entry }
{
    match UniversalNonRealTimeMsg::from_midi(case.text) {
        Ok(reply) => {
            let m = UniversalNonRealTimeMsg::IdentityReply(reply);
            case.refusal == 0 && is_message(DeviceID::Device(0), m, 2, case.out_numbers)
        }
        Err(r) => r.number() == case.refusal,
    }
}

// The kind of sound file that a number names: 0 bank, 1 WAV. Kept in two crates: replay_vectors, which both use, would need messages for it.
fn kind_of(n: u64) -> Result<Kind, Fault>
    ensures { MatchResult result (λ k. n ≡ code k) (λ e. (e ≡ Malformed) × (1 < n)) }
{
    match n {
        0 => Ok(Kind::Bank),
        1 => Ok(Kind::WAV),
        _ => Err(Fault::Malformed),
    }
}

// Replays a case of op 2.
pub fn replay_frame(case: Case) -> Result<(), Fault>
    ensures { FindsOnly result (FrameCase case.entry) (FrameRight case.entry) }
{
    if case.numbers.len() != 3 {
        return Err(Fault::Malformed);
    }
    let kind = kind_of(number_at(case.numbers, 0))?;
    let x = number_at(case.numbers, 1) as usize;
    let y = number_at(case.numbers, 2) as usize;
    if MOST < x {
        return Err(Fault::Malformed);
    }
    if MOST < y {
        return Err(Fault::Malformed);
    }
    let mut data = [BEFORE; MOST];
    let mut entries = [numbers::BEFORE; MOST];
    judged(is_read(case, kind, &mut data[..x], &mut entries[..y]))
}

// Replays a case of op 4.
pub fn replay_identity(case: Case) -> Result<(), Fault>
    ensures { FindsOnly result (Unit {0}) (IdentityRight case.entry) }
{
    judged(is_identity(case))
}
