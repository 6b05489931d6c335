// Op 1: a message is written, and what was written is read and written again. Op 64: the stretches of a file are. Op 66: as op 1, from map records.
// Kept as parameters side by side, as the functions have them that are replayed.
#![tactic(auto)]

mod again;
mod stretches;
mod tries;

ghost use Rattle.std.specs.Prelude.{◌≡◌, ◌≤◌, true, false, length};
ghost use Rattle.replay_vectors.specs.Verdicts.{FindsOnly};
ghost use Rattle.replay_write.specs.Replays.{IsWrite, message_in, WriteCase, Written, WriteRight, StretchesRight};

use messages::file_reference::Kind;
use messages::head::Head;
use messages::system_exclusive::{DeviceID, UniversalNonRealTimeMsg};
use replay_vectors::cases::Case;
use replay_vectors::numbers;
use replay_vectors::verdicts::{Fault, judged};
use util::refusal::Refusal;

// The most entries of a case.
const MOST: usize = 65536;

// Whether the out parts of a write are those of its refusal: none, or the frame whose length is the answer value.
fn is_write(case: Case) -> bool
    ensures right { result ≡ true → IsWrite case.entry }
    ensures wrong { result ≡ false → IsWrite case.entry → ⊥ }
{
    case.out_numbers.is_empty()
        && case.out_entries.is_empty()
        && case.value == case.bytes.len() as u64
        && (case.refusal == 0 || case.bytes.is_empty())
}

// The kind of sound file that a message is read for: WAV for a select of a WAV map.
fn kind_of(m: UniversalNonRealTimeMsg) -> Kind {
    if m.head() == Head::SelectWAV {
        Kind::WAV
    } else {
        Kind::Bank
    }
}

// The device and the message that the numbers of a case are, of which there are at most sixteen.
fn message_in(case: Case) -> Option<(DeviceID, UniversalNonRealTimeMsg)>
    ensures { result ≡ message_in case.entry }
{
    let mut numbers = [0u64; 16];
    let v = numbers.get_mut(..case.numbers.len())?;
    numbers::read(case.numbers, v);
    numbers_to_message::from_numbers(v)
}

// Writes a message at a place of the output, the maps of a file reference from records.
fn write_records(
    device: DeviceID,
    m: UniversalNonRealTimeMsg,
    text: &[u8],
    entries: &[u64],
    out: &mut [u8],
    place: usize,
) -> Result<usize, Refusal> {
    match m {
        UniversalNonRealTimeMsg::FileReference(r) => {
            let records = std::array::from_fn(|i| write_maps::map_at(entries, i));
            write_maps::write_first(device, r, text, records, entries.len(), out, place)
        }
        _ => writer::write(device, m, text, entries, out, place),
    }
}

// Whether a frame is read for a kind and written again alike, where the case is not refused.
fn is_written_again(case: Case, kind: Kind) -> bool {
    case.refusal != 0 || again::is_same(case.bytes, kind) == Ok(true)
}

// Whether a message is written from its entries as its case says, and what was written is written again alike.
fn is_written(case: Case, device: DeviceID, m: UniversalNonRealTimeMsg, entries: &[u64]) -> bool
    ensures { result ≡ true → Written case.entry device m entries.now }
{
    let write = |out: &mut [u8], place: usize| writer::write(
        device, m, case.text, entries, out, place,
    );
    tries::is_answered(write, case.refusal, case.bytes) && is_written_again(case, kind_of(m))
}

// Replays a write with lent space for its entries: from map records, and, with all, from its entries and what was written again.
fn replay_write(case: Case, entries: &mut [u64], has_all: bool) -> Result<(), Fault>
    requires { (length entries.old ≡ length case.entries.now) × (length entries.old ≤ 65536) × IsWrite case }
    ensures { FindsOnly result (WriteCase case.entry) (has_all ≡ true → WriteRight case.entry) }
{
    let (device, m) = message_in(case).ok_or(Fault::Malformed)?;
    numbers::read(case.entries, entries);
    let entries: &[u64] = entries;
    let write = |out: &mut [u8], place: usize| write_records(
        device, m, case.text, entries, out, place,
    );
    if !tries::is_answered(write, case.refusal, case.bytes) {
        return Err(Fault::Failed);
    }
    judged(!has_all || is_written(case, device, m, entries))
}

// Replays a case of op 1 or 66, with room for its entries.
fn replay(case: Case, has_all: bool) -> Result<(), Fault>
    ensures { FindsOnly result (WriteCase case.entry) (has_all ≡ true → WriteRight case.entry) }
{
    let count = case.entries.len();
    if !is_write(case) || MOST < count {
        return Err(Fault::Malformed);
    }
    let mut entries = [0u64; MOST];
    replay_write(case, &mut entries[..count], has_all)
}

// Replays a case of op 1.
pub fn replay_message(case: Case) -> Result<(), Fault>
    ensures { FindsOnly result (WriteCase case.entry) (WriteRight case.entry) }
{
    replay(case, true)
}

// Replays a case of op 66.
pub fn replay_records(case: Case) -> Result<(), Fault>
    ensures { FindsOnly result (WriteCase case.entry) (Unit {0}) }
{
    replay(case, false)
}

// Replays a case of op 64.
pub fn replay_stretches(case: Case) -> Result<(), Fault>
    ensures { FindsOnly result (Unit {0}) (StretchesRight case.entry) }
{
    judged(stretches::is_resent(case))
}
