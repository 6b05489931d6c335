// What programs outside link: each function takes numbers and slices, and answers the number of a refusal, 0 where nothing is refused.
// Kept as numbers and slices side by side: C has them so.
#![tactic(auto)]

mod identity;
mod kinds;
mod walking;

ghost use Rattle.std.specs.Prelude.{◌≡◌, ltb, length};
ghost use Rattle.rates.specs.Rate.{numbers_of, join_of, split_of};
ghost use Rattle.rates.specs.Cents.{cents_of};
ghost use Rattle.util.specs.Channels.{how_many, lowest};
ghost use Rattle.pasoreum.specs.Kinds.{kind_of};
ghost use Rattle.numbers_write.specs.Write.{write_number, write_value, write_output};
ghost use Rattle.numbers_read.specs.Read.{read_number};
ghost use Rattle.pasoreum.specs.Read.{ReadAs};
ghost use Rattle.pasoreum.specs.Walk.{walk_number, walk_value, walk_index};
ghost use Rattle.pasoreum.specs.Identity.{identity_number, identity_answer};

use messages::system_exclusive::UniversalNonRealTimeMsg;
use util::refusal::Refusal;

// The refusals of the boundary's own: a kind that is neither, and an answer without room. Kept as numbers: C gets a number.
const NO_KIND: u32 = 65;

const NO_ROOM: u32 = 66;

// Writes the frame of a message at a place of the output; the value is the frame's length.
#[unsafe(no_mangle)]
pub extern "C" fn pasoreum_write(
    numbers: &[u64],
    text: &[u8],
    entries: &[u64],
    out: &mut [u8],
    place: usize,
    value: &mut u64,
) -> u32
    ensures number { result ≡ write_number numbers.now text.now entries.now out.old place }
    ensures value { value.new ≡ write_value numbers.now text.now entries.now out.old place }
    ensures output { out.new ≡ write_output numbers.now text.now entries.now out.old place }
{
    match numbers_write::write(numbers, text, entries, out, place) {
        Ok(n) => {
            *value = n as u64;
            0
        }
        Err(e) => {
            *value = 0;
            e.number()
        }
    }
}

// The number of what reading answers.
fn told(read: Result<(), Refusal>) -> u32
    ensures { result ≡ read_number read }
{
    match read {
        Ok(()) => 0,
        Err(r) => u32::from(r.number()),
    }
}

// Reads a frame for a kind of sound file, 0 bank, 1 WAV: its file data and entries into lent places, its numbers into the answer.
#[unsafe(no_mangle)]
pub extern "C" fn pasoreum_read(
    frame: &[u8],
    kind: u32,
    data: &mut [u8],
    entries: &mut [u64],
    answer: &mut [u64],
) -> u32
    ensures { ReadAs (kind_of kind) (ltb (length answer.old) 20) result frame.now «data».old «data».new entries.old entries.new answer.old answer.new }
{
    match kinds::kind_of(kind) {
        Some(k) => if answer.len() < 20 {
            NO_ROOM
        } else {
            told(numbers_read::read_for(frame, k, data, entries, answer))
        },
        None => NO_KIND,
    }
}

// Lists the frames of a stream in an index, for a kind of sound file, 0 bank, 1 WAV; the value is the number of frames.
#[unsafe(no_mangle)]
pub extern "C" fn pasoreum_walk(stream: &[u8], kind: u32, index: &mut [u32], value: &mut u64) -> u32
    ensures number { result ≡ walk_number (kind_of kind) stream.now index.old }
    ensures value { value.new ≡ walk_value (kind_of kind) stream.now index.old }
    ensures output { index.new ≡ walk_index (kind_of kind) stream.now index.old }
{
    match kinds::kind_of(kind) {
        Some(k) => walking::walk_for(stream, k, index, value),
        None => {
            *value = 0;
            NO_KIND
        }
    }
}

// Reads an identity reply from its head on, its numbers into the answer.
#[unsafe(no_mangle)]
pub extern "C" fn pasoreum_identity(bytes: &[u8], answer: &mut [u64]) -> u32
    ensures number { result ≡ identity_number bytes.now answer.old }
    ensures output { answer.new ≡ identity_answer bytes.now answer.old }
{
    if answer.len() < 9 {
        return NO_ROOM;
    }
    match UniversalNonRealTimeMsg::from_midi(bytes) {
        Ok(reply) => {
            identity::put_reply(answer, reply);
            0
        }
        Err(r) => u32::from(r.number()),
    }
}

// Splits a rate into a whole part and 2^28ths.
#[unsafe(no_mangle)]
pub extern "C" fn pasoreum_split_rate(rate: f64, whole: &mut u32, fraction: &mut u32) -> u32
    ensures { (result ≡ (numbers_of (split_of rate)).number) × ((whole.new ≡ (numbers_of (split_of rate)).whole) × (fraction.new ≡ (numbers_of (split_of rate)).fraction)) }
{
    match rates::split_rate(rate) {
        Ok(pair) => {
            *whole = pair.whole;
            *fraction = pair.fraction;
            0
        }
        Err(r) => {
            *whole = 0;
            *fraction = 0;
            u32::from(r.number())
        }
    }
}

// The rate of a whole part and 2^28ths.
#[unsafe(no_mangle)]
pub extern "C" fn pasoreum_join_rate(whole: u32, fraction: u32) -> f64
    ensures { result ≡ join_of whole fraction }
{
    rates::join_rate(whole, fraction)
}

// Cents as a fraction of 14 bits.
#[unsafe(no_mangle)]
pub extern "C" fn pasoreum_cents(cents: f32) -> u16
    ensures { result ≡ cents_of cents }
{
    rates::cents_to_u14(cents)
}

// How many channels a set names.
#[unsafe(no_mangle)]
pub extern "C" fn pasoreum_channels(set: u16) -> u32
    ensures { result ≡ how_many set }
{
    util::channels::how_many(set)
}

// The lowest channel that a set names, 0 where it names none.
#[unsafe(no_mangle)]
pub extern "C" fn pasoreum_lowest_channel(set: u16) -> u32
    ensures { result ≡ lowest set }
{
    util::channels::lowest(set)
}
