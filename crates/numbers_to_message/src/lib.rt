// The message that numbers say: head code, device, then the fields of the head.
// Kept as two parameters, the numbers and their head code: the code is read once, and says alone which rows are tried.
#![tactic(auto)]

ghost use Rattle.std.specs.Prelude.{◌≡◌};
ghost use Rattle.numbers_to_message.specs.Table.{rows_of, message_of_numbers};
ghost use Rattle.numbers_to_message.specs.Fits.{answer};

use messages::system_exclusive::{DeviceID, UniversalNonRealTimeMsg};
use rows::Answer;

pub mod extended_sample_dump;
pub mod file_dump;
pub mod file_reference;
pub mod file_reference_open;
pub mod fit;
pub mod general_midi;
pub mod handshake;
pub mod identity;
mod maps;
mod number;
pub mod rows;
pub mod sample_dump;
pub mod tuning;
pub mod values;

// The message of a head code, by its first byte, and whether the numbers fit it.
// Kept as a match over head codes: it is the table of 01, which a table of functions would only search.
fn answer(v: &[u64], code: u64) -> Answer
    ensures { result ≡ answer (rows_of code) v.now }
{
    match code / 256 {
        0x01 | 0x02 | 0x03 => sample_dump::answer(v, code),
        0x05 => extended_sample_dump::answer(v, code),
        0x06 => identity::answer(v, code),
        0x07 => file_dump::answer(v, code),
        0x08 => tuning::answer(v, code),
        0x09 => general_midi::answer(v, code),
        0x0B => file_reference::answer(v, code),
        0x7B | 0x7C | 0x7D | 0x7E | 0x7F => handshake::answer(v, code),
        _ => Err(UniversalNonRealTimeMsg::EOF),
    }
}

// The device and the message that numbers are.
pub fn from_numbers(v: &[u64]) -> Option<(DeviceID, UniversalNonRealTimeMsg)>
    ensures { result ≡ message_of_numbers v.now }
{
    if v.len() < 2 {
        return None;
    }
    let device = number::device_of(values::number_at(v, 1))?;
    let m = answer(v, values::number_at(v, 0)).ok()?;
    Some((device, m))
}
