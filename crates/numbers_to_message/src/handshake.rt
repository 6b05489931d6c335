// Handshakes.
// Kept as one function for each row: rows differ in the message that they make and in the types of its numbers.
// Kept as two parameters, the numbers and their head code: the code is read once, and says alone which rows are tried.
ghost use Rattle.std.specs.Prelude.{◌≡◌, []};
ghost use Rattle.numbers_to_message.specs.Rows.{nak, ack};
ghost use Rattle.numbers_to_message.specs.Table.{find, one, handshake_rows};
ghost use Rattle.numbers_to_message.specs.Fits.{answer, first_message};

use crate::fit::NumberType;
use crate::rows::{Answer, message_of, row};
use crate::values::u8_at;
use messages::system_exclusive::UniversalNonRealTimeMsg;

// A NAK of a packet, and whether the numbers fit it.
fn nak(v: &[u64]) -> Answer
    ensures { result ≡ answer (one nak) v.now }
{
    row(
        v,
        &[NumberType::U8],
        UniversalNonRealTimeMsg::NAK(u8_at(v, 2)),
    )
}

// An ACK of a packet, and whether the numbers fit it.
fn ack(v: &[u64]) -> Answer
    ensures { result ≡ answer (one ack) v.now }
{
    row(
        v,
        &[NumberType::U8],
        UniversalNonRealTimeMsg::ACK(u8_at(v, 2)),
    )
}

// The handshake of a head code, and whether the numbers fit it.
pub fn answer(v: &[u64], code: u64) -> Answer
    ensures { result ≡ answer (find code handshake_rows []) v.now }
{
    match code {
        0x7B00 => row(v, &[], UniversalNonRealTimeMsg::EOF),
        0x7C00 => row(v, &[], UniversalNonRealTimeMsg::Wait),
        0x7D00 => row(v, &[], UniversalNonRealTimeMsg::Cancel),
        0x7E00 => nak(v),
        0x7F00 => ack(v),
        _ => Err(UniversalNonRealTimeMsg::EOF),
    }
}

// The handshake of a head code.
pub fn message(v: &[u64], code: u64) -> UniversalNonRealTimeMsg
    ensures { result ≡ first_message (find code handshake_rows []) v.now }
{
    message_of(answer(v, code))
}
