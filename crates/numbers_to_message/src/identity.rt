// Identity requests and replies.
// Kept as one function for each row: rows differ in the message that they make and in the types of its numbers.
// Kept as two parameters, the numbers and their head code: the code is read once, and says alone which rows are tried.
ghost use Rattle.std.specs.Prelude.{◌≡◌, []};
ghost use Rattle.numbers_to_message.specs.Rows.{one_byte_reply, two_byte_reply};
ghost use Rattle.numbers_to_message.specs.Table.{find, one, identity_rows};
ghost use Rattle.numbers_to_message.specs.Fits.{answer, first_message};
ghost use Rattle.numbers_to_message.specs.Places.{reply_at};

use crate::fit::NumberType;
use crate::rows::{Answer, message_of, row};
use crate::values::{u8_at, u16_at};
use messages::system_exclusive::{IdentityReply, ManufacturerID, UniversalNonRealTimeMsg};

// The family, member and software revision, with a maker.
fn reply(id: ManufacturerID, v: &[u64]) -> UniversalNonRealTimeMsg
    ensures { result ≡ reply_at id v.now }
{
    UniversalNonRealTimeMsg::IdentityReply(IdentityReply {
        id,
        family: u16_at(v, 5),
        family_member: u16_at(v, 6),
        software_revision: (u8_at(v, 7), u8_at(v, 8), u8_at(v, 9), u8_at(v, 10)),
    })
}

// An identity reply of a maker of one byte, and whether the numbers fit it.
fn one_byte_reply(v: &[u64]) -> Answer
    ensures { result ≡ answer (one one_byte_reply) v.now }
{
    row(
        v,
        &[
            NumberType::Zero,
            NumberType::U8,
            NumberType::Zero,
            NumberType::U16,
            NumberType::U16,
            NumberType::U8,
            NumberType::U8,
            NumberType::U8,
            NumberType::U8,
        ],
        reply(ManufacturerID::OneByte(u8_at(v, 3)), v),
    )
}

// An identity reply of a maker of two bytes, and whether the numbers fit it.
fn two_byte_reply(v: &[u64]) -> Answer
    ensures { result ≡ answer (one two_byte_reply) v.now }
{
    row(
        v,
        &[
            NumberType::One,
            NumberType::U8,
            NumberType::U8,
            NumberType::U16,
            NumberType::U16,
            NumberType::U8,
            NumberType::U8,
            NumberType::U8,
            NumberType::U8,
        ],
        reply(ManufacturerID::Extended(u8_at(v, 3), u8_at(v, 4)), v),
    )
}

// The identity message of a head code, and whether the numbers fit it.
pub fn answer(v: &[u64], code: u64) -> Answer
    ensures { result ≡ answer (find code identity_rows []) v.now }
{
    match code {
        0x0601 => row(v, &[], UniversalNonRealTimeMsg::IdentityRequest),
        0x0602 => one_byte_reply(v).or(two_byte_reply(v)),
        _ => Err(UniversalNonRealTimeMsg::EOF),
    }
}

// The identity message of a head code.
pub fn message(v: &[u64], code: u64) -> UniversalNonRealTimeMsg
    ensures { result ≡ first_message (find code identity_rows []) v.now }
{
    message_of(answer(v, code))
}
