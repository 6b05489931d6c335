// Sample dumps.
// Kept as one function for each row: rows differ in the message that they make and in the types of its numbers.
// Kept as two parameters, the numbers and their head code: the code is read once, and says alone which rows are tried.
ghost use Rattle.std.specs.Prelude.{◌≡◌, []};
ghost use Rattle.numbers_to_message.specs.Rows.{header, packet, request};
ghost use Rattle.numbers_to_message.specs.Table.{find, one, sample_rows};
ghost use Rattle.numbers_to_message.specs.Fits.{answer, first_message};

use crate::fit::NumberType;
use crate::rows::{Answer, message_of, row};
use crate::values::{loop_type_at, u8_at, u16_at, u32_at};
use messages::sample_dump::SampleDumpMsg;
use messages::system_exclusive::UniversalNonRealTimeMsg;

// A sample dump header, and whether the numbers fit it.
fn header(v: &[u64]) -> Answer
    ensures { result ≡ answer (one header) v.now }
{
    row(
        v,
        &[
            NumberType::U16,
            NumberType::U8,
            NumberType::U32,
            NumberType::U32,
            NumberType::U32,
            NumberType::U32,
            NumberType::LoopType,
        ],
        UniversalNonRealTimeMsg::SampleDump(SampleDumpMsg::Header {
            sample_num: u16_at(v, 2),
            format: u8_at(v, 3),
            period: u32_at(v, 4),
            length: u32_at(v, 5),
            sustain_loop_start: u32_at(v, 6),
            sustain_loop_end: u32_at(v, 7),
            loop_type: loop_type_at(v, 8),
        }),
    )
}

// A sample dump packet, and whether the numbers fit it.
fn packet(v: &[u64]) -> Answer
    ensures { result ≡ answer (one packet) v.now }
{
    row(
        v,
        &[NumberType::U8],
        UniversalNonRealTimeMsg::SampleDump(SampleDumpMsg::Packet {
            running_count: u8_at(v, 2),
        }),
    )
}

// A sample dump request, and whether the numbers fit it.
fn request(v: &[u64]) -> Answer
    ensures { result ≡ answer (one request) v.now }
{
    row(
        v,
        &[NumberType::U16],
        UniversalNonRealTimeMsg::SampleDump(SampleDumpMsg::Request {
            sample_num: u16_at(v, 2),
        }),
    )
}

// The sample dump message of a head code of one byte, and whether the numbers fit it.
pub fn answer(v: &[u64], code: u64) -> Answer
    ensures { result ≡ answer (find code sample_rows []) v.now }
{
    match code {
        0x0100 => header(v),
        0x0200 => packet(v),
        0x0300 => request(v),
        _ => Err(UniversalNonRealTimeMsg::EOF),
    }
}

// The sample dump message of a head code of one byte.
pub fn message(v: &[u64], code: u64) -> UniversalNonRealTimeMsg
    ensures { result ≡ first_message (find code sample_rows []) v.now }
{
    message_of(answer(v, code))
}
