// File dumps.
// Kept as one function for each row: rows differ in the message that they make and in the types of its numbers.
// Kept as two parameters, the numbers and their head code: the code is read once, and says alone which rows are tried.
ghost use Rattle.std.specs.Prelude.{◌≡◌, []};
ghost use Rattle.numbers_to_message.specs.Rows.{file_header, file_packet, file_request};
ghost use Rattle.numbers_to_message.specs.Table.{find, one, file_rows};
ghost use Rattle.numbers_to_message.specs.Fits.{answer, first_message};

use crate::fit::NumberType;
use crate::rows::{Answer, message_of, row};
use crate::values::{device_at, file_type_at, u8_at, u32_at};
use messages::file_dump::FileDumpMsg;
use messages::system_exclusive::UniversalNonRealTimeMsg;

// A file dump header, and whether the numbers fit it.
fn header(v: &[u64]) -> Answer
    ensures { result ≡ answer (one file_header) v.now }
{
    row(
        v,
        &[NumberType::Device, NumberType::FileType, NumberType::U32],
        UniversalNonRealTimeMsg::FileDump(FileDumpMsg::Header {
            sender_device: device_at(v, 2),
            file_type: file_type_at(v, 3),
            length: u32_at(v, 4),
        }),
    )
}

// A file dump packet, and whether the numbers fit it.
fn packet(v: &[u64]) -> Answer
    ensures { result ≡ answer (one file_packet) v.now }
{
    row(
        v,
        &[NumberType::U8],
        UniversalNonRealTimeMsg::FileDump(FileDumpMsg::Packet {
            running_count: u8_at(v, 2),
        }),
    )
}

// A file dump request, and whether the numbers fit it.
fn request(v: &[u64]) -> Answer
    ensures { result ≡ answer (one file_request) v.now }
{
    row(
        v,
        &[NumberType::Device, NumberType::FileType],
        UniversalNonRealTimeMsg::FileDump(FileDumpMsg::Request {
            requester_device: device_at(v, 2),
            file_type: file_type_at(v, 3),
        }),
    )
}

// The file dump message of a head code, and whether the numbers fit it.
pub fn answer(v: &[u64], code: u64) -> Answer
    ensures { result ≡ answer (find code file_rows []) v.now }
{
    match code {
        0x0701 => header(v),
        0x0702 => packet(v),
        0x0703 => request(v),
        _ => Err(UniversalNonRealTimeMsg::EOF),
    }
}

// The file dump message of a head code.
pub fn message(v: &[u64], code: u64) -> UniversalNonRealTimeMsg
    ensures { result ≡ first_message (find code file_rows []) v.now }
{
    message_of(answer(v, code))
}
