// Messages whose head starts with 05: loop points, sample names and extended headers.
// Kept as one function for each row: rows differ in the message that they make and in the types of its numbers.
// Kept as two parameters, the numbers and their head code: the code is read once, and says alone which rows are tried.
ghost use Rattle.std.specs.Prelude.{◌≡◌, []};
ghost use Rattle.numbers_to_message.specs.Rows.{transmission, points_request, name, name_request, extended_header, extended_transmission, extended_points_request};
ghost use Rattle.numbers_to_message.specs.Table.{find, one, extended_rows};
ghost use Rattle.numbers_to_message.specs.Fits.{answer, first_message};

use crate::fit::NumberType;
use crate::rows::{Answer, message_of, row};
use crate::values::{
    extended_loop_type_at, loop_at, loop_type_at, number_at, u8_at, u16_at, u32_at,
};
use messages::sample_dump::{ExtendedSampleDumpMsg, LoopNumber, SampleDumpMsg};
use messages::system_exclusive::UniversalNonRealTimeMsg;

// A loop point transmission, and whether the numbers fit it.
fn transmission(v: &[u64]) -> Answer
    ensures { result ≡ answer (one transmission) v.now }
{
    row(
        v,
        &[
            NumberType::U16,
            NumberType::TransmittedLoop,
            NumberType::LoopType,
            NumberType::U32,
            NumberType::U32,
        ],
        UniversalNonRealTimeMsg::SampleDump(SampleDumpMsg::LoopPointTransmission {
            sample_num: u16_at(v, 2),
            loop_num: loop_at(v, 3, LoopNumber::DeleteAll),
            loop_type: loop_type_at(v, 4),
            start_addr: u32_at(v, 5),
            end_addr: u32_at(v, 6),
        }),
    )
}

// A loop points request, and whether the numbers fit it.
fn points_request(v: &[u64]) -> Answer
    ensures { result ≡ answer (one points_request) v.now }
{
    row(
        v,
        &[NumberType::U16, NumberType::RequestedLoop],
        UniversalNonRealTimeMsg::SampleDump(SampleDumpMsg::LoopPointsRequest {
            sample_num: u16_at(v, 2),
            loop_num: loop_at(v, 3, LoopNumber::RequestAll),
        }),
    )
}

// A sample name, and whether the numbers fit it.
fn name(v: &[u64]) -> Answer
    ensures { result ≡ answer (one name) v.now }
{
    row(
        v,
        &[NumberType::U16],
        UniversalNonRealTimeMsg::ExtendedSampleDump(ExtendedSampleDumpMsg::SampleName {
            sample_num: u16_at(v, 2),
        }),
    )
}

// A sample name request, and whether the numbers fit it.
fn name_request(v: &[u64]) -> Answer
    ensures { result ≡ answer (one name_request) v.now }
{
    row(
        v,
        &[NumberType::U16],
        UniversalNonRealTimeMsg::ExtendedSampleDump(ExtendedSampleDumpMsg::SampleNameRequest {
            sample_num: u16_at(v, 2),
        }),
    )
}

// An extended sample dump header, and whether the numbers fit it.
fn header(v: &[u64]) -> Answer
    ensures { result ≡ answer (one extended_header) v.now }
{
    row(
        v,
        &[
            NumberType::U16,
            NumberType::U8,
            NumberType::U32,
            NumberType::U32,
            NumberType::U64,
            NumberType::U64,
            NumberType::U64,
            NumberType::ExtendedLoopType,
            NumberType::U8,
        ],
        UniversalNonRealTimeMsg::ExtendedSampleDump(ExtendedSampleDumpMsg::Header {
            sample_num: u16_at(v, 2),
            format: u8_at(v, 3),
            sample_rate_integer: u32_at(v, 4),
            sample_rate_fraction: u32_at(v, 5),
            length: number_at(v, 6),
            sustain_loop_start: number_at(v, 7),
            sustain_loop_end: number_at(v, 8),
            loop_type: extended_loop_type_at(v, 9),
            num_channels: u8_at(v, 10),
        }),
    )
}

// An extended loop point transmission, and whether the numbers fit it.
fn extended_transmission(v: &[u64]) -> Answer
    ensures { result ≡ answer (one extended_transmission) v.now }
{
    row(
        v,
        &[
            NumberType::U16,
            NumberType::TransmittedLoop,
            NumberType::ExtendedLoopType,
            NumberType::U64,
            NumberType::U64,
        ],
        UniversalNonRealTimeMsg::ExtendedSampleDump(
            ExtendedSampleDumpMsg::LoopPointTransmission {
                sample_num: u16_at(v, 2),
                loop_num: loop_at(v, 3, LoopNumber::DeleteAll),
                loop_type: extended_loop_type_at(v, 4),
                start_addr: number_at(v, 5),
                end_addr: number_at(v, 6),
            },
        ),
    )
}

// An extended loop points request, and whether the numbers fit it.
fn extended_points_request(v: &[u64]) -> Answer
    ensures { result ≡ answer (one extended_points_request) v.now }
{
    row(
        v,
        &[NumberType::U16, NumberType::RequestedLoop],
        UniversalNonRealTimeMsg::ExtendedSampleDump(ExtendedSampleDumpMsg::LoopPointsRequest {
            sample_num: u16_at(v, 2),
            loop_num: loop_at(v, 3, LoopNumber::RequestAll),
        }),
    )
}

// The message of a head code that starts with 05, and whether the numbers fit it.
// Kept as a match over head codes: it is the table of 01, which a table of functions would only search.
pub fn answer(v: &[u64], code: u64) -> Answer
    ensures { result ≡ answer (find code extended_rows []) v.now }
{
    match code {
        0x0501 => transmission(v),
        0x0502 => points_request(v),
        0x0503 => name(v),
        0x0504 => name_request(v),
        0x0505 => header(v),
        0x0506 => extended_transmission(v),
        0x0507 => extended_points_request(v),
        _ => Err(UniversalNonRealTimeMsg::EOF),
    }
}

// The message of a head code that starts with 05.
pub fn message(v: &[u64], code: u64) -> UniversalNonRealTimeMsg
    ensures { result ≡ first_message (find code extended_rows []) v.now }
{
    message_of(answer(v, code))
}
