// Tunings.
// Kept as one function for each row: rows differ in the message that they make and in the types of its numbers.
// Kept as two parameters, the numbers and their head code: the code is read once, and says alone which rows are tried.
// Kept as v and i side by side, a slice and a place in it, as in `values`.
ghost use Rattle.std.specs.Prelude.{◌≡◌, [], ◌∷◌, ◌≤◌};
ghost use Rattle.numbers_to_message.specs.Rows.{bulk_request, bank_bulk_request, keys, bank_keys, note_change, scale_dump_1, scale_tuning_1, scale_dump_2, scale_tuning_2, twelve};
ghost use Rattle.numbers_to_message.specs.declared.fit.NumberType.TheVariants as type;
ghost use Rattle.numbers_to_message.specs.Table.{find, one, tuning_rows};
ghost use Rattle.numbers_to_message.specs.Fits.{answer, first_message};
ghost use Rattle.numbers_to_message.specs.Places.{scale_1_at, scale_2_at};

use crate::fit::NumberType;
use crate::rows::{Answer, message_of, row};
use crate::values::{bank_at, i8_at, i16_at, u8_at, u16_at};
use messages::system_exclusive::UniversalNonRealTimeMsg;
use messages::tuning::{
    ChannelBitMap, KeyBasedTuningDump, ScaleTuning1Byte, ScaleTuning2Byte, ScaleTuningDump1Byte,
    ScaleTuningDump2Byte, TuningNoteChange,
};

// A bulk dump request of no bank, and whether the numbers fit it.
fn request(v: &[u64]) -> Answer
    ensures { result ≡ answer (one bulk_request) v.now }
{
    row(
        v,
        &[NumberType::U8],
        UniversalNonRealTimeMsg::TuningBulkDumpRequest {
            tuning_bank_num: None,
            tuning_program_num: u8_at(v, 2),
        },
    )
}

// A bulk dump request of a bank, and whether the numbers fit it.
fn bank_request(v: &[u64]) -> Answer
    ensures { result ≡ answer (one bank_bulk_request) v.now }
{
    row(
        v,
        &[NumberType::U8, NumberType::U8],
        UniversalNonRealTimeMsg::TuningBulkDumpRequest {
            tuning_bank_num: Some(u8_at(v, 2)),
            tuning_program_num: u8_at(v, 3),
        },
    )
}

// A key-based tuning dump of no bank, and whether the numbers fit it.
fn keys(v: &[u64]) -> Answer
    ensures { result ≡ answer (one keys) v.now }
{
    row(
        v,
        &[NumberType::U8],
        UniversalNonRealTimeMsg::KeyBasedTuningDump(KeyBasedTuningDump {
            tuning_bank_num: None,
            tuning_program_num: u8_at(v, 2),
        }),
    )
}

// A key-based tuning dump of a bank, and whether the numbers fit it.
fn bank_keys(v: &[u64]) -> Answer
    ensures { result ≡ answer (one bank_keys) v.now }
{
    row(
        v,
        &[NumberType::U8, NumberType::U8],
        UniversalNonRealTimeMsg::KeyBasedTuningDump(KeyBasedTuningDump {
            tuning_bank_num: Some(u8_at(v, 2)),
            tuning_program_num: u8_at(v, 3),
        }),
    )
}

// A note change, and whether the numbers fit it.
fn note_change(v: &[u64]) -> Answer
    ensures { result ≡ answer (one note_change) v.now }
{
    row(
        v,
        &[NumberType::BankOrNone, NumberType::U8],
        UniversalNonRealTimeMsg::TuningNoteChange(TuningNoteChange {
            tuning_bank_num: bank_at(v, 2),
            tuning_program_num: u8_at(v, 3),
        }),
    )
}

// Twelve values of one byte from a place on.
fn scale_1(v: &[u64], i: usize) -> [i8; 12]
    requires { i ≤ 4 }
    ensures { result ≡ scale_1_at v.now i }
{
    std::array::from_fn(|k| i8_at(v, i + k))
}

// Twelve values of two bytes from a place on.
pub fn scale_2(v: &[u64], i: usize) -> [i16; 12]
    requires { i ≤ 4 }
    ensures { result ≡ scale_2_at v.now i }
{
    std::array::from_fn(|k| i16_at(v, i + k))
}

// The types of a scale tuning dump whose values are of type t.
fn dump_types(t: NumberType) -> [NumberType; 14]
    ensures { result ≡ type.U8 ∷ type.U8 ∷ twelve t }
{
    let mut types = [t; 14];
    types[..2].fill(NumberType::U8);
    types
}

// The types of a scale tuning whose values are of type t.
fn tuning_types(t: NumberType) -> [NumberType; 13]
    ensures { result ≡ type.U16 ∷ twelve t }
{
    let mut types = [t; 13];
    types[0] = NumberType::U16;
    types
}

// Kept as pairs, of one byte and of two: they differ in the type of the message, and each is one row.

// A scale tuning dump of one byte, and whether the numbers fit it.
fn scale_dump_1(v: &[u64]) -> Answer
    ensures { result ≡ answer (one scale_dump_1) v.now }
{
    row(
        v,
        &dump_types(NumberType::I8),
        UniversalNonRealTimeMsg::ScaleTuningDump1Byte(ScaleTuningDump1Byte {
            tuning_bank_num: u8_at(v, 2),
            tuning_program_num: u8_at(v, 3),
            tuning: scale_1(v, 4),
        }),
    )
}

// A scale tuning of one byte, and whether the numbers fit it.
fn scale_tuning_1(v: &[u64]) -> Answer
    ensures { result ≡ answer (one scale_tuning_1) v.now }
{
    row(
        v,
        &tuning_types(NumberType::I8),
        UniversalNonRealTimeMsg::ScaleTuning1Byte(ScaleTuning1Byte {
            channels: ChannelBitMap {
                channels: u16_at(v, 2),
            },
            tuning: scale_1(v, 3),
        }),
    )
}

// A scale tuning dump of two bytes, and whether the numbers fit it.
fn scale_dump_2(v: &[u64]) -> Answer
    ensures { result ≡ answer (one scale_dump_2) v.now }
{
    row(
        v,
        &dump_types(NumberType::I16),
        UniversalNonRealTimeMsg::ScaleTuningDump2Byte(ScaleTuningDump2Byte {
            tuning_bank_num: u8_at(v, 2),
            tuning_program_num: u8_at(v, 3),
            tuning: scale_2(v, 4),
        }),
    )
}

// A scale tuning of two bytes, and whether the numbers fit it.
fn scale_tuning_2(v: &[u64]) -> Answer
    ensures { result ≡ answer (one scale_tuning_2) v.now }
{
    row(
        v,
        &tuning_types(NumberType::I16),
        UniversalNonRealTimeMsg::ScaleTuning2Byte(ScaleTuning2Byte {
            channels: ChannelBitMap {
                channels: u16_at(v, 2),
            },
            tuning: scale_2(v, 3),
        }),
    )
}

// The tuning message of a head code, and whether the numbers fit it.
// Kept as a match over head codes: it is the table of 01, which a table of functions would only search.
pub fn answer(v: &[u64], code: u64) -> Answer
    ensures { result ≡ answer (find code tuning_rows []) v.now }
{
    match code {
        0x0800 => request(v),
        0x0801 => keys(v),
        0x0803 => bank_request(v),
        0x0804 => bank_keys(v),
        0x0805 => scale_dump_1(v),
        0x0806 => scale_dump_2(v),
        0x0807 => note_change(v),
        0x0808 => scale_tuning_1(v),
        0x0809 => scale_tuning_2(v),
        _ => Err(UniversalNonRealTimeMsg::EOF),
    }
}

// The tuning message of a head code.
pub fn message(v: &[u64], code: u64) -> UniversalNonRealTimeMsg
    ensures { result ≡ first_message (find code tuning_rows []) v.now }
{
    message_of(answer(v, code))
}
