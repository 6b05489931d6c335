// File references.
// Kept as one function for each message: messages differ in their fields and in the types of their numbers.
// Kept as two parameters, the numbers and their head code: the code is read once, and says alone which rows are tried.
ghost use Rattle.std.specs.Prelude.{◌≡◌, [], ◌≤◌, get_or};
ghost use Rattle.numbers_to_message.specs.Rows.{open_file, close_file, select_list, select_offset, select_wav, select_both, selected};
ghost use Rattle.numbers_to_message.specs.declared.fit.NumberType.TheVariants as type;
ghost use Rattle.numbers_to_message.specs.Table.{find, one, reference_rows};
ghost use Rattle.numbers_to_message.specs.Fits.{answer, first_message, fitting, taken};
ghost use Rattle.numbers_to_message.specs.Places.{wav_map_at};

use crate::file_reference_open::open_select_answer;
use crate::fit::NumberType;
use crate::maps::{both_map, map_types, offset_map, plain_map};
use crate::rows::{Answer, message_of, row};
use crate::values::{i16_at, reference_type_at, u8_at, u16_at};
use messages::file_reference::{FileReferenceMsg, SelectMap, WAVMap};
use messages::system_exclusive::UniversalNonRealTimeMsg;

// The WAV map of seven numbers from a place on.
pub fn wav_map(v: &[u64], i: usize) -> WAVMap
    requires { i ≤ 7 }
    ensures { result ≡ wav_map_at v.now i }
{
    WAVMap {
        dst_bank: u16_at(v, i),
        dst_prog: u8_at(v, i + 1),
        base: u8_at(v, i + 2),
        lokey: u8_at(v, i + 3),
        hikey: u8_at(v, i + 4),
        fine: i16_at(v, i + 5),
        volume: u8_at(v, i + 6),
    }
}

// An open, and whether the numbers fit it.
fn open(v: &[u64]) -> Answer
    ensures { result ≡ answer (one open_file) v.now }
{
    row(
        v,
        &[NumberType::U16, NumberType::ReferenceType],
        UniversalNonRealTimeMsg::FileReference(FileReferenceMsg::Open {
            ctx: u16_at(v, 2),
            file_type: reference_type_at(v, 3),
        }),
    )
}

// A close, and whether the numbers fit it.
fn close(v: &[u64]) -> Answer
    ensures { result ≡ answer (one close_file) v.now }
{
    row(
        v,
        &[NumberType::U16],
        UniversalNonRealTimeMsg::FileReference(FileReferenceMsg::Close { ctx: u16_at(v, 2) }),
    )
}

// A select of a map, and whether the numbers fit it.
// Inlined as `row` is, so that the types are known; called by a function for each row: without, a WAV select took 66 ns and not 61.
#[inline(always)]
fn select_row(v: &[u64], types: &[NumberType], map: SelectMap) -> Answer
    ensures { result ≡ fitting types.now v.now (selected (taken type.U16 (get_or v.now 2 0)) map) }
{
    row(
        v,
        types,
        UniversalNonRealTimeMsg::FileReference(FileReferenceMsg::SelectContents {
            ctx: u16_at(v, 2),
            map,
        }),
    )
}

// A select of a list of bank maps, and whether the numbers fit it.
fn select_list(v: &[u64]) -> Answer
    ensures { result ≡ answer (one select_list) v.now }
{
    select_row(v, map_types!(list: U16), SelectMap::SoundFile)
}

// A select of a bank offset, and whether the numbers fit it.
fn select_offset(v: &[u64]) -> Answer
    ensures { result ≡ answer (one select_offset) v.now }
{
    select_row(v, map_types!(offset: U16), offset_map(v, 3))
}

// A select of a WAV map, and whether the numbers fit it.
fn select_wav(v: &[u64]) -> Answer
    ensures { result ≡ answer (one select_wav) v.now }
{
    select_row(v, map_types!(wav: U16), plain_map(v, 3))
}

// A select of a WAV map with a bank offset, and whether the numbers fit it.
fn select_both(v: &[u64]) -> Answer
    ensures { result ≡ answer (one select_both) v.now }
{
    select_row(v, map_types!(both: U16), both_map(v, 3))
}

// The message of a select, by the form of its map, and whether the numbers fit it.
pub fn select_answer(v: &[u64]) -> Answer
    ensures { result ≡ answer (find 0x0B02 reference_rows []) v.now }
{
    select_list(v)
        .or(select_offset(v))
        .or(select_wav(v))
        .or(select_both(v))
}

// The message of a select, by the form of its map.
pub fn select(v: &[u64]) -> UniversalNonRealTimeMsg
    ensures { result ≡ first_message (find 0x0B02 reference_rows []) v.now }
{
    message_of(select_answer(v))
}

// The file reference message of a head code, and whether the numbers fit it.
pub fn answer(v: &[u64], code: u64) -> Answer
    ensures { result ≡ answer (find code reference_rows []) v.now }
{
    match code {
        0x0B01 => open(v),
        0x0B02 => select_answer(v),
        0x0B03 => open_select_answer(v),
        0x0B04 => close(v),
        _ => Err(UniversalNonRealTimeMsg::EOF),
    }
}

// The file reference message of a head code.
pub fn message(v: &[u64], code: u64) -> UniversalNonRealTimeMsg
    ensures { result ≡ first_message (find code reference_rows []) v.now }
{
    message_of(answer(v, code))
}
