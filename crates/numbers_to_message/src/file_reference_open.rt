// Opens of a file reference with a select.
// Kept as one function for each row: rows differ in the message that they make and in the types of its numbers.
ghost use Rattle.std.specs.Prelude.{◌≡◌, [], get_or};
ghost use Rattle.numbers_to_message.specs.Rows.{open_select_list, open_select_offset, open_select_wav, open_select_both, opened};
ghost use Rattle.numbers_to_message.specs.declared.fit.NumberType.TheVariants as type;
ghost use Rattle.numbers_to_message.specs.Table.{find, one, reference_rows};
ghost use Rattle.numbers_to_message.specs.Fits.{answer, first_message, fitting, taken};

use crate::fit::NumberType;
use crate::maps::{both_map, map_types, offset_map, plain_map};
use crate::rows::{Answer, message_of, row};
use crate::values::{reference_type_at, u16_at};
use messages::file_reference::{FileReferenceMsg, SelectMap};
use messages::system_exclusive::UniversalNonRealTimeMsg;

// An open with a select of a map, and whether the numbers fit it.
// Inlined as `row` is, so that the types are known; called by a function for each row: without, a WAV select took 66 ns and not 61.
#[inline(always)]
fn open_row(v: &[u64], types: &[NumberType], map: SelectMap) -> Answer
    ensures { result ≡ fitting types.now v.now (opened (taken type.U16 (get_or v.now 2 0)) (taken type.ReferenceType (get_or v.now 3 0)) map) }
{
    row(
        v,
        types,
        UniversalNonRealTimeMsg::FileReference(FileReferenceMsg::OpenSelectContents {
            ctx: u16_at(v, 2),
            file_type: reference_type_at(v, 3),
            map,
        }),
    )
}

// An open with a select of a list of bank maps, and whether the numbers fit it.
fn open_list(v: &[u64]) -> Answer
    ensures { result ≡ answer (one open_select_list) v.now }
{
    open_row(
        v,
        map_types!(list: U16, ReferenceType),
        SelectMap::SoundFile,
    )
}

// An open with a select of a bank offset, and whether the numbers fit it.
fn open_offset(v: &[u64]) -> Answer
    ensures { result ≡ answer (one open_select_offset) v.now }
{
    open_row(v, map_types!(offset: U16, ReferenceType), offset_map(v, 4))
}

// An open with a select of a WAV map, and whether the numbers fit it.
fn open_wav(v: &[u64]) -> Answer
    ensures { result ≡ answer (one open_select_wav) v.now }
{
    open_row(v, map_types!(wav: U16, ReferenceType), plain_map(v, 4))
}

// An open with a select of a WAV map with a bank offset, and whether the numbers fit it.
fn open_both(v: &[u64]) -> Answer
    ensures { result ≡ answer (one open_select_both) v.now }
{
    open_row(v, map_types!(both: U16, ReferenceType), both_map(v, 4))
}

// The message of an open with a select, by the form of its map, and whether the numbers fit it.
pub fn open_select_answer(v: &[u64]) -> Answer
    ensures { result ≡ answer (find 0x0B03 reference_rows []) v.now }
{
    open_list(v)
        .or(open_offset(v))
        .or(open_wav(v))
        .or(open_both(v))
}

// The message of an open with a select, by the form of its map.
pub fn open_select(v: &[u64]) -> UniversalNonRealTimeMsg
    ensures { result ≡ first_message (find 0x0B03 reference_rows []) v.now }
{
    message_of(open_select_answer(v))
}
