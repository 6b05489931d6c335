// The maps of a select. A map is ten numbers, of which a form does not use some.
// Kept as one function for each form: forms differ in the map that they make.
// Kept as v and i side by side, a slice and a place in it, as in `values`.
ghost use Rattle.std.specs.Prelude.{◌≡◌, ◌≤◌};
ghost use Rattle.numbers_to_message.specs.Places.{offset_map_at, plain_map_at, both_map_at};

use crate::file_reference::wav_map;
use crate::values::{flag_at, u16_at};
use messages::file_reference::SelectMap;

// The types of the numbers before a map, then those of a map of a form.
// A macro, so that a row's types are a constant: with an array put together in each row a WAV select took 104 ns and not 61.
macro_rules! map_types {
    (list: $($before:ident),+) => {
        &[
            $(NumberType::$before,)+
            NumberType::Zero,
            NumberType::Zero,
            NumberType::Zero,
            NumberType::Zero,
            NumberType::Zero,
            NumberType::Zero,
            NumberType::Zero,
            NumberType::Zero,
            NumberType::Zero,
            NumberType::Zero,
        ]
    };
    (offset: $($before:ident),+) => {
        &[
            $(NumberType::$before,)+
            NumberType::One,
            NumberType::U16,
            NumberType::Flag,
            NumberType::Zero,
            NumberType::Zero,
            NumberType::Zero,
            NumberType::Zero,
            NumberType::Zero,
            NumberType::Zero,
            NumberType::Zero,
        ]
    };
    (wav: $($before:ident),+) => {
        &[
            $(NumberType::$before,)+
            NumberType::Two,
            NumberType::Zero,
            NumberType::Zero,
            NumberType::U16,
            NumberType::U8,
            NumberType::U8,
            NumberType::U8,
            NumberType::U8,
            NumberType::I16,
            NumberType::U8,
        ]
    };
    (both: $($before:ident),+) => {
        &[
            $(NumberType::$before,)+
            NumberType::Three,
            NumberType::U16,
            NumberType::Flag,
            NumberType::U16,
            NumberType::U8,
            NumberType::U8,
            NumberType::U8,
            NumberType::U8,
            NumberType::I16,
            NumberType::U8,
        ]
    };
}

pub(crate) use map_types;

// The bank offset of a map from a place on.
pub fn offset_map(v: &[u64], i: usize) -> SelectMap
    requires { i ≤ 4 }
    ensures { result ≡ offset_map_at v.now i }
{
    SelectMap::SoundFileBankOffset {
        bank_offset: u16_at(v, i + 1),
        src_drum: flag_at(v, i + 2),
    }
}

// The WAV map of a map from a place on.
pub fn plain_map(v: &[u64], i: usize) -> SelectMap
    requires { i ≤ 4 }
    ensures { result ≡ plain_map_at v.now i }
{
    SelectMap::WAV(wav_map(v, i + 3))
}

// The WAV map with a bank offset of a map from a place on.
pub fn both_map(v: &[u64], i: usize) -> SelectMap
    requires { i ≤ 4 }
    ensures { result ≡ both_map_at v.now i }
{
    SelectMap::WAVBankOffset {
        map: wav_map(v, i + 3),
        bank_offset: u16_at(v, i + 1),
        src_drum: flag_at(v, i + 2),
    }
}
