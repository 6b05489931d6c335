// The values of numbers by place. A number that does not fit has a value all the same; it is tested before.
// Kept as v and i side by side, a slice and a place in it: a struct of both would be made for each number.
ghost use Rattle.std.specs.Prelude.{◌≡◌, get_or};
ghost use Rattle.numbers_to_message.specs.Values.{loop_value, or_else};
ghost use Rattle.numbers_to_message.specs.Fits.{taken};
ghost use Rattle.numbers_to_message.specs.declared.fit.NumberType.TheVariants as type;
ghost use Rattle.messages.specs.declared.sample_dump.LoopNumber.TheVariants.{Loop};

use crate::number::{
    bank_of, device_of, extended_loop_type_of, file_type_of, flag_of, i8_of, i16_of, loop_of,
    loop_type_of, reference_type_of, u8_of, u16_of, u32_of,
};
use messages::file_dump::FileType;
use messages::file_reference::FileReferenceType;
use messages::sample_dump::{ExtendedLoopType, LoopNumber, LoopType};
use messages::system_exclusive::DeviceID;

// The number at a place, or 0. Kept beside util's `at` of bytes: its body is one line of std.
pub fn number_at(v: &[u64], i: usize) -> u64
    ensures { result ≡ get_or v.now i 0 }
{
    v.get(i).copied().unwrap_or(0)
}

// The number below 2^8 at a place, or 0.
pub fn u8_at(v: &[u64], i: usize) -> u8
    ensures { result ≡ taken type.U8 (get_or v.now i 0) }
{
    u8_of(number_at(v, i)).unwrap_or(0)
}

// The number below 2^16 at a place, or 0.
pub fn u16_at(v: &[u64], i: usize) -> u16
    ensures { result ≡ taken type.U16 (get_or v.now i 0) }
{
    u16_of(number_at(v, i)).unwrap_or(0)
}

// The number below 2^32 at a place, or 0.
pub fn u32_at(v: &[u64], i: usize) -> u32
    ensures { result ≡ taken type.U32 (get_or v.now i 0) }
{
    u32_of(number_at(v, i)).unwrap_or(0)
}

// The number at a place from -2^7 to below 2^7, in two's complement of 64 bits, or 0.
pub fn i8_at(v: &[u64], i: usize) -> i8
    ensures { result ≡ taken type.I8 (get_or v.now i 0) }
{
    i8_of(number_at(v, i)).unwrap_or(0)
}

// The number at a place from -2^15 to below 2^15, in two's complement of 64 bits, or 0.
pub fn i16_at(v: &[u64], i: usize) -> i16
    ensures { result ≡ taken type.I16 (get_or v.now i 0) }
{
    i16_of(number_at(v, i)).unwrap_or(0)
}

// The device at a place: 256 is all call.
pub fn device_at(v: &[u64], i: usize) -> DeviceID
    ensures { result ≡ taken type.Device (get_or v.now i 0) }
{
    device_of(number_at(v, i)).unwrap_or(DeviceID::Device(0))
}

// The loop at a place: 65,536 is all.
pub fn loop_at(v: &[u64], i: usize, all: LoopNumber) -> LoopNumber
    ensures { result ≡ or_else (loop_value all (get_or v.now i 0)) (Loop 0) }
{
    loop_of(number_at(v, i), all).unwrap_or(LoopNumber::Loop(0))
}

// The bank at a place: 256 is none.
pub fn bank_at(v: &[u64], i: usize) -> Option<u8>
    ensures { result ≡ taken type.BankOrNone (get_or v.now i 0) }
{
    bank_of(number_at(v, i)).unwrap_or(Some(0))
}

// The loop type at a place.
pub fn loop_type_at(v: &[u64], i: usize) -> LoopType
    ensures { result ≡ taken type.LoopType (get_or v.now i 0) }
{
    loop_type_of(number_at(v, i)).unwrap_or(LoopType::Off)
}

// The extended loop type at a place.
pub fn extended_loop_type_at(v: &[u64], i: usize) -> ExtendedLoopType
    ensures { result ≡ taken type.ExtendedLoopType (get_or v.now i 0) }
{
    extended_loop_type_of(number_at(v, i)).unwrap_or(ExtendedLoopType::OneShot)
}

// The file type at a place.
pub fn file_type_at(v: &[u64], i: usize) -> FileType
    ensures { result ≡ taken type.FileType (get_or v.now i 0) }
{
    file_type_of(number_at(v, i)).unwrap_or(FileType::MIDI)
}

// The file type of a file reference at a place.
pub fn reference_type_at(v: &[u64], i: usize) -> FileReferenceType
    ensures { result ≡ taken type.ReferenceType (get_or v.now i 0) }
{
    reference_type_of(number_at(v, i)).unwrap_or(FileReferenceType::WAV)
}

// The flag at a place: 1 is set.
pub fn flag_at(v: &[u64], i: usize) -> bool
    ensures { result ≡ taken type.Flag (get_or v.now i 0) }
{
    flag_of(number_at(v, i)).unwrap_or(false)
}
