// The value that a number says, by its type: each answers None for a number that misfits.
ghost use Rattle.std.specs.Prelude.{◌≡◌, Some, eqb};
ghost use Rattle.util.specs.Pick.{pick};
ghost use Rattle.numbers_to_message.specs.Values.{value, loop_value};
ghost use Rattle.numbers_to_message.specs.Fits.{option_of};
ghost use Rattle.numbers_to_message.specs.declared.fit.NumberType.TheVariants as type;

use messages::file_dump::FileType;
use messages::file_reference::FileReferenceType;
use messages::sample_dump::{ExtendedLoopType, LoopNumber, LoopType};
use messages::system_exclusive::DeviceID;

// Kept as one for each width: they differ in the type of the value, and each is one line of std.

// A number below 2^8.
pub fn u8_of(x: u64) -> Option<u8>
    ensures { result ≡ option_of (value type.U8 x) }
{
    u8::try_from(x).ok()
}

// A number below 2^16.
pub fn u16_of(x: u64) -> Option<u16>
    ensures { result ≡ option_of (value type.U16 x) }
{
    u16::try_from(x).ok()
}

// A number below 2^32.
pub fn u32_of(x: u64) -> Option<u32>
    ensures { result ≡ option_of (value type.U32 x) }
{
    u32::try_from(x).ok()
}

// A number from -2^7 to below 2^7, in two's complement of 64 bits.
pub fn i8_of(x: u64) -> Option<i8>
    ensures { result ≡ option_of (value type.I8 x) }
{
    i8::try_from(x.cast_signed()).ok()
}

// A number from -2^15 to below 2^15, in two's complement of 64 bits.
pub fn i16_of(x: u64) -> Option<i16>
    ensures { result ≡ option_of (value type.I16 x) }
{
    i16::try_from(x.cast_signed()).ok()
}

// What the number n alone says, or else what others say.
fn apart<T: Copy>(x: u64, n: u64, own: T, other: Option<T>) -> Option<T>
    ensures { result ≡ pick (eqb x n) (Some own) other }
{
    if x == n { Some(own) } else { other }
}

// A device: 256 is all call.
pub fn device_of(x: u64) -> Option<DeviceID>
    ensures { result ≡ option_of (value type.Device x) }
{
    apart(x, 256, DeviceID::AllCall, u8_of(x).map(DeviceID::Device))
}

// A loop: 65,536 is all.
pub fn loop_of(x: u64, all: LoopNumber) -> Option<LoopNumber>
    ensures { result ≡ option_of (loop_value all x) }
{
    apart(x, 65536, all, u16_of(x).map(LoopNumber::Loop))
}

// A bank: 256 is none.
pub fn bank_of(x: u64) -> Option<Option<u8>>
    ensures { result ≡ option_of (value type.BankOrNone x) }
{
    apart(x, 256, None, u8_of(x).map(Some))
}

// A loop type.
// Kept as a pair with the next: the two enums are midi-msg's, and each is one line.
pub fn loop_type_of(x: u64) -> Option<LoopType>
    ensures { result ≡ option_of (value type.LoopType x) }
{
    LoopType::try_from(u8_of(x)?).ok()
}

// An extended loop type.
pub fn extended_loop_type_of(x: u64) -> Option<ExtendedLoopType>
    ensures { result ≡ option_of (value type.ExtendedLoopType x) }
{
    ExtendedLoopType::try_from(u8_of(x)?).ok()
}

// A file type: the number has its four bytes, the first highest.
pub fn file_type_of(x: u64) -> Option<FileType>
    ensures { result ≡ option_of (value type.FileType x) }
{
    Some(FileType::from(u32_of(x)?.to_be_bytes()))
}

// The file type of a file reference.
// Kept as a match: the library has no way from a number to a variant.
pub fn reference_type_of(x: u64) -> Option<FileReferenceType>
    ensures { result ≡ option_of (value type.ReferenceType x) }
{
    match x {
        0 => Some(FileReferenceType::DLS),
        1 => Some(FileReferenceType::SF2),
        2 => Some(FileReferenceType::WAV),
        _ => None,
    }
}

// A flag: 1 is set.
pub fn flag_of(x: u64) -> Option<bool>
    ensures { result ≡ option_of (value type.Flag x) }
{
    match x {
        0 => Some(false),
        1 => Some(true),
        _ => None,
    }
}
