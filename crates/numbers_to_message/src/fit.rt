// The types of numbers, and whether a number fits one.
ghost use Rattle.std.specs.Prelude.{◌≡◌};
ghost use Rattle.numbers_to_message.specs.Values.{signed};
ghost use Rattle.numbers_to_message.specs.Fits.{fit, fits, is_some};

use crate::number::{
    bank_of, device_of, extended_loop_type_of, flag_of, i8_of, i16_of, loop_of, loop_type_of,
    reference_type_of, u8_of, u16_of, u32_of,
};
use messages::sample_dump::LoopNumber;

// What a number of a message says; Zero to Three are the number itself.
#[derive(Clone, Copy)]
pub enum NumberType {
    U8,
    U16,
    U32,
    U64,
    I8,
    I16,
    Flag,
    Device,
    RequestedLoop,
    TransmittedLoop,
    LoopType,
    ExtendedLoopType,
    FileType,
    ReferenceType,
    BankOrNone,
    Zero,
    One,
    Two,
    Three,
}

// Whether a number is from -2^15 to below 2^15, in two's complement of 64 bits.
pub fn is_i16(x: u64) -> bool
    ensures { result ≡ is_some (signed 32768 x) }
{
    i16_of(x).is_some()
}

// Whether a number is 0, 1 or another one.
pub fn is_loop_type(x: u64) -> bool
    ensures { result ≡ fit NumberType.LoopType x }
{
    loop_type_of(x).is_some()
}

// Whether a number fits a type.
pub fn fits_type(t: NumberType, x: u64) -> bool
    ensures { result ≡ fit t x }
{
    match t {
        NumberType::U8 => u8_of(x).is_some(),
        NumberType::U16 => u16_of(x).is_some(),
        NumberType::U32 => u32_of(x).is_some(),
        NumberType::U64 => true,
        NumberType::I8 => i8_of(x).is_some(),
        NumberType::I16 => i16_of(x).is_some(),
        NumberType::Flag => flag_of(x).is_some(),
        NumberType::Device => device_of(x).is_some(),
        NumberType::RequestedLoop => loop_of(x, LoopNumber::RequestAll).is_some(),
        NumberType::TransmittedLoop => loop_of(x, LoopNumber::DeleteAll).is_some(),
        NumberType::LoopType => loop_type_of(x).is_some(),
        NumberType::ExtendedLoopType => extended_loop_type_of(x).is_some(),
        // Kept as the number alone: its letters, which any number of 32 bits has, would be spelled for the test and again for the message.
        NumberType::FileType => u32_of(x).is_some(),
        NumberType::ReferenceType => reference_type_of(x).is_some(),
        NumberType::BankOrNone => bank_of(x).is_some(),
        NumberType::Zero => x == 0,
        NumberType::One => x == 1,
        NumberType::Two => x == 2,
        NumberType::Three => x == 3,
    }
}

// Whether the numbers from the third on are one for each type, and fit.
// Inlined, so that a row's types are known: called, it took 11 of the 65 ns of an extended header (docs/SPEED.md).
#[inline(always)]
pub fn fits_row(v: &[u64], types: &[NumberType]) -> bool
    ensures { result ≡ fits types.now v.now 2 }
{
    // Kept as a loop over places: a zip would not tell that there are fewer numbers than types.
    for (i, t) in types.iter().enumerate() {
        if v.len() <= i + 2 {
            return false;
        }
        if !fits_type(*t, v[i + 2]) {
            return false;
        }
    }
    v.len() <= types.len() + 2
}
