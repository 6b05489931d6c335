// Tunings.
// Kept as two parameters, an output and the number of a device: a struct of both would be made for each message.
ghost use Rattle.std.specs.Prelude.{◌≡◌, [], ◌∷◌};
ghost use Rattle.numbers_to_message.specs.Values.{bank_number_of};
ghost use Rattle.numbers_of_message.specs.Put.{Put};
ghost use Rattle.numbers_of_message.specs.Numbers.{numbers, field_numbers, banked, scale_1, scale_2, coded};
ghost use Rattle.messages.specs.declared.system_exclusive.UniversalNonRealTimeMsg.TheVariants as msg;

use crate::put::{put, put_both};
use crate::values::{bank_number, signed_8, signed_16};
use messages::tuning::{
    ScaleTuning1Byte, ScaleTuning2Byte, ScaleTuningDump1Byte, ScaleTuningDump2Byte,
};

// Puts a program, and the bank before it where there is one.
pub fn put_banked(
    out: &mut [u64],
    d: u64,
    without: u64,
    with: u64,
    bank: Option<u8>,
    program: u8,
) -> usize
    ensures { Put (numbers d (banked without with bank program)) out.old out.new result }
{
    match bank {
        None => put(out, &[without, d, program as u64]),
        Some(b) => put(out, &[with, d, b as u64, program as u64]),
    }
}

// Puts a note change.
pub fn put_change(out: &mut [u64], d: u64, bank: Option<u8>, program: u8) -> usize
    ensures { Put (0x0807 ∷ d ∷ bank_number_of bank ∷ program ∷ []) out.old out.new result }
{
    put(out, &[0x0807, d, bank_number(bank), program as u64])
}

// Kept as pairs, of one byte and of two: they differ in the type of the message, which midi-msg has twice; a trait of both would have an item for each field.

// The twelve values of one byte.
fn scale_1(s: [i8; 12]) -> [u64; 12]
    ensures { result ≡ field_numbers (scale_1 s) }
{
    s.map(signed_8)
}

// The twelve values of two bytes.
fn scale_2(s: [i16; 12]) -> [u64; 12]
    ensures { result ≡ field_numbers (scale_2 s) }
{
    s.map(signed_16)
}

// Puts a scale dump of one byte.
pub fn put_dump_1(out: &mut [u64], d: u64, s: ScaleTuningDump1Byte) -> usize
    ensures { Put (numbers d (coded (msg.ScaleTuningDump1Byte s))) out.old out.new result }
{
    let head = [
        0x0805,
        d,
        s.tuning_bank_num as u64,
        s.tuning_program_num as u64,
    ];
    put_both(out, &head, &scale_1(s.tuning))
}

// Puts a scale dump of two bytes.
pub fn put_dump_2(out: &mut [u64], d: u64, s: ScaleTuningDump2Byte) -> usize
    ensures { Put (numbers d (coded (msg.ScaleTuningDump2Byte s))) out.old out.new result }
{
    let head = [
        0x0806,
        d,
        s.tuning_bank_num as u64,
        s.tuning_program_num as u64,
    ];
    put_both(out, &head, &scale_2(s.tuning))
}

// Puts a scale of one byte for channels.
pub fn put_tuning_1(out: &mut [u64], d: u64, s: ScaleTuning1Byte) -> usize
    ensures { Put (numbers d (coded (msg.ScaleTuning1Byte s))) out.old out.new result }
{
    put_both(
        out,
        &[0x0808, d, s.channels.channels as u64],
        &scale_1(s.tuning),
    )
}

// Puts a scale of two bytes for channels.
pub fn put_tuning_2(out: &mut [u64], d: u64, s: ScaleTuning2Byte) -> usize
    ensures { Put (numbers d (coded (msg.ScaleTuning2Byte s))) out.old out.new result }
{
    put_both(
        out,
        &[0x0809, d, s.channels.channels as u64],
        &scale_2(s.tuning),
    )
}
