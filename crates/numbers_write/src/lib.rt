// A message of numbers written as a frame. NAK, ACK, sample dump headers, packets and scale tuning dumps of two bytes are written from their numbers,
// with no message made of them.
// Kept as parameters side by side, numbers, text, entries, an output and a place in it: C lends them so.
#![tactic(auto)]

mod fits;
mod sample_dump;
mod tuning;

ghost use Rattle.std.specs.Prelude.{◌≡◌, get_or};
ghost use Rattle.numbers_to_message.specs.declared.fit.NumberType.TheVariants as type;
ghost use Rattle.numbers_to_message.specs.Fits.{taken};
ghost use Rattle.writer.specs.Handshakes.{handshake_of};
ghost use Rattle.numbers_write.specs.declared.WriteError.TheVariants as error;
ghost use Rattle.numbers_write.specs.Whole.{message_in, OneByte};
ghost use Rattle.numbers_write.specs.Write.{error_number, write_answer, write_output};

use numbers_to_message::values::{device_at, loop_type_at, number_at, u8_at, u16_at, u32_at};
use util::refusal::Refusal;
use writer::handshake;

// Why numbers are not written: they are no message, or the message is refused.
#[derive(Clone, Copy, Debug, PartialEq, Eq)]
pub enum WriteError {
    NoMessage,
    Refused(Refusal),
}

impl WriteError {
    // The number of an error. Kept as a number: C gets it.
    pub fn number(self) -> u32
        ensures { result ≡ error_number self }
    {
        match self {
            WriteError::NoMessage => 64,
            WriteError::Refused(r) => r.number() as u32,
        }
    }
}

impl From<Refusal> for WriteError {
    ghost from_gives = { λ r e. e ≡ error.Refused r };

    // A refusal as an error.
    fn from(r: Refusal) -> WriteError {
        WriteError::Refused(r)
    }
}

// Writes a sample dump header.
fn write_header(
    numbers: &[u64],
    text: &[u8],
    entries: &[u64],
    out: &mut [u8],
    place: usize,
) -> Result<usize, WriteError>
    requires { get_or numbers.now 0 0 ≡ 0x0100 }
    ensures answer { result ≡ write_answer numbers.now text.now entries.now out.old place }
    ensures output { out.new ≡ write_output numbers.now text.now entries.now out.old place }
{
    if !fits::is_header(numbers) {
        return Err(WriteError::NoMessage);
    }
    Ok(sample_dump::write_header(
        device_at(numbers, 1),
        u16_at(numbers, 2),
        u8_at(numbers, 3),
        u32_at(numbers, 4),
        u32_at(numbers, 5),
        u32_at(numbers, 6),
        u32_at(numbers, 7),
        loop_type_at(numbers, 8),
        out,
        place,
    )?)
}

// Writes a sample dump packet.
// Kept beside the handshakes: a packet has a text, and another head.
fn write_packet(
    numbers: &[u64],
    text: &[u8],
    entries: &[u64],
    out: &mut [u8],
    place: usize,
) -> Result<usize, WriteError>
    requires { get_or numbers.now 0 0 ≡ 0x0200 }
    ensures answer { result ≡ write_answer numbers.now text.now entries.now out.old place }
    ensures output { out.new ≡ write_output numbers.now text.now entries.now out.old place }
{
    if !fits::is_one_byte(numbers) {
        return Err(WriteError::NoMessage);
    }
    Ok(sample_dump::write_packet(device_at(numbers, 1), u8_at(numbers, 2), text, out, place)?)
}

// Writes a handshake message of head a with the number of a packet.
fn write_handshake(
    numbers: &[u64],
    a: u8,
    text: &[u8],
    entries: &[u64],
    out: &mut [u8],
    place: usize,
) -> Result<usize, WriteError>
    requires { OneByte numbers.now × (handshake_of (message_in numbers.now) ≡ Some (a, taken type.U8 (get_or numbers.now 2 0))) }
    ensures answer { result ≡ write_answer numbers.now text.now entries.now out.old place }
    ensures output { out.new ≡ write_output numbers.now text.now entries.now out.old place }
{
    if !fits::is_one_byte(numbers) {
        return Err(WriteError::NoMessage);
    }
    Ok(handshake::write_handshake(device_at(numbers, 1), a, u8_at(numbers, 2), out, place)?)
}

// Writes a scale tuning dump of two bytes.
fn write_scale_dump_2(
    numbers: &[u64],
    text: &[u8],
    entries: &[u64],
    out: &mut [u8],
    place: usize,
) -> Result<usize, WriteError>
    requires { get_or numbers.now 0 0 ≡ 0x0806 }
    ensures answer { result ≡ write_answer numbers.now text.now entries.now out.old place }
    ensures output { out.new ≡ write_output numbers.now text.now entries.now out.old place }
{
    if !fits::is_scale_dump_2(numbers) {
        return Err(WriteError::NoMessage);
    }
    let s = numbers_to_message::tuning::scale_2(numbers, 4);
    Ok(tuning::write_scale_dump_2(
        device_at(numbers, 1),
        u8_at(numbers, 2),
        u8_at(numbers, 3),
        s,
        text,
        out,
        place,
    )?)
}

// Writes the message that is made of numbers.
fn write_made(
    numbers: &[u64],
    text: &[u8],
    entries: &[u64],
    out: &mut [u8],
    place: usize,
) -> Result<usize, WriteError>
    ensures answer { result ≡ write_answer numbers.now text.now entries.now out.old place }
    ensures output { out.new ≡ write_output numbers.now text.now entries.now out.old place }
{
    match numbers_to_message::from_numbers(numbers) {
        Some((device, m)) => Ok(writer::write(device, m, text, entries, out, place)?),
        None => Err(WriteError::NoMessage),
    }
}

// Writes the frame of a message at a place of the output, and answers its length.
pub fn write(
    numbers: &[u64],
    text: &[u8],
    entries: &[u64],
    out: &mut [u8],
    place: usize,
) -> Result<usize, WriteError>
    ensures answer { result ≡ write_answer numbers.now text.now entries.now out.old place }
    ensures output { out.new ≡ write_output numbers.now text.now entries.now out.old place }
{
    match number_at(numbers, 0) {
        0x0100 => write_header(numbers, text, entries, out, place),
        0x0200 => write_packet(numbers, text, entries, out, place),
        0x0806 => write_scale_dump_2(numbers, text, entries, out, place),
        0x7E00 => write_handshake(numbers, 0x7E, text, entries, out, place),
        0x7F00 => write_handshake(numbers, 0x7F, text, entries, out, place),
        _ => write_made(numbers, text, entries, out, place),
    }
}
