// Reading, its answer in numbers.
// Kept as slices side by side, a frame, data, entries and an answer: C lends them so, and each contract tells those that are written before and after.
#![tactic(auto)]

ghost use Rattle.std.specs.Prelude.{◌≡◌, [], ◌∷◌, ◌≤◌, ◌<◌, length, Ok};
ghost use Rattle.util.specs.Splice.{overwritten};
ghost use Rattle.messages.specs.declared.head.Head.TheVariants as head;
ghost use Rattle.reader.specs.Opening.{inner, opens_as, placed};
ghost use Rattle.messages.specs.declared.file_reference.Kind.{Kind};
ghost use Rattle.messages.specs.Fields.{device_of};
ghost use Rattle.messages.specs.Messages.{read_of};
ghost use Rattle.numbers_to_message.specs.Values.{device_number_of};
ghost use Rattle.numbers_read.specs.Read.{ReadTo, ReadFor, reading_numbers, read_number};
ghost use Rattle.numbers_read.specs.Plain.{ReadPlain, Numbered, six};

use messages::file_reference::Kind;
use messages::head::Head;
use messages::system_exclusive::{DeviceID, UniversalNonRealTimeMsg};
use numbers_of_message::sample_dump;
use numbers_of_message::values::device_number;
use read_places::fields::Fields;
use read_sample_dump::sample_dump::header;
use reader::lent::{Reading, text_start};
use reader::opening::Opening;
use util::groups::at;
use util::limits::LARGEST_U7;
use util::refusal::Refusal;

// Puts how many numbers a message has, and those of a reading beside them, at the start of the answer.
fn put_front(answer: &mut [u64], count: usize, reading: Reading)
    requires { 4 ≤ length answer.old }
    ensures { answer.new ≡ overwritten (count ∷ reading.from ∷ reading.len ∷ reading.places ∷ []) answer.old }
{
    answer[0] = count as u64;
    answer[1] = reading.from as u64;
    answer[2] = reading.len as u64;
    answer[3] = reading.places as u64;
}

// Puts the numbers of a reading at the start of the answer.
fn put_reading(answer: &mut [u64], reading: Reading)
    requires { 20 ≤ length answer.old }
    ensures { answer.new ≡ overwritten (reading_numbers (Ok reading)) answer.old }
{
    let count = numbers_of_message::to_numbers(reading.device, reading.m, &mut answer[4..]);
    put_front(answer, count, reading);
}

// Puts the numbers of a handshake, its head code, device and packet, at the start of the answer.
fn put_numbered(answer: &mut [u64], code: u64, device: u8, packet: u8)
    requires { 20 ≤ length answer.old }
    ensures { answer.new ≡ overwritten (3 ∷ 0 ∷ 0 ∷ 0 ∷ code ∷ device_number_of (device_of device) ∷ packet ∷ []) answer.old }
{
    let d = device_number(DeviceID::from(device));
    answer[0] = 3;
    answer[1] = 0;
    answer[2] = 0;
    answer[3] = 0;
    answer[4] = code;
    answer[5] = d;
    answer[6] = packet as u64;
}

// Kept as flags: whether the numbers were put is all that these say, the numbers lie in the lent answer, and an Option of nothing is no plainer.

// Reads the frame F0, 7E, device, head, packet, F7 where the head is NAK or ACK.
fn put_packet(answer: &mut [u64], device: u8, head: u8, packet: u8) -> bool
    requires { (20 ≤ length answer.old) × (device < 128) × (packet < 128) }
    ensures { (k : Kind) → ReadPlain result (read_of k (six device head packet)) (six device head packet) answer.old answer.new }
{
    if head == 0x7E {
        put_numbered(answer, 0x7E00, device, packet);
        return true;
    }
    if head == 0x7F {
        put_numbered(answer, 0x7F00, device, packet);
        return true;
    }
    false
}

// Reads a frame where it is a NAK or an ACK.
fn put_handshake(frame: &[u8], answer: &mut [u64]) -> bool
    requires { 20 ≤ length answer.old }
    ensures { (k : Kind) → ReadPlain result (read_of k frame.now) frame.now answer.old answer.new }
{
    if frame.len() != 6 {
        return false;
    }
    if frame[0] != 0xF0 {
        return false;
    }
    if frame[1] != 0x7E {
        return false;
    }
    if frame[5] != 0xF7 {
        return false;
    }
    let device = frame[2];
    let packet = frame[4];
    if LARGEST_U7 < device {
        return false;
    }
    if LARGEST_U7 < packet {
        return false;
    }
    put_packet(answer, device, frame[3], packet)
}

// Puts the numbers of a sample dump message at the start of the answer.
fn put_sample(answer: &mut [u64], reading: Reading) -> bool
    requires { 20 ≤ length answer.old }
    ensures { Numbered result (Ok reading) answer.old answer.new }
{
    match reading.m {
        UniversalNonRealTimeMsg::SampleDump(s) => {
            let d = device_number(reading.device);
            let count = sample_dump::put_message(&mut answer[4..], d, s);
            put_front(answer, count, reading);
            true
        }
        _ => false,
    }
}

// Reads the fields of a sample header, which take no lent places.
fn put_header(frame: &[u8], o: Opening, answer: &mut [u64]) -> bool
    requires { (20 ≤ length answer.old) × (o.h ≡ head.SampleDumpHeader) × placed (Ok o) (inner frame.now) }
    ensures { ReadPlain result (opens_as (Ok o) (inner frame.now)) frame.now answer.old answer.new }
{
    let start = 1 + o.start;
    let e = 1 + o.end;
    let bytes = &frame[start..e];
    let f = Fields { bytes };
    match header(&f) {
        Some(found) => {
            if found.count != 0 {
                return false;
            }
            if o.sum {
                let reading = Reading {
                    device: DeviceID::from(at(frame, 2)),
                    m: found.m,
                    from: text_start(frame, start, found.from),
                    len: found.len,
                    places: found.count,
                };
                put_sample(answer, reading)
            } else {
                false
            }
        }
        None => false,
    }
}

// Reads the fields under a head whose messages need no lent space.
fn put_plain(frame: &[u8], o: Opening, answer: &mut [u64]) -> bool
    requires { (20 ≤ length answer.old) × placed (Ok o) (inner frame.now) }
    ensures { ReadPlain result (opens_as (Ok o) (inner frame.now)) frame.now answer.old answer.new }
{
    match o.h {
        Head::SampleDumpHeader => put_header(frame, o, answer),
        _ => false,
    }
}

// Reads the fields under any head.
fn read_fields(
    frame: &[u8],
    o: Opening,
    data: &mut [u8],
    entries: &mut [u64],
    answer: &mut [u64],
) -> Result<(), Refusal>
    requires { (20 ≤ length answer.old) × placed (Ok o) (inner frame.now) }
    ensures { ReadTo (opens_as (Ok o) (inner frame.now)) (read_number result) frame.now «data».old «data».new entries.old entries.new answer.old answer.new }
{
    let reading = reader::lent::read_fields(frame, o, data, entries)?;
    put_reading(answer, reading);
    Ok(())
}

// Reads the fields that an opening has found.
fn read_opened(
    frame: &[u8],
    o: Opening,
    data: &mut [u8],
    entries: &mut [u64],
    answer: &mut [u64],
) -> Result<(), Refusal>
    requires { (20 ≤ length answer.old) × placed (Ok o) (inner frame.now) }
    ensures { ReadTo (opens_as (Ok o) (inner frame.now)) (read_number result) frame.now «data».old «data».new entries.old entries.new answer.old answer.new }
{
    if put_plain(frame, o, answer) {
        return Ok(());
    }
    read_fields(frame, o, data, entries, answer)
}

// Reads any frame for a kind of sound file.
fn read_any(
    frame: &[u8],
    kind: Kind,
    data: &mut [u8],
    entries: &mut [u64],
    answer: &mut [u64],
) -> Result<(), Refusal>
    requires { 20 ≤ length answer.old }
    ensures { ReadFor kind (read_number result) frame.now «data».old «data».new entries.old entries.new answer.old answer.new }
{
    let o = reader::opening_in(frame, kind)?;
    read_opened(frame, o, data, entries, answer)
}

// Reads a frame for a kind of sound file.
pub fn read_for(
    frame: &[u8],
    kind: Kind,
    data: &mut [u8],
    entries: &mut [u64],
    answer: &mut [u64],
) -> Result<(), Refusal>
    requires { 20 ≤ length answer.old }
    ensures { ReadFor kind (read_number result) frame.now «data».old «data».new entries.old entries.new answer.old answer.new }
{
    if put_handshake(frame, answer) {
        return Ok(());
    }
    read_any(frame, kind, data, entries, answer)
}
