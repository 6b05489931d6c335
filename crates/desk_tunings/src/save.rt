// A key dump or a scale dump from the lines of an open file, as a new file.
// Kept as parameters side by side, an output beside a name or a number: texts take the output alone, which a struct of both would have to lend on.
ghost use Rattle.std.specs.Prelude.{◌≤◌, IfSome, length};

use super::errors::{complain_lines, complain_values, is_name, seven};
use super::{keys, scale};
use desk_io::pieces::Source;
use desk_io::{output, pieces};
use desk_print::output::{Output, complain};
use desk_print::{number, say, units};
use messages::system_exclusive::{DeviceID, UniversalNonRealTimeMsg};
use messages::tuning::{KeyBasedTuningDump, ScaleTuningDump1Byte, ScaleTuningDump2Byte};
use util::limits::KEYS;

// Reads all lines; how many bytes there are, or nothing and a line that says why not.
fn read_input(out: &mut Output, input: &mut Source, room: &mut [u8]) -> Option<usize>
    ensures { IfSome result (λ n. n ≤ length room.old) }
{
    match pieces::read_all(input, room) {
        Ok(n) if n < room.len() => Some(n),
        Ok(_) => {
            complain(out, b"standard input", b"is too long for a tuning");
            None
        }
        Err(_) => {
            complain(out, b"standard input", b"cannot be read");
            None
        }
    }
}

// Puts how many keys were set, and how many were not.
fn put_keys(out: &mut Output, n: u64) {
    let set = n.min(KEYS as u64);
    units(out, set, b"key");
    say(out, b" set, ");
    number(out, KEYS as u64 - set);
    say(out, b" in equal temperament\n");
}

// Writes the frame of a message as a new file, and says what was set.
fn save_message<F: FnOnce(&mut Output)>(
    out: &mut Output,
    path: &[u8],
    m: UniversalNonRealTimeMsg,
    name: &[u8],
    entries: &[u64],
    put_set: F,
)
    requires { F.IsAlwaysCallable put_set }
{
    let mut frame = io::buffer();
    match writer::write(DeviceID::AllCall, m, name, entries, &mut frame, 0) {
        Ok(n) => {
            if output::save(out, path, util::bytes::sub_slice(&frame, 0, n)) {
                say(out, b", ");
                put_set(out);
            }
        }
        Err(_) => complain(out, path, b"the message cannot be written"),
    }
}

// Writes the key dump of lines as a new file.
fn save_keys(out: &mut Output, path: &[u8], program: u8, name: &[u8], s: &[u8]) {
    let mut entries = [0u64; KEYS];
    match keys::read(s, &mut entries) {
        Ok(set) => {
            let dump = KeyBasedTuningDump {
                tuning_bank_num: None,
                tuning_program_num: program,
            };
            let m = UniversalNonRealTimeMsg::KeyBasedTuningDump(dump);
            save_message(out, path, m, name, &entries, |out| put_keys(out, set));
        }
        Err(e) => complain_lines(out, e),
    }
}

// Makes a key dump of the lines of an open file.
pub fn tune(out: &mut Output, path: &[u8], program: &[u8], name: &[u8], input: &mut Source) {
    let Some(p) = seven(out, program) else {
        return;
    };
    if !is_name(out, name) {
        return;
    }
    let mut room = io::large_buffer();
    if let Some(n) = read_input(out, input, &mut room) {
        save_keys(out, path, p, name, &room[..n]);
    }
}

// The scale dump of twelve values: of one byte a note where all are whole cents from -64 to 63, else of two.
// Kept as a bank and a program: they are two fields of a message.
fn scale_of(values: &[u64; 12], bank: u8, program: u8) -> UniversalNonRealTimeMsg {
    if scale::are_whole(values) {
        return UniversalNonRealTimeMsg::ScaleTuningDump1Byte(ScaleTuningDump1Byte {
            tuning_bank_num: bank,
            tuning_program_num: program,
            tuning: scale::in_cents(values),
        });
    }
    UniversalNonRealTimeMsg::ScaleTuningDump2Byte(ScaleTuningDump2Byte {
        tuning_bank_num: bank,
        tuning_program_num: program,
        tuning: scale::in_parts(values),
    })
}

// Writes the scale dump of words as a new file.
fn save_scale(out: &mut Output, path: &[u8], bank: u8, program: u8, name: &[u8], s: &[u8]) {
    let mut values = [scale::ZERO; 12];
    match scale::read(s, &mut values) {
        Ok(()) => {
            let m = scale_of(&values, bank, program);
            save_message(out, path, m, name, &[], |out| say(out, b"12 notes set\n"));
        }
        Err(e) => complain_values(out, e),
    }
}

// Makes a scale dump of the twelve values of an open file.
pub fn make_scale(
    out: &mut Output,
    path: &[u8],
    bank: &[u8],
    program: &[u8],
    name: &[u8],
    input: &mut Source,
) {
    let Some(b) = seven(out, bank) else {
        return;
    };
    let Some(p) = seven(out, program) else {
        return;
    };
    if !is_name(out, name) {
        return;
    }
    let mut room = io::large_buffer();
    if let Some(n) = read_input(out, input, &mut room) {
        save_scale(out, path, b, p, name, &room[..n]);
    }
}
