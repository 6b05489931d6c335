// The lists of a message, a line for each entry: keys, note changes, maps, the twelve notes of a scale, file data.
// Kept as two parameters, an output and a style, as in the whole crate: texts take the output alone.
ghost use Rattle.std.specs.Prelude.{◌≤◌};

use desk_print::cents::Signed;
use desk_print::fields::Style;
use desk_print::output::Output;
use desk_print::{cents, hex_all, names, number, say};
use messages::file_reference::SoundFileMap;
use messages::tuning::{KeyTuning, Tuning, tuning_of};
use util::limits::KEYS;
use util::signed;

// How far a tuning is from the key in equal temperament, in 16,384ths of a semitone.
fn from_key(key: u8, t: Tuning) -> Signed
    ensures { result.amount ≤ 8388608 }
{
    cents::difference(
        u64::from(key) * 16384,
        u64::from(t.semitone) * 16384 + t.fraction as u64,
    )
}

// Puts a tuning: its semitone, the cents above it, the difference from equal temperament.
fn put_tuning(out: &mut Output, key: u8, t: Tuning) {
    say(out, b" semitone ");
    number(out, u64::from(t.semitone));
    say(out, b" ");
    cents::decimals(
        out,
        Signed {
            is_below: false,
            amount: cents::ten_thousandths(t.fraction as u64, 16384),
        },
    );
    say(out, b" cents, ");
    cents::decimals(out, cents::in_cents(from_key(key, t), 16384));
    say(out, b" from equal temperament\n");
}

// A line for a key: its number, its name, its tuning.
fn key_line(out: &mut Output, key: u8, tuning: Option<Tuning>) {
    number(out, u64::from(key));
    say(out, b" ");
    names::key(out, key);
    match tuning {
        None => say(out, b" -\n"),
        Some(t) => put_tuning(out, key, t),
    }
}

// The lines of a key dump.
pub fn keys(out: &mut Output, entries: &[u64]) {
    for (key, entry) in (0..KEYS as u8).zip(entries) {
        key_line(out, key, tuning_of(*entry));
    }
}

// A line for each entry of a list.
fn each<F: Fn(&mut Output, u64)>(out: &mut Output, entries: &[u64], line: F)
    requires { F.IsAlwaysCallable line }
{
    for entry in entries {
        line(out, *entry);
    }
}

// The line of a note change.
fn change_line(out: &mut Output, entry: u64) {
    let c = KeyTuning::from_entry(entry);
    key_line(out, c.key, c.tuning);
}

// The lines of a note change.
pub fn changes(out: &mut Output, entries: &[u64]) {
    each(out, entries, change_line);
}

// Puts a bank and a program, and whether they are of drums.
fn put_program(out: &mut Output, bank: u16, program: u8, is_drum: bool) {
    say(out, b"bank ");
    number(out, bank as u64);
    say(out, b" program ");
    number(out, program as u64);
    if is_drum {
        say(out, b" drums");
    }
}

// The line of a map of a sound file.
fn map_line(out: &mut Output, entry: u64) {
    let m = SoundFileMap::from_entry(entry);
    say(out, b"map: ");
    put_program(out, m.src_bank, m.src_prog, m.src_drum);
    say(out, b" to ");
    put_program(out, m.dst_bank, m.dst_prog, m.dst_drum);
    say(out, b", volume ");
    number(out, m.volume as u64);
    say(out, b"\n");
}

// The lines of the maps of a sound file.
pub fn maps(out: &mut Output, entries: &[u64]) {
    each(out, entries, map_line);
}

// The bytes of a file packet in a line.
pub fn data(out: &mut Output, s: &[u8]) {
    say(out, b"data:");
    hex_all(out, s);
    say(out, b"\n");
}

// A signed value of one group.
// Kept as a pair: midi-msg has the two types, and each is one line.
fn signed_1(v: i8) -> Signed
    ensures { result.amount ≤ 255 }
{
    cents::difference(64, signed::i_to_u7(v) as u64)
}

// A signed value of two groups.
fn signed_2(v: i16) -> Signed
    ensures { result.amount ≤ 65535 }
{
    cents::difference(8192, signed::i_to_u14(v) as u64)
}

// A value of a scale or of a fine tuning, put in cents.
trait InCents: Copy {
    fn put_cents(self, out: &mut Output);
}

impl InCents for i8 {
    // A value of one group, in cents.
    fn put_cents(self, out: &mut Output) {
        cents::whole(out, signed_1(self));
    }
}

impl InCents for i16 {
    // A value of two groups, in 8,192nds of a semitone.
    fn put_cents(self, out: &mut Output) {
        cents::decimals(out, cents::in_cents(signed_2(self), 8192));
    }
}

// The fine tuning of a WAV map, where every field has a line.
pub fn fine(out: &mut Output, style: Style, v: i16) {
    if let Style::Lines = style {
        say(out, b"fine tuning: ");
        v.put_cents(out);
        say(out, b" cents\n");
    }
}

// A line for a note of a scale.
fn note<V: InCents>(out: &mut Output, note: u8, v: V) {
    names::note(out, note);
    say(out, b": ");
    v.put_cents(out);
    say(out, b" cents\n");
}

// A line for each note of a scale.
fn notes<V: InCents>(out: &mut Output, values: &[V]) {
    for (n, v) in (0..12).zip(values) {
        note(out, n, *v);
    }
}

// A line for each note of a scale, C first, where every field has a line.
fn scale<V: InCents>(out: &mut Output, style: Style, values: &[V]) {
    if let Style::Lines = style {
        notes(out, values);
    }
}

// Kept as a pair: a scale of one byte a note or of two, as midi-msg has a type for each; each is one call.

// A line for each note of a scale of one byte a note.
pub fn scale_1(out: &mut Output, style: Style, values: [i8; 12]) {
    scale(out, style, &values);
}

// A line for each note of a scale of two bytes a note.
pub fn scale_2(out: &mut Output, style: Style, values: [i16; 12]) {
    scale(out, style, &values);
}
