// Tunings in words.
// Kept as two parameters, an output and a style, as in the whole crate: texts take the output alone.
use super::lists;
use desk_print::fields::Style;
use desk_print::output::Output;
use desk_print::{fields, number, say, units};
use messages::tuning::{
    ChannelBitMap, KeyBasedTuningDump, ScaleTuning1Byte, ScaleTuning2Byte, ScaleTuningDump1Byte,
    ScaleTuningDump2Byte, TuningNoteChange,
};

// The program of a tuning, behind its bank where there is one.
fn bank_program(out: &mut Output, style: Style, bank: Option<u8>, program: u8) {
    match bank {
        None => fields::first(out, style, b"program", program as u64),
        Some(n) => {
            fields::first(out, style, b"bank", n as u64);
            fields::named(out, style, b"program", program as u64);
        }
    }
}

// A request for a tuning in words.
pub fn request(out: &mut Output, style: Style, bank: Option<u8>, program: u8) {
    fields::title(out, style, b"tuning request");
    bank_program(out, style, bank, program);
}

// A key dump in words.
pub fn key_dump(out: &mut Output, style: Style, m: KeyBasedTuningDump, name: &[u8]) {
    fields::title(out, style, b"tuning");
    bank_program(out, style, m.tuning_bank_num, m.tuning_program_num);
    fields::name(out, style, b"name", name);
}

// The bank, the program and the name of a scale.
fn scale_head(out: &mut Output, style: Style, title: &[u8], bank: u8, program: u8, name: &[u8]) {
    fields::title(out, style, title);
    fields::first(out, style, b"bank", bank as u64);
    fields::named(out, style, b"program", program as u64);
    fields::name(out, style, b"name", name);
}

// Kept as pairs, a dump or a scale of one byte a note or of two: midi-msg has a type for each, and each is two or three calls.

// A scale dump of one byte a note in words.
pub fn scale_dump_1(out: &mut Output, style: Style, m: ScaleTuningDump1Byte, name: &[u8]) {
    let (bank, program) = (m.tuning_bank_num, m.tuning_program_num);
    scale_head(out, style, b"scale", bank, program, name);
    lists::scale_1(out, style, m.tuning);
}

// A scale dump of two bytes a note in words.
pub fn scale_dump_2(out: &mut Output, style: Style, m: ScaleTuningDump2Byte, name: &[u8]) {
    let (bank, program) = (m.tuning_bank_num, m.tuning_program_num);
    scale_head(out, style, b"fine scale", bank, program, name);
    lists::scale_2(out, style, m.tuning);
}

// A note change in words; it has so many entries.
pub fn note_change(out: &mut Output, style: Style, m: TuningNoteChange, places: usize) {
    fields::title(out, style, b"note change");
    bank_program(out, style, m.tuning_bank_num, m.tuning_program_num);
    fields::counted(out, style, b"keys", places as u64, b"key");
}

// Puts the numbers of the channels that a map names.
fn put_channels(out: &mut Output, channels: u16) {
    for c in 0..16 {
        if channels >> c & 1 == 1 {
            say(out, b" ");
            number(out, c + 1);
        }
    }
}

// The channels of a scale: all, or their numbers.
fn channel_map(out: &mut Output, style: Style, m: ChannelBitMap) {
    let channels = m.channels;
    if channels == 65535 {
        fields::begin_plain(out, style, b"channels");
        say(out, b"all channels");
    } else {
        fields::begin_plain(out, style, b"channels");
        units(out, m.how_many() as u64, b"channel");
        say(out, b":");
        put_channels(out, channels);
    }
    fields::end(out, style);
}

// A scale of one byte a note in words.
pub fn scale_1(out: &mut Output, style: Style, m: ScaleTuning1Byte) {
    fields::title(out, style, b"scale for channels");
    channel_map(out, style, m.channels);
    lists::scale_1(out, style, m.tuning);
}

// A scale of two bytes a note in words.
pub fn scale_2(out: &mut Output, style: Style, m: ScaleTuning2Byte) {
    fields::title(out, style, b"fine scale for channels");
    channel_map(out, style, m.channels);
    lists::scale_2(out, style, m.tuning);
}
