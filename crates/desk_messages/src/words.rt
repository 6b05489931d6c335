// What has its name in words.
use desk_print::fields::Style;
use desk_print::output::Output;
use desk_print::{fields, say};
use messages::file_reference::FileReferenceType;
use messages::general_midi::GeneralMidi;
use messages::sample_dump::{ExtendedLoopType, LoopType};

// The words of a value.
pub trait Words {
    fn words(self) -> &'static [u8];
}

// General MIDI, turned on or off.
// Kept as a table for each type: the types are midi-msg's. Display would be no plainer: it answers a Result, and what is put cannot fail.
impl Words for GeneralMidi {
    fn words(self) -> &'static [u8] {
        match self {
            GeneralMidi::GM1 => b"General MIDI 1 on",
            GeneralMidi::Off => b"General MIDI off",
            GeneralMidi::GM2 => b"General MIDI 2 on",
        }
    }
}

// The name of a type of sound file.
impl Words for FileReferenceType {
    fn words(self) -> &'static [u8] {
        match self {
            FileReferenceType::DLS => b"DLS",
            FileReferenceType::SF2 => b"SF2",
            FileReferenceType::WAV => b"WAV",
        }
    }
}

// The words of a loop type.
impl Words for LoopType {
    fn words(self) -> &'static [u8] {
        match self {
            LoopType::Forward => b"forward",
            LoopType::BiDirectional => b"forward and backward",
            LoopType::Off => b"off",
        }
    }
}

// The words of an extended loop type.
impl Words for ExtendedLoopType {
    fn words(self) -> &'static [u8] {
        match self {
            ExtendedLoopType::Forward => b"forward",
            ExtendedLoopType::BiDirectional => b"forward and backward",
            ExtendedLoopType::ForwardRelease => b"forward, with release",
            ExtendedLoopType::BiDirectionalRelease => b"forward and backward, with release",
            ExtendedLoopType::Backward => b"backward",
            ExtendedLoopType::BackwardBiDirectional => b"backward and forward",
            ExtendedLoopType::BackwardRelease => b"backward, with release",
            ExtendedLoopType::BackwardBiDirectionalRelease => {
                b"backward and forward, with release"
            }
            ExtendedLoopType::BackwardOneShot => b"backward once",
            ExtendedLoopType::OneShot => b"forward once",
        }
    }
}

// A field whose value is words.
pub fn field(out: &mut Output, style: Style, label: &[u8], value: &[u8]) {
    fields::begin(out, style, label);
    say(out, value);
    fields::end(out, style);
}
