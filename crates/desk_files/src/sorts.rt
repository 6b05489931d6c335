// Other sorts of files that are taken for captures, told by how they begin.
ghost use Rattle.std.specs.Prelude.{◌≡◌};
ghost use Rattle.desk_files.specs.Sorts.{is_text_byte, is_text, sort_of_text, sort_of};

use desk_io::names::complain;
use desk_print::output::Output;
use desk_text::lines::behind_mark;

// A sort of file.
#[derive(Clone, Copy, Debug, PartialEq, Eq)]
pub enum Sort {
    Capture,
    MidiFile,
    SoundFile,
    Scala,
    Text,
}

// Whether a byte is one of text: printable, or a tab, a line end, a form feed, a carriage return.
// Kept as comparisons: by `matches!` each byte of a text took twice the time (docs/LOOK-BACK.md).
#[tactic(auto, unfolding(crate::specs::Sorts::is_text_byte))]
fn is_text_byte(b: u8) -> bool
    ensures { result ≡ is_text_byte b }
{
    b == 9 || b == 10 || b == 12 || b == 13 || (32 <= b && b < 127)
}

// Whether all bytes are bytes of text.
fn is_text(s: &[u8]) -> bool
    ensures { result ≡ is_text s.now }
{
    s.iter().all(|b| is_text_byte(*b))
}

// The sort of text.
#[tactic(auto, unfolding(crate::specs::Sorts::sort_of_text))]
fn sort_of_text(s: &[u8]) -> Sort
    ensures { result ≡ sort_of_text s.now }
{
    match s {
        [first, ..] if is_text(s) => if *first == b'!' {
            Sort::Scala
        } else {
            Sort::Text
        },
        _ => Sort::Capture,
    }
}

// The sort of a file, told by its first piece.
#[tactic(auto, unfolding(crate::specs::Sorts::sort_of, crate::specs::Sorts::begins, desk_text::specs::Spans::is_three))]
pub fn sort_of(s: &[u8]) -> Sort
    ensures { result ≡ sort_of s.now }
{
    if s.starts_with(b"MThd") {
        return Sort::MidiFile;
    }
    if s.starts_with(b"RIFF") {
        return Sort::SoundFile;
    }
    sort_of_text(behind_mark(s))
}

// What a file of a sort is, in words; nothing of a capture.
fn words(sort: Sort) -> Option<&'static [u8]> {
    match sort {
        Sort::Capture => None,
        Sort::MidiFile => Some(
            b"is a Standard MIDI File; the desk reads the bytes as they go over the cable",
        ),
        Sort::SoundFile => Some(b"is a sound file (RIFF), not a capture"),
        Sort::Scala => Some(b"is a Scala file, not a capture"),
        Sort::Text => Some(b"is text, not a capture; the bytes themselves are wanted"),
    }
}

// Says that a file without a frame is of another sort.
pub fn hint(out: &mut Output, path: &[u8], sort: Sort) {
    if let Some(why) = words(sort) {
        complain(out, path, why);
    }
}
