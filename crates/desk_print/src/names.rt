// Names in quotes, and the names of notes.
// Kept as two parameters: an output and a name or a note. One output serves all that is put, so that a struct of both would be made for each.
ghost use Rattle.std.specs.Prelude.{◌≡◌, [], ◌∷◌};
ghost use Rattle.desk_print.specs.Output.{Put};
ghost use Rattle.desk_print.specs.Text.{each, name_char, trimmed, in_quotes, is_control_of, path_char, path_of, note_name, key_name};

use super::output::Output;
use super::{hex, number, put};

// Puts a byte of a name: a printable one as it stands, another as its hexadecimal digits.
fn put_char(out: &mut Output, b: u8)
    ensures { Put out.old (name_char 0 b) out.new }
{
    if b < b' ' || b'~' < b {
        put(out, b"\\x");
        return hex(out, b);
    }
    put(out, &[b]);
}

// Puts the bytes of a name.
fn put_chars(out: &mut Output, s: &[u8])
    ensures { Put out.old (each name_char 0 s.now) out.new }
{
    for b in s {
        put_char(out, *b);
    }
}

// A name without the spaces at its end.
#[tactic(auto, unfolding(crate::specs::Text::trimmed))]
fn without_spaces(s: &[u8]) -> &[u8]
    ensures { result.now ≡ trimmed s.now }
{
    match s.iter().rposition(|b| *b != b' ') {
        Some(last) => &s[..=last],
        None => &[],
    }
}

// Puts a name in quotes, without the spaces at its end.
pub fn quoted(out: &mut Output, s: &[u8])
    ensures { Put out.old (in_quotes s.now) out.new }
{
    put(out, b"\"");
    put_chars(out, without_spaces(s));
    put(out, b"\"");
}

// Puts four bytes in quotes.
pub fn quoted_four(out: &mut Output, a: u8, b: u8, c: u8, d: u8)
    ensures { Put out.old (in_quotes (a ∷ b ∷ c ∷ d ∷ [])) out.new }
{
    quoted(out, &[a, b, c, d]);
}

// The name of one of the twelve notes, C first.
#[tactic(auto, unfolding(crate::specs::Text::note_name))]
fn name_of(n: u8) -> &'static [u8]
    ensures { result.now ≡ note_name n }
{
    match n {
        0 => b"C",
        1 => b"C#",
        2 => b"D",
        3 => b"D#",
        4 => b"E",
        5 => b"F",
        6 => b"F#",
        7 => b"G",
        8 => b"G#",
        9 => b"A",
        10 => b"A#",
        _ => b"B",
    }
}

// Puts the name of one of the twelve notes, C first.
pub fn note(out: &mut Output, n: u8)
    ensures { Put out.old (note_name n) out.new }
{
    put(out, name_of(n));
}

// Puts the name of a key with its octave: key 60 is C4.
#[tactic(auto, using(crate::proofs::Laws::put_put, crate::proofs::Laws::put_as, crate::proofs::Texts::octave_low, crate::proofs::Texts::octave_high))]
pub fn key(out: &mut Output, k: u8)
    ensures { Put out.old (key_name k) out.new }
{
    note(out, k % 12);
    if k < 12 {
        return put(out, b"-1");
    }
    number(out, (k / 12 - 1) as u64);
}

// Whether a byte behind another is a control character: of ASCII, or the second byte of one of UTF-8's.
fn is_control(before: u8, b: u8) -> bool
    ensures { result ≡ is_control_of before b }
{
    b < b' ' || b == 127 || (128 <= b && b < 160 && before == 0xC2)
}

// Puts a byte of a file's name behind another: a control character as its hexadecimal digits.
fn put_path_char(out: &mut Output, before: u8, b: u8)
    ensures { Put out.old (path_char before b) out.new }
{
    if is_control(before, b) {
        put(out, b"\\x");
        return hex(out, b);
    }
    put(out, &[b]);
}

// Puts the name of a file.
pub fn path(out: &mut Output, s: &[u8])
    ensures { Put out.old (path_of s.now) out.new }
{
    let mut before = 0;
    for b in s {
        put_path_char(out, before, *b);
        before = *b;
    }
}
