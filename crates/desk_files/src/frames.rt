// One stretch of bytes: where it ends, and its line.
// Kept as two parameters: an output and a frame or a name. Digits, numbers and texts take the output alone, which a struct of both would have to lend on.
ghost use Rattle.std.specs.Prelude.{◌≡◌, ◌+◌, ◌≤◌, min, length, take, drop};

use desk_io::names;
use desk_messages::{Beside, refusals};
use desk_print::fields::Style;
use desk_print::output::Output;
use desk_print::{hex, number, output, say};
use messages::file_reference::Kind;
use reader::lent::Reading;
use util::bytes::sub_slice;
use util::groups::at;
use util::limits::{KEYS, MOST_DATA};
use util::refusal::Refusal;

// Bytes of a file, the first of which has an offset in it.
#[derive(Clone, Copy)]
pub struct Part<'a> {
    pub bytes: &'a [u8],
    pub offset: u64,
}

impl<'a> Part<'a> {
    // The bytes from a place on, so many or as many as there are.
    pub fn part(self, from: usize, len: usize) -> Part<'a>
        ensures bytes { result.bytes.now ≡ take len (drop from self.entry.bytes.now) }
        ensures offset { result.offset ≡ min (self.entry.offset + from) 18446744073709551615 }
    {
        Part {
            bytes: sub_slice(self.bytes, from, len),
            offset: self.offset.saturating_add(from as u64),
        }
    }
}

// Whether a byte is F0 or F7.
pub(crate) fn is_edge(b: u8) -> bool {
    matches!(b, 0xF0 | 0xF7)
}

// The first place from `from` on whose byte is F0 or F7, or the end.
pub fn end_from(s: &[u8], from: usize) -> usize
    ensures { (from ≤ length s.now → result ≤ length s.now) × (from ≤ result) }
{
    let rest = sub_slice(s, from, s.len());
    let before = rest.iter().position(|b| is_edge(*b));
    from + before.unwrap_or(rest.len())
}

// The stretch from an F0 at the start up to the next F7, if there is one.
pub fn first(s: &[u8]) -> Option<&[u8]> {
    if at(s, 0) != 0xF0 {
        return None;
    }
    let e = end_from(s, 1);
    if at(s, e) == 0xF7 {
        return s.get(..=e);
    }
    None
}

// Whether a head has two bytes.
fn is_double(first: u8) -> bool {
    matches!(first, 5..=9 | 11)
}

// Puts the head of a frame in hexadecimal digits.
pub fn put_head(out: &mut Output, frame: &[u8]) {
    hex(out, at(frame, 3));
    if is_double(at(frame, 3)) {
        say(out, b" ");
        hex(out, at(frame, 4));
    }
}

// Puts the offset and the length of a stretch.
pub fn put_place(out: &mut Output, offset: u64, len: usize) {
    number(out, offset);
    say(out, b" ");
    number(out, len as u64);
    say(out, b" ");
}

// What a message has beside its fields, by the reading of its frame.
pub(crate) fn beside(frame: &[u8], r: Reading) -> Beside<'_> {
    Beside {
        text: sub_slice(frame, r.from, r.len),
        places: r.places,
    }
}

// Puts what a frame is, in one line.
fn describe(out: &mut Output, frame: &[u8], kind: Kind) {
    let mut data = [0u8; MOST_DATA];
    let mut entries = [0u64; KEYS];
    match reader::read(frame, kind, &mut data, &mut entries) {
        Ok(r) => desk_messages::message(out, Style::Line, r.m, beside(frame, r)),
        Err(refusal) => refusals::explain(out, frame, refusal),
    }
}

// The line of a frame.
pub fn line(out: &mut Output, frame: Part, kind: Kind) {
    put_place(out, frame.offset, frame.bytes.len());
    put_head(out, frame.bytes);
    say(out, b" ");
    describe(out, frame.bytes, kind);
    say(out, b"\n");
}

// The line of a stretch that is no frame.
pub fn refused(out: &mut Output, stretch: Part, r: Refusal) {
    put_place(out, stretch.offset, stretch.bytes.len());
    match r {
        Refusal::Field | Refusal::Sum => put_head(out, stretch.bytes),
        _ => say(out, b"--"),
    }
    say(out, b" ");
    refusals::explain(out, stretch.bytes, r);
    say(out, b"\n");
}

// The error line of a stretch that is no frame.
pub fn complain(out: &mut Output, path: &[u8], stretch: Part, r: Refusal) {
    names::begin_line(out, path);
    say(out, b"at offset ");
    number(out, stretch.offset);
    say(out, b": ");
    refusals::explain(out, stretch.bytes, r);
    output::end_line(out);
}
