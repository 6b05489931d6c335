// Every stretch that begins with F0: the frames, and what is none, with the reason.
// Kept as two parameters: an output and a piece or a stretch. Numbers and texts take the output alone, which a struct of both would have to lend on.
use super::frames;
use super::frames::Part;
use super::list::Tally;
use desk_io::pieces;
use desk_print::output::Output;
use desk_print::{number, say};
use messages::file_reference::Kind;
use util::bytes::sub_slice;

// The line of a stretch that ends without F7.
fn unended(out: &mut Output, stretch: Part, why: &[u8]) {
    frames::put_place(out, stretch.offset, stretch.bytes.len());
    say(out, b"-- ");
    say(out, why);
    say(out, b"\n");
}

// The line of a stretch whose length is not known.
fn endless(out: &mut Output, offset: u64) {
    number(out, offset);
    say(
        out,
        b" ? -- longer than any frame; its end was not looked for\n",
    );
}

// The line of a stretch that ends with F7.
fn ended(out: &mut Output, stretch: Part, kind: Kind, tally: &mut Tally) {
    match reader::examine(stretch.bytes, kind) {
        Ok(_) => {
            frames::line(out, stretch, kind);
            tally.frame();
        }
        Err(r) => {
            frames::refused(out, stretch, r);
            tally.other();
        }
    }
}

// The line of the stretch from the F0 at a place of a piece on.
// Kept out of line: inlined, its slices were reckoned at each byte of a piece, and a list of all took 1.6 times as long (docs/LOOK-BACK.md).
#[inline(never)]
fn stretch(out: &mut Output, piece: Part, place: usize, kind: Kind, tally: &mut Tally) {
    let size = piece.bytes.len();
    let from = piece.part(place, size);
    let len = frames::end_from(from.bytes, 1);
    match from.bytes.get(len) {
        Some(0xF7) => return ended(out, from.part(0, len + 1), kind, tally),
        Some(_) => unended(out, from.part(0, len), b"cut: another F0 before its F7"),
        None => {
            if size < pieces::PIECE {
                unended(out, from, b"cut: the file ends before its F7");
            } else {
                endless(out, from.offset);
            }
        }
    }
    tally.other();
}

// The lines of the stretches of a piece that begin before the next piece.
pub fn list_stretches(out: &mut Output, piece: Part, kind: Kind, tally: &mut Tally) {
    let before = sub_slice(piece.bytes, 0, pieces::next_start(piece.bytes.len()));
    for (place, b) in before.iter().enumerate() {
        if *b == 0xF0 {
            stretch(out, piece, place, kind, tally);
        }
    }
}
