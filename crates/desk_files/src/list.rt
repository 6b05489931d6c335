// The frames of a file, a line each.
// Kept beside one another: an output, a name, a piece or a source, a kind, an index. Texts take the output alone, and the walk takes all but the output.
use super::frames::Part;
use super::{all, frames, sorts, walks};
use desk_io::names::{complain_number, is_dash};
use desk_io::pieces;
use desk_io::pieces::{PIECE, Source};
use desk_print::output::Output;
use desk_print::{names, number, output, say, units};
use messages::file_reference::Kind;
use std::io::ErrorKind;

// Frames only, or every stretch.
#[derive(Clone, Copy, Debug, PartialEq, Eq)]
pub enum Scope {
    Frames,
    All,
}

// What is listed of a file, and for which kind of sound file.
#[derive(Clone, Copy, Debug, PartialEq, Eq)]
pub struct Wanted {
    pub kind: Kind,
    pub scope: Scope,
}

// How many frames there are, how many stretches that are none, and in how many files.
#[derive(Clone, Copy, Debug, Default, PartialEq, Eq)]
pub struct Tally {
    pub frames: u64,
    pub others: u64,
    pub files: u64,
}

impl Tally {
    // One more frame.
    pub fn frame(&mut self) {
        self.frames = self.frames.saturating_add(1);
    }

    // One more stretch that is no frame.
    pub fn other(&mut self) {
        self.others = self.others.saturating_add(1);
    }

    // The stretches of another file.
    pub fn file(&mut self, t: Tally) {
        self.frames = self.frames.saturating_add(t.frames);
        self.others = self.others.saturating_add(t.others);
        self.files = self.files.saturating_add(1);
    }
}

// The frames of a piece that begin before the next piece.
fn list_frames(out: &mut Output, piece: Part, kind: Kind, index: &mut [u32], tally: &mut Tally) {
    walks::each_frame(piece, kind, index, |frame| {
        frames::line(out, frame, kind);
        tally.frame();
    });
}

// The stretches of a piece that begin before the next piece.
fn list_piece(out: &mut Output, piece: Part, wanted: Wanted, index: &mut [u32], tally: &mut Tally) {
    match wanted.scope {
        Scope::Frames => list_frames(out, piece, wanted.kind, index, tally),
        Scope::All => all::list_stretches(out, piece, wanted.kind, tally),
    }
}

// The place of the F0 that a piece ends behind without an F7, if there is one.
fn unended(s: &[u8]) -> Option<usize> {
    let edge = s.iter().rposition(|b| frames::is_edge(*b))?;
    if util::groups::at(s, edge) == 0xF0 {
        Some(edge)
    } else {
        None
    }
}

// Says that a file ends inside a message.
fn tell_cut(out: &mut Output, path: &[u8], piece: Part) {
    if let Some(place) = unended(piece.bytes) {
        complain_number(
            out,
            path,
            b"the file ends inside a message that begins at offset ",
            piece.offset.saturating_add(place as u64),
            b"",
        );
    }
}

// Says how far a file is read, every 256 pieces behind the first.
fn tell_progress(out: &mut Output, turn: u64, offset: u64) {
    if turn % 256 == 255 {
        pieces::progress(out, offset);
    }
}

// Puts how many stretches are no frame.
fn put_others(out: &mut Output, others: u64) {
    number(out, others);
    if others == 1 {
        return say(out, b" stretch that is no frame\n");
    }
    say(out, b" stretches that are no frame\n");
}

// Puts how many frames there are; and how many stretches are none.
fn put_tally(out: &mut Output, t: Tally, scope: Scope) {
    if scope == Scope::All {
        put_others(out, t.others);
    }
    number(out, t.frames);
    say(out, b" frames\n");
}

// Puts how many files there are, and the tally of all.
pub fn put_sum(out: &mut Output, t: Tally, scope: Scope) {
    units(out, t.files, b"file");
    say(out, b":\n");
    put_tally(out, t, scope);
}

// Lists a piece; whether more can be told.
fn list_next(
    out: &mut Output,
    path: &[u8],
    turn: u64,
    piece: Part,
    wanted: Wanted,
    index: &mut [u32],
    tally: &mut Tally,
) -> bool {
    tell_progress(out, turn, piece.offset);
    list_piece(out, piece, wanted, index, tally);
    if piece.bytes.len() < PIECE {
        tell_cut(out, path, piece);
    }
    !output::is_failed(out)
}

// Lists an open file, and adds its tally to that of all; an error where reading fails.
fn list_open(
    out: &mut Output,
    source: &mut Source,
    path: &[u8],
    wanted: Wanted,
    room: &mut [u8],
    total: &mut Tally,
) -> Result<(), ErrorKind> {
    let mut index = [0u32; 21844];
    let mut tally = Tally::default();
    let first = pieces::first(source, room, 0)?;
    let sort = sorts::sort_of(&room[..first.len]);
    walks::each_piece(source, room, first, |turn, piece| {
        list_next(out, path, turn, piece, wanted, &mut index, &mut tally)
    })?;
    if tally.frames == 0 {
        sorts::hint(out, path, sort);
    }
    put_tally(out, tally, wanted.scope);
    total.file(tally);
    Ok(())
}

// Puts the name of an input file.
fn put_path(out: &mut Output, path: &[u8]) {
    if is_dash(path) {
        return say(out, b"standard input");
    }
    names::path(out, path);
}

// Puts the name of a file, where one of several is listed.
fn put_name(out: &mut Output, path: &[u8], is_named: bool) {
    if is_named {
        put_path(out, path);
        say(out, b":\n");
    }
}

// Lists an open file in room of its own, and adds its tally to that of all.
// Kept apart from `list`: there the room was cleared a second time, also where no file was opened (docs/LOOK-BACK.md).
fn list_source(
    out: &mut Output,
    source: &mut Source,
    path: &[u8],
    wanted: Wanted,
    total: &mut Tally,
) {
    let mut room = io::large_buffer();
    if let Err(why) = list_open(out, source, path, wanted, &mut room[0..PIECE], total) {
        pieces::unreadable(out, path, why);
    }
}

// Lists the frames of a file, behind its name where it is one of several, and adds its tally to that of all.
pub fn list(out: &mut Output, path: &[u8], wanted: Wanted, is_named: bool, total: &mut Tally) {
    let Some(mut source) = pieces::open(out, path) else {
        return;
    };
    put_name(out, path, is_named);
    list_source(out, &mut source, path, wanted, total);
    pieces::close(source);
}
