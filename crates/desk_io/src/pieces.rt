// A file read in pieces that overlap.
// Kept as a source and a buffer beside one another: what is read goes behind what the buffer holds, and callers read the buffer between the reads.
ghost use Rattle.std.specs.Prelude.{◌≡◌, ◌+◌, ◌-◌, ◌≤◌, IfOk, eqb, min, length, take, drop};
ghost use Rattle.std.specs.Io.{ReadsAtMost};
ghost use Rattle.desk_io.specs.Pieces.{NextPiece};

use super::names::{complain, is_dash};
use desk_print::output::{Output, runtime};
use std::fs::File;
use std::io::{Error, ErrorKind, IsTerminal, Read, Seek, SeekFrom, Stdin, Write};
use std::str::from_utf8;
use util::limits::MOST_STREAM;

// The bytes of a whole piece: as many as the walk takes.
pub const PIECE: usize = MOST_STREAM;

// The bytes that two pieces share: no frame has more.
pub const OVERLAP: usize = 4096;

// Bytes of a file: so many of the buffer, the first of which has the offset base in the file.
#[derive(Clone, Copy)]
pub struct Piece {
    pub base: u64,
    pub len: usize,
}

// What is read: standard input, an open file, or nothing, where each read fails.
// Kept as one enum: an Option of an enum of two would be matched twice for each read.
#[derive(Drop)]
pub enum Source {
    Nothing,
    Stdin(Stdin),
    File(File),
}

// The sum of two numbers, up to the largest number.
pub fn sum(a: u64, b: u64) -> u64
    ensures { result ≡ min (a + b) 18446744073709551615 }
{
    a.saturating_add(b)
}

// Where in a piece the next one begins.
pub fn next_start(len: usize) -> usize
    ensures { NextPiece len result }
{
    if len < PIECE { len } else { len - OVERLAP }
}

// Reads bytes of a source to the start of a buffer.
fn read_source(source: &mut Source, room: &mut [u8]) -> std::io::Result<usize>
    ensures { ReadsAtMost result room.new }
{
    match source {
        Source::Nothing => Err(Error::from(ErrorKind::Uncategorized)),
        Source::Stdin(stdin) => stdin.read(room),
        Source::File(file) => file.read(room),
    }
}

// Reads bytes of the file to the start of a buffer.
pub fn read_once(source: &mut Source, room: &mut [u8]) -> Result<usize, ErrorKind>
    ensures { IfOk result (λ n. n ≤ length room.old) }
{
    read_source(source, room).map_err(|e| e.kind())
}

// Whether a read that gave so many bytes was at the end of the file: it gave none.
fn is_end(count: usize) -> bool
    ensures { result ≡ eqb count 0 }
{
    count == 0
}

// Reads the file up to its end or the buffer's.
pub fn read_all(source: &mut Source, room: &mut [u8]) -> Result<usize, ErrorKind>
    ensures { IfOk result (λ n. n ≤ length room.old) }
{
    let mut n = 0;
    // Kept as a loop: each turn goes on behind as many bytes as the read before it gave, which `from_fn` would do in a closure, no plainer.
    while n < room.len() {
        let count = read_once(source, &mut room[n..])?;
        if is_end(count) {
            break;
        }
        n += count;
    }
    Ok(n)
}

// The first piece of a file whose next byte has an offset.
pub fn first(source: &mut Source, room: &mut [u8], base: u64) -> Result<Piece, ErrorKind>
    ensures { IfOk result (λ p. p.len ≤ length room.old) }
{
    let len = read_all(source, room)?;
    Ok(Piece { base, len })
}

// The next piece: the bytes from a place on move to the start, and more are read behind them.
pub fn next(source: &mut Source, room: &mut [u8], p: Piece, at: usize) -> Result<Piece, ErrorKind>
    requires { (at ≤ p.len) × (p.len ≤ length room.old) }
    ensures fits { IfOk result (λ q. q.len ≤ length room.old) }
    ensures base { IfOk result (λ q. q.base ≡ min (p.base + at) 18446744073709551615) }
    ensures kept { IfOk result (λ q. (p.len - at ≤ q.len) × (take (p.len - at) room.new ≡ drop at (take p.len room.old))) }
{
    room.copy_within(at..p.len, 0);
    let rest = p.len - at;
    let count = read_all(source, &mut room[rest..])?;
    Ok(Piece {
        base: sum(p.base, at as u64),
        len: rest + count,
    })
}

// Says why a file cannot be opened or read.
pub fn unreadable(out: &mut Output, path: &[u8], why: ErrorKind) {
    match why {
        ErrorKind::NotFound => complain(out, path, b"there is no such file"),
        ErrorKind::IsADirectory => complain(out, path, b"is a directory, not a file"),
        ErrorKind::PermissionDenied => complain(out, path, b"may not be read"),
        ErrorKind::InvalidFilename => complain(out, path, b"has a name that is too long"),
        _ => complain(out, path, b"cannot be read"),
    }
}

// Opens the file of a name for reading.
pub fn open_file(rt: HostRuntime, path: &[u8]) -> std::io::Result<File> {
    match from_utf8(path) {
        Ok(name) => File::open(&rt, name),
        Err(_) => Err(Error::from(ErrorKind::InvalidInput)),
    }
}

// Opens a file for reading; nothing, and a line that says why, where that fails.
pub fn open(out: &mut Output, path: &[u8]) -> Option<Source> {
    if is_dash(path) {
        return Some(Source::Stdin(runtime(out).stdin()));
    }
    match open_file(runtime(out), path) {
        Ok(file) => Some(Source::File(file)),
        Err(e) => {
            unreadable(out, path, e.kind());
            None
        }
    }
}

// Closes a file that was read; standard input stays open.
pub fn close(_source: Source) {}

// Reads so many bytes of the file and drops them; whether there are as many.
fn pass(source: &mut Source, room: &mut [u8], count: u64) -> bool {
    let mut left = count;
    // Kept as a loop: each turn drops no more than the reads before it left, which `from_fn` would do in a closure, no plainer.
    while 0 < left {
        match read_some(source, room, left) {
            Ok(count) if 0 < count => left -= count as u64,
            _ => return false,
        }
    }
    true
}

// Reads up to so many bytes of the file; how many they are, none at the end.
fn read_some(source: &mut Source, room: &mut [u8], most: u64) -> Result<usize, ErrorKind>
    ensures { IfOk result (λ n. n ≤ most) }
{
    let n = most.min(room.len() as u64) as usize;
    read_once(source, &mut room[..n])
}

// Goes to an offset of a file, where it has positions; whether that was done.
fn seek_source(source: &mut Source, offset: u64) -> bool {
    match source {
        Source::Nothing | Source::Stdin(_) => false,
        Source::File(file) => file.seek(SeekFrom::Start(offset)).is_ok(),
    }
}

// Goes to an offset of a file that nothing was read of yet, by reading where the file has no positions; whether that was done.
pub fn seek(source: &mut Source, room: &mut [u8], offset: u64) -> bool {
    if 4611686018427387903 < offset {
        return false;
    }
    if seek_source(source, offset) {
        return true;
    }
    pass(source, room, offset)
}

// Says on standard error how far a long file is read, where that is a terminal.
pub fn progress(out: &mut Output, base: u64) {
    let mut stderr = runtime(out).stderr();
    if !stderr.is_terminal() {
        return;
    }
    desk_print::output::flush(out);
    let mut text = [0u8; 20];
    let k = io::decimal(base / 1000000, &mut text);
    let _ = stderr.write_all(&text[..k]);
    let _ = stderr.write_all(b" million bytes read\n");
}
