// Standard output, gathered and written out in large pieces; error lines, each behind what was put before it.
// Kept as two parameters: an output and a text. One output serves all that is put, so that a struct of both would be made for each.
ghost use Rattle.std.specs.Prelude.{◌≡◌, [], ◌∷◌, ◌++◌, ◌≤◌, length};
ghost use Rattle.desk_print.specs.Output.{Gathering, gathered, Sound, Fresh, Put, Failed, Tried, Flushed, Added, stream_of};
ghost use Rattle.desk_print.specs.Text.{path_of};

use super::{names, number, put};
use arrayvec::ArrayVec;
use std::io::Write;
use std::marker::Model;

// The bytes that are gathered at most.
pub const ROOM: usize = 65535;

// An open file that text is written to.
#[derive(Clone, Copy)]
pub enum Stream {
    Stdout = 1,
    Stderr = 2,
}

impl From<u8> for Stream {
    ghost from_gives = { λ n s. s ≡ stream_of n };

    // The open file of a number: 1 is standard output, any other standard error.
    fn from(n: u8) -> Stream {
        match n {
            1 => Stream::Stdout,
            _ => Stream::Stderr,
        }
    }
}

// The gathered bytes, whether a write has failed, and where error lines go; beside them, which contracts do not see, stands the system, whose
// standard output and standard error the bytes go to.
// Kept with a flag beside the bytes: they are gathered in the same way behind a failure, so that an enum would hold them in both of its variants.
#[derive(Drop)]
pub struct Output {
    text: ArrayVec<u8, ROOM>,
    is_failed: bool,
    errors: Stream,
    rt: HostRuntime,
}

impl Model for Output {
    ghost Value = { Gathering };

    ghost view = { λ o. record { text = o.text.items; is_failed = o.is_failed; errors = o.errors } };

    ghost invariant = { λ o. length o.text.items ≤ 65535 };
}

// An output with nothing gathered; error lines go to the open file of a number.
pub fn new(rt: HostRuntime, errors: u8) -> Output
    ensures fresh { Fresh result }
    ensures errors { result.errors ≡ stream_of errors }
{
    Output {
        text: ArrayVec::new(),
        is_failed: false,
        errors: Stream::from(errors),
        rt,
    }
}

// The system that an output writes to.
pub fn runtime(out: &Output) -> HostRuntime {
    out.rt
}

// Whether a write has failed.
pub fn is_failed(out: &Output) -> bool
    ensures { result ≡ out.now.is_failed }
{
    out.is_failed
}

// Writes bytes to an open file; whether they are written.
fn write_all(to: Stream, out: &Output, text: &[u8]) -> bool {
    match to {
        Stream::Stdout => out.rt.stdout().write_all(text).is_ok(),
        Stream::Stderr => out.rt.stderr().write_all(text).is_ok(),
    }
}

// Writes a text, which is all that is gathered, to an open file.
fn write_text(to: Stream, out: &Output, text: &[u8]) -> bool
    requires { text.now ≡ gathered out.now }
{
    write_all(to, out, text)
}

// Writes what is gathered to an open file.
fn write_gathered(to: Stream, out: &Output) -> bool {
    write_text(to, out, out.text.as_slice())
}

// Remembers that a write has failed, and says so.
pub fn fail(out: &mut Output)
    ensures { Failed out.old out.new }
{
    out.is_failed = true;
    write_all(
        out.errors,
        out,
        b"standard output: cannot be written (is the disk full?)\n",
    );
}

// Writes what is gathered to standard output, unless a write has failed.
fn write_out(out: &mut Output)
    ensures { Sound out.new → out.new ≡ out.old }
{
    if is_failed(out) {
        return;
    }
    if !write_gathered(Stream::Stdout, out) {
        fail(out);
    }
}

// Writes out what is gathered, and forgets it.
pub fn flush(out: &mut Output)
    ensures { Flushed out.old out.new }
{
    write_out(out);
    out.text.clear();
}

// Gathers bytes behind those that are there, where there is room; whether there is.
fn gather(out: &mut Output, text: &[u8]) -> bool
    ensures { Tried out.old text.now out.new result }
{
    out.text.try_extend_from_slice(text).is_ok()
}

// Writes out bytes that are too many to be gathered.
// Kept beside `write_out`: what the contract of each says of the bytes is another thing.
fn send(out: &mut Output, text: &[u8])
    requires { gathered out.old ≡ [] }
    ensures { Put out.old text.now out.new }
{
    if is_failed(out) {
        return;
    }
    if !write_all(Stream::Stdout, out, text) {
        fail(out);
    }
}

// Gathers bytes, after what is gathered is written out, where there is no room for them.
pub fn add(out: &mut Output, text: &[u8])
    ensures { Added out.old text.now out.new }
{
    if gather(out, text) {
        return;
    }
    flush(out);
    if !gather(out, text) {
        send(out, text);
    }
}

// Begins an error line, behind all that was put before it.
pub fn begin_line(out: &mut Output, what: &[u8])
    ensures { Put out.old (path_of what.now ++ (58 ∷ 32 ∷ [])) out.new }
{
    flush(out);
    names::path(out, what);
    put(out, b": ");
}

// Writes what is gathered to the file of error lines, unless a write has failed.
fn write_line(out: &Output) {
    if !is_failed(out) {
        write_gathered(out.errors, out);
    }
}

// Ends an error line, and writes it.
pub fn end_line(out: &mut Output)
    ensures { Flushed out.old out.new }
{
    put(out, b"\n");
    write_line(out);
    out.text.clear();
}

// Writes an error line: what it is about, and what is to be said of it.
#[tactic(auto, using(crate::proofs::Laws::flushed))]
pub fn complain(out: &mut Output, what: &[u8], why: &[u8])
    ensures { Flushed out.old out.new }
{
    begin_line(out, what);
    put(out, why);
    end_line(out);
}

// The same with a number between two texts.
#[tactic(auto, using(crate::proofs::Laws::flushed))]
pub fn complain_number(out: &mut Output, what: &[u8], before: &[u8], n: u64, after: &[u8])
    ensures { Flushed out.old out.new }
{
    begin_line(out, what);
    put(out, before);
    number(out, n);
    put(out, after);
    end_line(out);
}
