// The desk: the command of the arguments.
#![tactic(auto)]

use arrayvec::ArrayVec;
use desk_io::pieces::Source;
use desk_print::output;
use desk_print::output::{Output, Stream, complain, complain_number};
use std::env::{Env, FillError};
use std::os::fd::AsFd;

// The bytes of the words of the arguments.
type Words = ArrayVec<u8, 65536>;

// Why the arguments are not taken: one is longer than any name of a file, or there is no room for their words.
// Kept as an enum of its own: that there is no room is an error too, where None would say that nothing is wrong.
#[derive(Clone, Copy, Debug, PartialEq, Eq)]
pub enum Excess {
    Word(usize),
    Words,
}

// Puts a word, ended by a 0, behind those that are there.
fn push_word(words: &mut Words, word: &[u8]) -> Result<(), Excess> {
    if words.try_extend_from_slice(word).is_err() {
        return Err(Excess::Words);
    }
    words.try_push(0).map_err(|_| Excess::Words)
}

// Puts an argument behind the words that are there; whether there is one of that number.
fn push_argument(rt: HostRuntime, i: usize, words: &mut Words) -> Result<bool, Excess> {
    let mut text = io::buffer();
    match rt.arg(i, &mut text) {
        Ok(len) => match text.get(..len) {
            Some(word) if len < text.len() => push_word(words, word).map(|_| true),
            _ => Err(Excess::Word(i)),
        },
        Err(FillError::TooLong) => Err(Excess::Word(i)),
        Err(FillError::NotPresent) => Ok(false),
    }
}

// Puts all arguments as words.
// Kept as a count up to a number that no run reaches, since nothing says that the arguments end.
fn push_arguments(rt: HostRuntime, words: &mut Words) -> Result<(), Excess> {
    for i in 1..usize::MAX {
        if !push_argument(rt, i, words)? {
            break;
        }
    }
    Ok(())
}

// Says why the arguments are not taken.
fn tell(out: &mut Output, e: Excess) {
    match e {
        Excess::Word(i) => complain_number(
            out,
            b"desk",
            b"word ",
            i as u64,
            b" is longer than 4,095 bytes",
        ),
        Excess::Words => complain(out, b"desk", b"too many words, more than 65,536 bytes"),
    }
}

// Runs the words of the arguments.
fn run(rt: HostRuntime, out: &mut Output) {
    let mut words = Words::new();
    match push_arguments(rt, &mut words) {
        Ok(()) => desk_commands::run(out, words.as_slice(), &mut Source::Stdin(rt.stdin())),
        Err(e) => tell(out, e),
    }
}

// What the system says of a number that no open file has.
const BAD_DESCRIPTOR: i32 = 9;

// Whether standard output is closed: only an open file can have another number.
fn is_closed(rt: HostRuntime) -> bool {
    match rt.stdout().as_fd().try_clone_to_owned() {
        Ok(_) => false,
        Err(e) => e.raw_os_error() == Some(BAD_DESCRIPTOR),
    }
}

fn main(rt: HostRuntime) {
    let mut out = output::new(rt, Stream::Stderr as u8);
    if is_closed(rt) {
        return output::fail(&mut out);
    }
    run(rt, &mut out);
    output::flush(&mut out);
}
