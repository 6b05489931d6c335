// Replays files of test vectors, named by its arguments, and prints how many cases passed and failed.
#![tactic(auto)]

mod files;

ghost use Rattle.std.specs.Prelude.{◌≡◌, length};

use desk_io::pieces::sum;
use files::{Tally, print, write};
use std::env::{Env, FillError};

// Prints how many cases passed and failed.
fn print_tally(rt: HostRuntime, name: &[u8], t: Tally) {
    write(rt, name);
    print(rt, b": ", t.passed, b" passed, ");
    print(rt, b"", t.failed, b" failed\n");
}

// Replays the file of a name, and adds its cases.
fn replay_file(rt: HostRuntime, name: &[u8], room: &mut [u8], t: &mut Tally) {
    let cases = files::replay_name(rt, name, room);
    print_tally(rt, name, cases);
    t.passed = sum(t.passed, cases.passed);
    t.failed = sum(t.failed, cases.failed);
}

// Replays the file of an argument, and adds its cases; none where there is no such argument. One that is longer than any name names no file.
fn replay_argument(rt: HostRuntime, i: usize, room: &mut [u8], t: &mut Tally) -> Option<()> {
    let mut path = io::buffer();
    match rt.arg(i, &mut path) {
        Ok(n) => replay_file(rt, &path[..n], room, t),
        Err(FillError::TooLong) => replay_file(rt, b"", room, t),
        Err(FillError::NotPresent) => return None,
    }
    Some(())
}

// Replays the files of all arguments.
// Kept as a count up to a number that no run reaches, since nothing says that the arguments end.
fn replay_all(rt: HostRuntime, room: &mut [u8]) -> Tally {
    let mut t = Tally::default();
    for i in 1..usize::MAX {
        if replay_argument(rt, i, room, &mut t).is_none() {
            break;
        }
    }
    t
}

// A buffer that is longer than any case.
fn large_room() -> [u8; 524288]
    ensures { 524288 ≡ length result }
{
    [0; 524288]
}

fn main(rt: HostRuntime) {
    let mut room = large_room();
    let t = replay_all(rt, &mut room);
    print_tally(rt, b"total", t);
}
