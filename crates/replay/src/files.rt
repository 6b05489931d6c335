// One file: it is read in pieces into a buffer, and each of its cases is replayed.
// Kept as a source and a buffer side by side, as in desk_io.
use desk_io::pieces;
use desk_io::pieces::{Piece, Source, sum};
use replay_vectors::cases;
use replay_vectors::cases::Case;
use replay_vectors::verdicts::Fault;
use std::io::Write;
use util::bytes::sub_slice;

// How many failed cases of a file are named.
const NAMED: u64 = 5;

// How many cases passed and failed.
#[derive(Clone, Copy, Debug, PartialEq, Eq, Default)]
pub struct Tally {
    pub passed: u64,
    pub failed: u64,
}

// How far a file is replayed: the next case has a number and stands at a place of the buffer, which holds len bytes.
#[derive(Clone, Copy)]
struct Progress {
    len: usize,
    at: usize,
    number: u64,
    tally: Tally,
}

// Why no more cases of a file are replayed: it is at its end, or something is wrong.
#[derive(Clone, Copy)]
enum Stop {
    End,
    Unreadable,
    Cut,
    Malformed,
}

// Prints a text. A write that fails has nowhere to be told.
pub fn write(rt: HostRuntime, text: &[u8]) {
    let _ = rt.stdout().write_all(text);
}

// Prints a number between texts.
pub fn print(rt: HostRuntime, before: &[u8], number: u64, behind: &[u8]) {
    let mut text = [0u8; 20];
    let k = io::decimal(number, &mut text);
    write(rt, before);
    write(rt, &text[..k]);
    write(rt, behind);
}

// Prints why a file stops, where something is wrong, and counts that as failed.
fn tell(rt: HostRuntime, p: &mut Progress, name: &[u8], why: Stop) {
    match why {
        Stop::End => return,
        Stop::Unreadable => {
            write(rt, name);
            write(rt, b": cannot be read\n");
        }
        Stop::Cut => {
            write(rt, name);
            print(rt, b": cut in case ", p.number, b"\n");
        }
        Stop::Malformed => {
            write(rt, name);
            print(rt, b": malformed in case ", p.number, b"\n");
        }
    }
    p.tally.failed = sum(p.tally.failed, 1);
}

// Moves the rest of the buffer to its start, and reads more bytes of the file behind it.
fn read_more(p: &mut Progress, source: &mut Source, room: &mut [u8]) -> Result<(), Stop> {
    let len = p.len.min(room.len());
    let at = p.at.min(len);
    let piece = pieces::next(source, room, Piece { base: 0, len }, at).map_err(
        |_| Stop::Unreadable,
    )?;
    p.len = piece.len;
    p.at = 0;
    Ok(())
}

// Goes on where the buffer ends inside a case. A file that is not at its end fills the buffer, which no case does.
fn go_on(p: &mut Progress, source: &mut Source, room: &mut [u8]) -> Result<(), Stop> {
    if 0 < p.at {
        read_more(p, source, room)
    } else if room.len() <= p.len {
        Err(Stop::Malformed)
    } else if 0 < p.len {
        Err(Stop::Cut)
    } else {
        Err(Stop::End)
    }
}

// Replays a case by its op. Kept as numbers: the format of the files has them, and they stand here alone.
fn replay_case(case: Case) -> Result<(), Fault> {
    match case.op {
        1 => replay_write::replay_message(case),
        2 => replay_read::replay_frame(case),
        3 => replay_walk::replay_stream(case),
        4 => replay_read::replay_identity(case),
        5 => replay_rates::replay_cents(case),
        6 => replay_rates::replay_split(case),
        7 => replay_rates::replay_join(case),
        64 => replay_write::replay_stretches(case),
        65 => replay_walk::replay_short_streams(case),
        66 => replay_write::replay_records(case),
        _ => Err(Fault::Malformed),
    }
}

// Counts a case by what a replay of it finds, and names one of the first that fail.
fn count(rt: HostRuntime, p: &mut Progress, found: Result<(), Fault>) -> Result<(), Stop> {
    match found {
        Ok(()) => p.tally.passed = sum(p.tally.passed, 1),
        Err(Fault::Malformed) => return Err(Stop::Malformed),
        Err(Fault::Failed) => {
            if p.tally.failed < NAMED {
                print(rt, b"case ", p.number, b" failed\n");
            }
            p.tally.failed = sum(p.tally.failed, 1);
        }
    }
    p.number = sum(p.number, 1);
    Ok(())
}

// Replays the next case, or reads more where the buffer ends inside it.
fn turn(
    rt: HostRuntime,
    p: &mut Progress,
    source: &mut Source,
    room: &mut [u8],
) -> Result<(), Stop> {
    let held = sub_slice(room, 0, p.len);
    match cases::read(sub_slice(held, p.at, held.len())) {
        Some((case, rest)) => {
            p.at = held.len() - rest.len();
            count(rt, p, replay_case(case))
        }
        None => go_on(p, source, room),
    }
}

// Replays an open file until it stops. Nothing says that a file ends, so the turns are counted.
fn replay_open(
    rt: HostRuntime,
    p: &mut Progress,
    source: &mut Source,
    room: &mut [u8],
) -> Result<(), Stop> {
    read_more(p, source, room)?;
    for _ in 0..u64::MAX {
        turn(rt, p, source, room)?;
    }
    Ok(())
}

// Replays the file of a name, and tells how many of its cases passed and failed.
pub fn replay_name(rt: HostRuntime, name: &[u8], room: &mut [u8]) -> Tally {
    let mut p = Progress {
        len: 0,
        at: 0,
        number: 1,
        tally: Tally::default(),
    };
    let Ok(file) = pieces::open_file(rt, name) else {
        tell(rt, &mut p, name, Stop::Unreadable);
        return p.tally;
    };
    let mut source = Source::File(file);
    if let Err(why) = replay_open(rt, &mut p, &mut source, room) {
        tell(rt, &mut p, name, why);
    }
    pieces::close(source);
    p.tally
}
