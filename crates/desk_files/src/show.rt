// One message, every field a line.
// Kept as two parameters: an output and a frame, place or source. Numbers and texts take the output alone, which a struct would have to lend on.
ghost use Rattle.std.specs.Prelude.{◌≡◌, ◌≤◌, IfSome, length};

use super::frames::Part;
use super::{frames, mend};
use desk_io::names::complain_number;
use desk_io::pieces;
use desk_io::pieces::Source;
use desk_messages::{lists, refusals, system};
use desk_print::fields::Style;
use desk_print::output::Output;
use desk_print::{say, units};
use messages::file_dump::FileDumpMsg;
use messages::file_reference::Kind;
use messages::system_exclusive::{DeviceID, UniversalNonRealTimeMsg};
use reader::lent::Reading;
use util::bytes::sub_slice;
use util::limits::{KEYS, MOST_DATA};
use util::refusal::Refusal;

// A message of a file: the file's name, the kind of sound file that it is read for, the offset of its first byte.
#[derive(Clone, Copy)]
pub struct Place<'a> {
    pub path: &'a [u8],
    pub kind: Kind,
    pub offset: u64,
}

impl<'a> Place<'a> {
    // The bytes of a message there.
    pub fn part<'b>(self, bytes: &'b [u8]) -> Part<'b>
        ensures { (result.bytes.now ≡ bytes.now) × (result.offset ≡ self.entry.offset) }
    {
        Part {
            bytes,
            offset: self.offset,
        }
    }
}

// The lists of a message that were read into lent space.
fn show_lists(out: &mut Output, m: UniversalNonRealTimeMsg, data: &[u8], entries: &[u64]) {
    match m {
        UniversalNonRealTimeMsg::FileDump(FileDumpMsg::Packet { .. }) => lists::data(out, data),
        UniversalNonRealTimeMsg::KeyBasedTuningDump(_) => lists::keys(out, entries),
        UniversalNonRealTimeMsg::TuningNoteChange(_) => lists::changes(out, entries),
        UniversalNonRealTimeMsg::FileReference(_) => lists::maps(out, entries),
        _ => {}
    }
}

// The line of a sum that is wrong.
fn show_sums(out: &mut Output, frame: &[u8]) {
    say(out, b"sum: wrong");
    refusals::sums(out, frame);
    say(out, b"; shown as if it were right\n");
}

// The lines that every message has: the length of its frame, its head and device; before these a sum that is wrong.
fn show_common(out: &mut Output, frame: &[u8], is_right: bool, device: DeviceID) {
    say(out, b"frame: ");
    units(out, frame.len() as u64, b"byte");
    say(out, b"\n");
    if !is_right {
        show_sums(out, frame);
    }
    say(out, b"head: ");
    frames::put_head(out, frame);
    say(out, b"\ndevice: ");
    system::put_device(out, device);
    say(out, b"\n");
}

// The lines of a message that was read of a frame, with lent space.
fn show_message(out: &mut Output, frame: &[u8], r: Reading, data: &[u8], entries: &[u64]) {
    desk_messages::message(out, Style::Lines, r.m, frames::beside(frame, r));
    show_lists(
        out,
        r.m,
        sub_slice(data, 0, r.places),
        &entries[..r.places.min(entries.len())],
    );
}

// The lines of a stretch that is a frame; or whose sum is wrong, told by the frame with the sum that is due.
fn show_frame(out: &mut Output, place: Place, stretch: &[u8], frame: &[u8], is_right: bool) {
    let mut data = [0u8; MOST_DATA];
    let mut entries = [0u64; KEYS];
    match reader::read(frame, place.kind, &mut data, &mut entries) {
        Ok(r) => {
            show_common(out, stretch, is_right, r.device);
            show_message(out, frame, r, &data, &entries);
        }
        Err(refusal) => frames::complain(out, place.path, place.part(stretch), refusal),
    }
}

// Says that a message has a wrong sum.
// Kept apart from `no_message`: each is one call, and they differ in its texts.
fn tell_sum(out: &mut Output, place: Place) {
    complain_number(
        out,
        place.path,
        b"the message at offset ",
        place.offset,
        b" has a wrong sum",
    );
}

// Shows a stretch: a frame, or one whose sum alone is wrong.
fn show_stretch(out: &mut Output, place: Place, stretch: &[u8]) {
    if let Err(Refusal::Sum) = reader::examine(stretch, place.kind) {
        tell_sum(out, place);
        let mut room = io::buffer();
        let n = mend::with_sum(stretch, &mut room);
        return show_frame(out, place, stretch, sub_slice(&room, 0, n), false);
    }
    show_frame(out, place, stretch, stretch, true);
}

// Says that no stretch from F0 to F7 begins at an offset.
pub fn no_message(out: &mut Output, place: Place) {
    complain_number(
        out,
        place.path,
        b"no message from F0 to F7 begins at offset ",
        place.offset,
        b"",
    );
}

// Reads the bytes of an open file from an offset on, and how many they are; a line that says why, where there are none or that fails.
pub fn read_open(
    out: &mut Output,
    source: &mut Source,
    place: Place,
    room: &mut [u8],
) -> Option<usize>
    ensures { IfSome result (λ n. n ≤ length room.old) }
{
    if !pieces::seek(source, room, place.offset) {
        no_message(out, place);
        return None;
    }
    match pieces::read_all(source, room) {
        Ok(0) => no_message(out, place),
        Ok(n) => return Some(n),
        Err(why) => pieces::unreadable(out, place.path, why),
    }
    None
}

// Shows the message at an offset of an open file.
fn show_open(out: &mut Output, source: &mut Source, place: Place) {
    let mut room = io::buffer();
    let Some(n) = read_open(out, source, place, &mut room) else {
        return;
    };
    match frames::first(&room[..n]) {
        Some(stretch) => show_stretch(out, place, stretch),
        None => no_message(out, place),
    }
}

// Shows a message of a file.
pub fn show(out: &mut Output, place: Place) {
    let Some(mut source) = pieces::open(out, place.path) else {
        return;
    };
    show_open(out, &mut source, place);
    pieces::close(source);
}
