// A frame as it stands, or the bytes of a file dump's packets, into a new file.
// Kept beside one another: an output, a name, place, frame, piece or source, a kind, an index. Texts take the output alone, and the walk takes all but the output.
ghost use Rattle.std.specs.Prelude.{◌≤◌, length};

use super::joined::Joined;
use desk_files::frames::Part;
use desk_files::show::Place;
use desk_files::{frames, show, walks};
use desk_io::output::Target;
use desk_io::pieces::{PIECE, Piece, Source};
use desk_io::{output, pieces};
use desk_print::output::Output;
use desk_print::say;
use messages::file_dump::FileDumpMsg;
use messages::file_reference::Kind;
use messages::system_exclusive::UniversalNonRealTimeMsg;
use util::bytes::sub_slice;
use util::limits::{KEYS, MOST_DATA};
use util::refusal::Refusal;

// Reads a frame, and joins it to what is there.
fn join_frame(out: &mut Output, frame: &[u8], kind: Kind, to: &mut Target, joined: &mut Joined) {
    let mut data = [0u8; MOST_DATA];
    let mut entries = [0u64; KEYS];
    if let Ok(r) = reader::read(frame, kind, &mut data, &mut entries) {
        joined.message(out, to, r.m, sub_slice(&data, 0, r.places));
    }
}

// Joins the frames of a piece that begin before the next piece; whether more are wanted.
fn join_piece(
    out: &mut Output,
    piece: Part,
    kind: Kind,
    index: &mut [u32],
    to: &mut Target,
    joined: &mut Joined,
) -> bool {
    walks::each_frame(piece, kind, index, |frame| {
        if !joined.is_done() {
            join_frame(out, frame.bytes, kind, to, joined);
        }
    });
    !joined.is_done()
}

// Joins the packets of an open file from its first piece on.
fn join_pieces(
    out: &mut Output,
    source: &mut Source,
    kind: Kind,
    room: &mut [u8],
    to: &mut Target,
    first: Piece,
) -> Joined
    requires { first.len ≤ length room.old }
{
    let mut index = [0u32; 21844];
    let mut joined = Joined::default();
    // what is joined is told, also where reading fails
    let _ = walks::each_piece(source, room, first, |_, piece| {
        join_piece(out, piece, kind, &mut index, to, &mut joined)
    });
    joined
}

// Says how many bytes a file got.
fn tell_written(out: &mut Output, path: &[u8], count: u64) {
    if output::written(out, path, count) {
        say(out, b"\n");
    }
}

// Joins the packets of an open file from its first piece on into a new file.
fn join_into(
    out: &mut Output,
    source: &mut Source,
    place: Place,
    room: &mut [u8],
    first: Piece,
    to: &[u8],
)
    requires { first.len ≤ length room.old }
{
    let Some(mut made) = output::create(out, to) else {
        return;
    };
    let joined = join_pieces(out, source, place.kind, room, &mut made, first);
    let is_whole = joined.is_whole();
    if !is_whole {
        joined.explain(out, place.path, to);
    }
    if output::finish(out, made, to, is_whole) {
        tell_written(out, to, joined.total);
    } else {
        if is_whole {
            output::unwritten(out, to);
        }
    }
}

// Whether a message is one of a file dump that can be joined.
fn is_file(m: UniversalNonRealTimeMsg) -> bool {
    matches!(
        m,
        UniversalNonRealTimeMsg::FileDump(FileDumpMsg::Header { .. } | FileDumpMsg::Packet { .. })
    )
}

// Whether a file dump begins with a stretch; a refusal where it is no frame.
fn begins_file(stretch: &[u8], kind: Kind) -> Result<bool, Refusal> {
    Ok(is_file(reader::examine(stretch, kind)?.m))
}

// Extracts a frame, or says why a stretch is none; whether a file dump begins there instead.
fn extract_frame(out: &mut Output, place: Place, stretch: &[u8], to: &[u8]) -> bool {
    match begins_file(stretch, place.kind) {
        Ok(true) => return true,
        Ok(false) => {
            if output::save(out, to, stretch) {
                say(out, b"\n");
            }
        }
        Err(r) => frames::complain(out, place.path, place.part(stretch), r),
    }
    false
}

// Extracts what begins at an offset of an open file.
fn extract_open(out: &mut Output, source: &mut Source, place: Place, room: &mut [u8], to: &[u8]) {
    let Some(n) = show::read_open(out, source, place, room) else {
        return;
    };
    let Some(stretch) = frames::first(&room[..n]) else {
        return show::no_message(out, place);
    };
    if extract_frame(out, place, stretch, to) {
        let first = Piece { base: 0, len: n };
        join_into(out, source, place, room, first, to);
    }
}

// Extracts what begins at an offset of a file.
pub fn extract(out: &mut Output, place: Place, to: &[u8]) {
    let Some(mut source) = pieces::open(out, place.path) else {
        return;
    };
    let mut room = io::large_buffer();
    extract_open(out, &mut source, place, &mut room[0..PIECE], to);
    pieces::close(source);
}
