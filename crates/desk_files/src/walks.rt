// The pieces of an open file in turn, and the frames of a piece in turn.
// Kept as two parameters: a kind and an index. Callers read each frame by the kind alone, and keep one index for all pieces of a file.
ghost use Rattle.std.specs.Prelude.{◌≡◌, ◌≤◌, length, take};
ghost use Rattle.std.specs.Result.{is_ok};
ghost use Rattle.walk.specs.Answer.{after};
ghost use Rattle.desk_files.specs.Walks.{VisitsFrames, VisitsPieces};

use super::frames::Part;
use desk_io::pieces;
use desk_io::pieces::{PIECE, Piece, Source};
use messages::file_reference::Kind;
use std::io::ErrorKind;

// Visits the pieces of an open file from its first on, each with its number, until a visit says that no more are wanted; an error where
// reading fails. Nothing says that a file ends, so the pieces are counted up to a number that no run reaches.
pub fn each_piece<F: FnMut(u64, Part) -> bool>(
    source: &mut Source,
    room: &mut [u8],
    first: Piece,
    mut wants_more: F,
) -> Result<(), ErrorKind>
    requires fits { first.len ≤ length room.old }
    requires callable { F.IsAlwaysCallable wants_more }
    ensures { VisitsPieces (λ f n p b g. F.step f n p b g) wants_more first.base (take first.len room.old) (is_ok result) }
{
    let mut piece = first;
    for turn in 0..u64::MAX {
        let part = Part {
            bytes: &room[..piece.len],
            offset: piece.base,
        };
        if !wants_more(turn, part) || piece.len < PIECE {
            return Ok(());
        }
        piece = pieces::next(source, room, piece, pieces::next_start(piece.len))?;
    }
    Ok(())
}

// Visits the frames of a piece that begin before the next piece.
pub fn each_frame<F: FnMut(Part)>(piece: Part, kind: Kind, index: &mut [u32], mut visit: F)
    requires { F.IsAlwaysCallable visit }
    ensures visits { VisitsFrames (λ f p g. F.step f p tt g) visit kind piece.entry.bytes.now piece.entry.offset (length index.old) }
    ensures listed { index.new ≡ after kind piece.entry.bytes.now index.old }
{
    let next = pieces::next_start(piece.bytes.len());
    let Ok(n) = walk::walk(piece.bytes, kind, index) else {
        return;
    };
    let (pairs, _) = index.as_chunks::<2>();
    for [from, len] in &pairs[..n] {
        if (*from as usize) < next {
            visit(piece.part(*from as usize, *len as usize));
        }
    }
}
