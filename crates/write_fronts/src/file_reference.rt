// The fronts of file references.
// Kept as two parameters, an output and the number of a device: a front has both beside its own fields, and a struct of both would be made for each.
ghost use Rattle.std.specs.Prelude.{◌≡◌, ◌∷◌, [], ◌≤◌, ℕ, length};
ghost use Rattle.util.specs.Splice.{overwritten};
ghost use Rattle.messages.specs.Maps.{reference_letters};
ghost use Rattle.write_fronts.specs.Fronts.{start_2, letters, front_reference};
ghost use Rattle.write_fronts.specs.Sizes.{size_reference};

use crate::values::{map_length, url_length, url_map_length};
use messages::file_reference::{FileReferenceMsg, FileReferenceType};
use util::bytes;
use util::limits::LARGEST_U14;

// Writes the front of a file to open in context ctx; b is the second byte of the head, and n the length that follows.
fn put_open(out: &mut [u8], d: u64, b: u8, ctx: u16, n: u64, kind: FileReferenceType)
    requires { 12 ≤ length out.old }
    ensures { out.new ≡ overwritten (start_2 d 0x0B b ((2, ctx) ∷ (2, n) ∷ letters (reference_letters kind) [])) out.old }
{
    let t = (ctx as u64).min(LARGEST_U14);
    let l = n.min(LARGEST_U14);
    let name = <[u8; 4]>::from(kind);
    let row = [
        0x7E,
        d.min(127) as u8,
        0x0B,
        b.min(127),
        (t % 128) as u8,
        (t / 128) as u8,
        (l % 128) as u8,
        (l / 128) as u8,
        name[0].min(127),
        name[1].min(127),
        name[2].min(127),
        name[3].min(127),
    ];
    bytes::copy(out, &row);
}

// Writes the front of contents to select in context ctx; n is the length of the map.
fn put_select(out: &mut [u8], d: u64, ctx: u16, n: u64)
    requires { 8 ≤ length out.old }
    ensures { out.new ≡ overwritten (start_2 d 0x0B 0x02 ((2, ctx) ∷ (2, n) ∷ [])) out.old }
{
    let t = (ctx as u64).min(LARGEST_U14);
    let l = n.min(LARGEST_U14);
    let row = [
        0x7E,
        d.min(127) as u8,
        0x0B,
        0x02,
        (t % 128) as u8,
        (t / 128) as u8,
        (l % 128) as u8,
        (l / 128) as u8,
    ];
    bytes::copy(out, &row);
}

// Writes a file to close, of context ctx.
fn put_close(out: &mut [u8], d: u64, ctx: u16)
    requires { 8 ≤ length out.old }
    ensures { out.new ≡ overwritten (start_2 d 0x0B 0x04 ((2, ctx) ∷ (1, 0) ∷ (1, 0) ∷ [])) out.old }
{
    let t = (ctx as u64).min(LARGEST_U14);
    let row = [
        0x7E,
        d.min(127) as u8,
        0x0B,
        0x04,
        (t % 128) as u8,
        (t / 128) as u8,
        0x00,
        0x00,
    ];
    bytes::copy(out, &row);
}

// Writes the front of a file reference message, for a text of x bytes and y entries.
pub fn put(out: &mut [u8], d: u64, m: FileReferenceMsg, x: usize, y: usize)
    requires { size_reference m ≤ length out.old }
    ensures { out.new ≡ overwritten (front_reference d m x y) out.old }
{
    match m {
        FileReferenceMsg::Open { ctx, file_type } => put_open(
            out,
            d,
            1,
            ctx,
            url_length(x),
            file_type,
        ),
        FileReferenceMsg::SelectContents { ctx, map } => put_select(
            out,
            d,
            ctx,
            map_length(map, y),
        ),
        FileReferenceMsg::OpenSelectContents {
            ctx,
            file_type,
            map,
        } => put_open(out, d, 3, ctx, url_map_length(x, map, y), file_type),
        FileReferenceMsg::Close { ctx } => put_close(out, d, ctx),
    }
}
