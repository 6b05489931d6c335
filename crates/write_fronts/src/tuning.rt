// The fronts of tunings.
// Kept as two parameters, an output and the number of a device: a front has both beside its own fields, and a struct of both would be made for each.
ghost use Rattle.std.specs.Prelude.{◌≡◌, ◌∷◌, [], ◌≤◌, length};
ghost use Rattle.util.specs.Splice.{overwritten};
ghost use Rattle.messages.specs.Fields.{bank_number};
ghost use Rattle.write_fronts.specs.Fronts.{start_2, channel_fields, front_banked};
ghost use Rattle.write_fronts.specs.Sizes.{size_bank};

use messages::tuning::bank_number;
use util::bytes;

// Writes a bulk request or the front of a key dump for no bank; b is the second byte of the head.
fn put_program(out: &mut [u8], d: u64, b: u8, p: u8)
    requires { 5 ≤ length out.old }
    ensures { out.new ≡ overwritten (start_2 d 0x08 b ((1, p) ∷ [])) out.old }
{
    bytes::copy(out, &[0x7E, d.min(127) as u8, 0x08, b.min(127), p.min(127)]);
}

// Writes a bulk request, or the front of a key dump, a scale dump or a note change, for bank n; b is the second byte of the head.
pub fn put_bank_program(out: &mut [u8], d: u64, b: u64, n: u8, p: u8)
    requires { 6 ≤ length out.old }
    ensures { out.new ≡ overwritten (start_2 d 0x08 b ((1, n) ∷ (1, p) ∷ [])) out.old }
{
    let row = [
        0x7E,
        d.min(127) as u8,
        0x08,
        b.min(127) as u8,
        n.min(127),
        p.min(127),
    ];
    bytes::copy(out, &row);
}

// Writes the front of a scale for channels; b is the second byte of the head.
pub fn put_scale(out: &mut [u8], d: u64, b: u64, s: u16)
    requires { 7 ≤ length out.old }
    ensures { out.new ≡ overwritten (start_2 d 0x08 b (channel_fields s)) out.old }
{
    let row = [
        0x7E,
        d.min(127) as u8,
        0x08,
        b.min(127) as u8,
        (s / 16384) as u8,
        (s % 16384 / 128) as u8,
        (s % 128) as u8,
    ];
    bytes::copy(out, &row);
}

// Writes a bulk request or the front of a key dump, by the second byte of the head without a bank and that with one.
pub fn put_banked(out: &mut [u8], d: u64, without: u8, with: u64, bank: Option<u8>, p: u8)
    requires { size_bank bank ≤ length out.old }
    ensures { out.new ≡ overwritten (front_banked d without with bank p) out.old }
{
    match bank {
        None => put_program(out, d, without, p),
        Some(n) => put_bank_program(out, d, with, n, p),
    }
}

// Writes the front of a note change.
pub fn put_change(out: &mut [u8], d: u64, bank: Option<u8>, p: u8)
    requires { 6 ≤ length out.old }
    ensures { out.new ≡ overwritten (start_2 d 0x08 0x07 ((1, bank_number bank) ∷ (1, p) ∷ [])) out.old }
{
    let k = bank_number(bank).min(127);
    bytes::copy(
        out,
        &[0x7E, d.min(127) as u8, 0x08, 0x07, k as u8, p.min(127)],
    );
}
