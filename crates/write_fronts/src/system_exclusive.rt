// The fronts of identity, General MIDI and handshake messages.
// Kept as one function for each front: fronts differ in their bytes, and each is one array.
// Kept as two parameters, an output and the number of a device: a front has both beside its own fields, and a struct of both would be made for each.
ghost use Rattle.std.specs.Prelude.{◌≡◌, ◌∷◌, [], ◌≤◌, length};
ghost use Rattle.util.specs.Splice.{overwritten};
ghost use Rattle.write_fronts.specs.Fronts.{clamp, start_1, start_2, front_maker, front_reply, front_midi};
ghost use Rattle.write_fronts.specs.Sizes.{size_maker};

use crate::values::clamp;
use messages::general_midi::GeneralMidi;
use messages::system_exclusive::{IdentityReply, ManufacturerID};
use util::bytes;
use util::limits::LARGEST_U14;

// Writes an identity request.
pub fn put_identity_request(out: &mut [u8], d: u64)
    requires { 4 ≤ length out.old }
    ensures { out.new ≡ overwritten (start_2 d 0x06 0x01 []) out.old }
{
    bytes::copy(out, &[0x7E, d.min(127) as u8, 0x06, 0x01]);
}

// Writes the reply of a maker with one byte.
fn put_one_byte_reply(out: &mut [u8], d: u64, b: u8, family: u16, member: u16, v: (u8, u8, u8, u8))
    requires { 13 ≤ length out.old }
    ensures { out.new ≡ overwritten (front_maker d (ManufacturerID.OneByte b) ((2, family) ∷ (2, member) ∷ (1, v.0) ∷ (1, v.1) ∷ (1, v.2) ∷ (1, v.3) ∷ [])) out.old }
{
    let (first, second, third, fourth) = v;
    let f = (family as u64).min(LARGEST_U14);
    let m = (member as u64).min(LARGEST_U14);
    let row = [
        0x7E,
        d.min(127) as u8,
        0x06,
        0x02,
        clamp(b as u64, 1, 124) as u8,
        (f % 128) as u8,
        (f / 128) as u8,
        (m % 128) as u8,
        (m / 128) as u8,
        first.min(127),
        second.min(127),
        third.min(127),
        fourth.min(127),
    ];
    bytes::copy(out, &row);
}

// Writes the reply of a maker with three bytes.
fn put_extended_reply(
    out: &mut [u8],
    d: u64,
    a: u8,
    b: u8,
    family: u16,
    member: u16,
    v: (u8, u8, u8, u8),
)
    requires { 15 ≤ length out.old }
    ensures { out.new ≡ overwritten (front_maker d (ManufacturerID.Extended a b) ((2, family) ∷ (2, member) ∷ (1, v.0) ∷ (1, v.1) ∷ (1, v.2) ∷ (1, v.3) ∷ [])) out.old }
{
    let (first, second, third, fourth) = v;
    let f = (family as u64).min(LARGEST_U14);
    let m = (member as u64).min(LARGEST_U14);
    let row = [
        0x7E,
        d.min(127) as u8,
        0x06,
        0x02,
        0x00,
        a.min(127),
        b.min(127),
        (f % 128) as u8,
        (f / 128) as u8,
        (m % 128) as u8,
        (m / 128) as u8,
        first.min(127),
        second.min(127),
        third.min(127),
        fourth.min(127),
    ];
    bytes::copy(out, &row);
}

// Writes General MIDI turned on or off; b is the second byte of the head.
fn put_midi(out: &mut [u8], d: u64, b: u8)
    requires { 4 ≤ length out.old }
    ensures { out.new ≡ overwritten (start_2 d 0x09 b []) out.old }
{
    bytes::copy(out, &[0x7E, d.min(127) as u8, 0x09, b.min(127)]);
}

// Writes a handshake message with the number n of a packet; a is the head.
pub fn put_handshake(out: &mut [u8], d: u64, a: u64, n: u8)
    requires { 4 ≤ length out.old }
    ensures { out.new ≡ overwritten (start_1 d a ((1, n) ∷ [])) out.old }
{
    bytes::copy(out, &[0x7E, d.min(127) as u8, a.min(127) as u8, n.min(127)]);
}

// Writes an identity reply.
pub fn put_identity_reply(out: &mut [u8], d: u64, r: IdentityReply)
    requires { size_maker r.id ≤ length out.old }
    ensures { out.new ≡ overwritten (front_reply d r) out.old }
{
    let v = r.software_revision;
    match r.id {
        ManufacturerID::OneByte(b) => put_one_byte_reply(out, d, b, r.family, r.family_member, v),
        ManufacturerID::Extended(a, b) => put_extended_reply(
            out,
            d,
            a,
            b,
            r.family,
            r.family_member,
            v,
        ),
    }
}

// Writes a General MIDI message.
pub fn put_general_midi(out: &mut [u8], d: u64, g: GeneralMidi)
    requires { 4 ≤ length out.old }
    ensures { out.new ≡ overwritten (front_midi d g) out.old }
{
    match g {
        GeneralMidi::GM1 => put_midi(out, d, 1),
        GeneralMidi::Off => put_midi(out, d, 2),
        GeneralMidi::GM2 => put_midi(out, d, 3),
    }
}
