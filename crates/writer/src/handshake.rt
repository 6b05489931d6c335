// Handshake messages: frames of six bytes.
// Kept as an output and a place in it side by side, as the public function has them.
ghost use Rattle.std.specs.Prelude.{◌≡◌, ◌≤◌, length};
ghost use Rattle.util.specs.Splice.{overwritten};
ghost use Rattle.messages.specs.Fields.{device_byte};
ghost use Rattle.messages.specs.Messages.{given};
ghost use Rattle.writer.specs.Write.{written_at, output_after};
ghost use Rattle.writer.specs.Handshakes.{handshake_of, handshake_frame};

use crate::has_room;
use messages::system_exclusive::{DeviceID, UniversalNonRealTimeMsg};
use util::bytes;
use util::refusal::Refusal;

// The head and the number of a handshake message. None: another message.
pub fn handshake_of(m: UniversalNonRealTimeMsg) -> Option<(u8, u8)>
    ensures { result ≡ handshake_of m }
{
    match m {
        UniversalNonRealTimeMsg::EOF => Some((0x7B, 0)),
        UniversalNonRealTimeMsg::Wait => Some((0x7C, 0)),
        UniversalNonRealTimeMsg::Cancel => Some((0x7D, 0)),
        UniversalNonRealTimeMsg::NAK(n) => Some((0x7E, n)),
        UniversalNonRealTimeMsg::ACK(n) => Some((0x7F, n)),
        _ => None,
    }
}

// Writes the frame of a handshake message.
#[tactic(auto, unfolding(crate::specs::Frames::wire))]
fn put_handshake(out: &mut [u8], d: u8, a: u8, n: u8)
    requires { 6 ≤ length out.old }
    ensures { out.new ≡ overwritten (handshake_frame d a n) out.old }
{
    let row = [0xF0, 0x7E, d.min(127), a.min(127), n.min(127), 0xF7];
    bytes::copy(out, &row);
}

// Writes the frame of a handshake message at a place of the output, or refuses it for want of space.
pub fn write_handshake(
    device: DeviceID,
    a: u8,
    n: u8,
    out: &mut [u8],
    place: usize,
) -> Result<usize, Refusal>
    ensures { (result ≡ written_at (given (handshake_frame (device_byte device) a n)) (length out.old) place)
        × (out.new ≡ output_after (given (handshake_frame (device_byte device) a n)) out.old place) }
{
    if !has_room(out.len(), place, 6) {
        return Err(Refusal::Space);
    }
    let d = u8::from(device);
    put_handshake(&mut out[place..], d, a, n);
    Ok(6)
}
