// What the fields of identity, General MIDI and handshake messages say: a reader for each head.
#![tactic(auto)]

ghost use Rattle.std.specs.Prelude.{◌≡◌, ◌≤◌, length};
ghost use Rattle.messages.specs.declared.head.Head.TheVariants as head;
ghost use Rattle.messages.specs.MessageOf.{head_midi};
ghost use Rattle.messages.specs.Structures.{reply};
ghost use Rattle.read_places.specs.Found.{Reads, found};
ghost use Rattle.read_system_exclusive.specs.Replies.{after_maker_at, one_zero};

use messages::general_midi::GeneralMidi;
use messages::system_exclusive::{IdentityReply, ManufacturerID, UniversalNonRealTimeMsg};
use read_places::Found;
use read_places::fields::Fields;
use util::limits::MOST_MAKER;

// The fields of 06 01: none.
pub fn identity_request(f: &Fields) -> Option<Found>
    ensures { Reads head.IdentityRequest result f.now }
{
    (f.len() == 0).then_some(Found::numbers(UniversalNonRealTimeMsg::IdentityRequest))
}

// An identity reply: its maker, and the eight bytes from i on.
// Kept as `Fields` and a place in them: the same fields serve two places.
fn reply_of(f: &Fields, id: ManufacturerID, i: usize) -> Found
    requires { i ≤ 3 }
    ensures { result ≡ found (UniversalNonRealTimeMsg.IdentityReply (reply id (after_maker_at f.now i))) 0 0 0 0 }
{
    let software_revision = (
        f.u7_at(i + 4),
        f.u7_at(i + 5),
        f.u7_at(i + 6),
        f.u7_at(i + 7),
    );
    Found::numbers(UniversalNonRealTimeMsg::IdentityReply(IdentityReply {
        id,
        family: f.u14_at(i),
        family_member: f.u14_at(i + 2),
        software_revision,
    }))
}

// The nine bytes of a reply whose maker has one byte, 01 to 7C.
fn one_byte_reply(f: &Fields) -> Option<Found>
    requires { length f.now ≡ 9 }
    ensures { Reads head.IdentityReply result f.now }
{
    let maker = f.bytes[0];
    if maker < 1 || MOST_MAKER < maker {
        return None;
    }
    Some(reply_of(f, ManufacturerID::OneByte(maker), 1))
}

// The eleven bytes of a reply whose maker has 00 and two bytes.
fn extended_reply(f: &Fields) -> Option<Found>
    requires { length f.now ≡ 11 }
    ensures { Reads head.IdentityReply result f.now }
{
    let maker = ManufacturerID::Extended(f.u7_at(1), f.u7_at(2));
    (f.bytes[0] == 0).then_some(reply_of(f, maker, 3))
}

// The fields of 06 02: maker, family, member, revision.
pub fn identity_reply(f: &Fields) -> Option<Found>
    ensures { Reads head.IdentityReply result f.now }
{
    match f.len() {
        9 => one_byte_reply(f),
        11 => extended_reply(f),
        _ => None,
    }
}

// The fields of 09 01 to 09 03: none.
pub fn general_midi(f: &Fields, mode: GeneralMidi) -> Option<Found>
    ensures { Reads (head_midi mode) result f.now }
{
    (f.len() == 0).then_some(Found::numbers(UniversalNonRealTimeMsg::GeneralMidi(mode)))
}

// Whether the fields are the one byte 00.
fn is_zero(f: &Fields) -> bool
    ensures { result ≡ one_zero f.now }
{
    f.len() == 1 && f.at(0) == 0
}

// Kept as functions of their own, `eof` to `ack`: each is one expression whose clause names its row.
// The fields of 7B: 00.
pub fn eof(f: &Fields) -> Option<Found>
    ensures { Reads head.EOF result f.now }
{
    is_zero(f).then_some(Found::numbers(UniversalNonRealTimeMsg::EOF))
}

// The fields of 7C: 00.
pub fn wait(f: &Fields) -> Option<Found>
    ensures { Reads head.Wait result f.now }
{
    is_zero(f).then_some(Found::numbers(UniversalNonRealTimeMsg::Wait))
}

// The fields of 7D: 00.
pub fn cancel(f: &Fields) -> Option<Found>
    ensures { Reads head.Cancel result f.now }
{
    is_zero(f).then_some(Found::numbers(UniversalNonRealTimeMsg::Cancel))
}

// The fields of 7E: the number of a packet.
pub fn nak(f: &Fields) -> Option<Found>
    ensures { Reads head.NAK result f.now }
{
    (f.len() == 1).then_some(Found::numbers(UniversalNonRealTimeMsg::NAK(f.u7_at(0))))
}

// The fields of 7F: the number of a packet.
pub fn ack(f: &Fields) -> Option<Found>
    ensures { Reads head.ACK result f.now }
{
    (f.len() == 1).then_some(Found::numbers(UniversalNonRealTimeMsg::ACK(f.u7_at(0))))
}
