// Readers of sample dump headers, packets, requests, loop points and requests for them.
// Kept beside the extended ones as pairs: each head is a row of the layouts, which its clause names; one function over two rows would take the head,
// the length, the table of loop types, the reader of addresses and the message.
ghost use Rattle.std.specs.Prelude.{◌≡◌};
ghost use Rattle.messages.specs.declared.head.Head.TheVariants as head;
ghost use Rattle.messages.specs.Layouts.{form};
ghost use Rattle.read_places.specs.Found.{Reads, is_read};

use crate::loops;
use messages::sample_dump::{LoopNumber, SampleDumpMsg};
use messages::system_exclusive::UniversalNonRealTimeMsg;
use read_places::Found;
use read_places::fields::Fields;
use util::limits::{LEAST_FORMAT, MOST_FORMAT, SAMPLE_BYTES};

// The bytes of a packet's fields: its number and the sample bytes.
const PACKET_FIELDS: usize = 1 + SAMPLE_BYTES;

// A sample dump header.
pub fn header(f: &Fields) -> Option<Found>
    ensures { Reads head.SampleDumpHeader result f.now }
{
    let format = f.at(2);
    if f.len() != 16 || format < LEAST_FORMAT || MOST_FORMAT < format {
        return None;
    }
    let loop_type = loops::loop_type(f.at(15))?;
    let header = SampleDumpMsg::Header {
        sample_num: f.u14_at(0),
        format,
        period: f.u21_at(3),
        length: f.u21_at(6),
        sustain_loop_start: f.u21_at(9),
        sustain_loop_end: f.u21_at(12),
        loop_type,
    };
    Some(Found::numbers(UniversalNonRealTimeMsg::SampleDump(header)))
}

// Whether bytes are the fields of a sample dump header.
pub fn is_header(f: &Fields) -> bool
    ensures { result ≡ is_read ((form head.SampleDumpHeader).read f.now) }
{
    header(f).is_some()
}

// A packet of 120 sample bytes.
pub fn packet(f: &Fields) -> Option<Found>
    ensures { Reads head.SampleDumpPacket result f.now }
{
    if f.len() != PACKET_FIELDS {
        return None;
    }
    let packet = SampleDumpMsg::Packet {
        running_count: f.u7_at(0),
    };
    Some(Found {
        from: 1,
        len: SAMPLE_BYTES,
        ..Found::numbers(UniversalNonRealTimeMsg::SampleDump(packet))
    })
}

// Whether bytes are the fields of a packet.
pub fn is_packet(f: &Fields) -> bool
    ensures { result ≡ is_read ((form head.SampleDumpPacket).read f.now) }
{
    f.len() == PACKET_FIELDS
}

// A request for a sample.
pub fn request(f: &Fields) -> Option<Found>
    ensures { Reads head.SampleDumpRequest result f.now }
{
    let request = SampleDumpMsg::Request {
        sample_num: f.u14_at(0),
    };
    (f.len() == 2).then_some(Found::numbers(UniversalNonRealTimeMsg::SampleDump(request)))
}

// The points of a loop.
pub fn loop_points(f: &Fields) -> Option<Found>
    ensures { Reads head.LoopPointTransmission result f.now }
{
    if f.len() != 11 {
        return None;
    }
    let loop_type = loops::loop_type(f.at(4))?;
    let points = SampleDumpMsg::LoopPointTransmission {
        sample_num: f.u14_at(0),
        loop_num: loops::loop_number(f.u14_at(2), LoopNumber::DeleteAll),
        loop_type,
        start_addr: f.u21_at(5),
        end_addr: f.u21_at(8),
    };
    Some(Found::numbers(UniversalNonRealTimeMsg::SampleDump(points)))
}

// A request for the points of a loop.
pub fn loop_request(f: &Fields) -> Option<Found>
    ensures { Reads head.LoopPointsRequest result f.now }
{
    let request = SampleDumpMsg::LoopPointsRequest {
        sample_num: f.u14_at(0),
        loop_num: loops::loop_number(f.u14_at(2), LoopNumber::RequestAll),
    };
    (f.len() == 4).then_some(Found::numbers(UniversalNonRealTimeMsg::SampleDump(request)))
}
