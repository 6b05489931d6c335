// Readers of sample names, extended headers, extended loop points and requests for these.
// Kept beside the plain ones as pairs, for the reason of sample_dump.
ghost use Rattle.messages.specs.declared.head.Head.TheVariants as head;
ghost use Rattle.read_places.specs.Found.{Reads};

use crate::loops;
use messages::sample_dump::{ExtendedSampleDumpMsg, LoopNumber};
use messages::system_exclusive::UniversalNonRealTimeMsg;
use read_places::Found;
use read_places::fields::Fields;
use util::limits::{LEAST_FORMAT, MOST_FORMAT};

// The name of a sample.
pub fn sample_name(f: &Fields) -> Option<Found>
    ensures { Reads head.SampleName result f.now }
{
    let zero = f.at(2);
    let n = f.at(3) as usize;
    let size = f.len();
    if zero != 0 || size != 4 + n {
        return None;
    }
    let name = ExtendedSampleDumpMsg::SampleName {
        sample_num: f.u14_at(0),
    };
    Some(Found {
        from: 4,
        len: n,
        ..Found::numbers(UniversalNonRealTimeMsg::ExtendedSampleDump(name))
    })
}

// A request for the name of a sample.
pub fn sample_name_request(f: &Fields) -> Option<Found>
    ensures { Reads head.SampleNameRequest result f.now }
{
    let request = ExtendedSampleDumpMsg::SampleNameRequest {
        sample_num: f.u14_at(0),
    };
    (f.len() == 2).then_some(Found::numbers(UniversalNonRealTimeMsg::ExtendedSampleDump(request)))
}

// An extended header.
pub fn extended_header(f: &Fields) -> Option<Found>
    ensures { Reads head.ExtendedHeader result f.now }
{
    let format = f.at(2);
    if f.len() != 28 || format < LEAST_FORMAT || MOST_FORMAT < format {
        return None;
    }
    let loop_type = loops::extended_loop_type(f.at(26))?;
    let header = ExtendedSampleDumpMsg::Header {
        sample_num: f.u14_at(0),
        format,
        sample_rate_integer: f.u28_at(3),
        sample_rate_fraction: f.u28_at(7),
        length: f.u35_at(11),
        sustain_loop_start: f.u35_at(16),
        sustain_loop_end: f.u35_at(21),
        loop_type,
        num_channels: f.u7_at(27),
    };
    Some(Found::numbers(UniversalNonRealTimeMsg::ExtendedSampleDump(header)))
}

// The points of an extended loop.
pub fn extended_loop_points(f: &Fields) -> Option<Found>
    ensures { Reads head.ExtendedLoopPointTransmission result f.now }
{
    if f.len() != 15 {
        return None;
    }
    let loop_type = loops::extended_loop_type(f.at(4))?;
    let points = ExtendedSampleDumpMsg::LoopPointTransmission {
        sample_num: f.u14_at(0),
        loop_num: loops::loop_number(f.u14_at(2), LoopNumber::DeleteAll),
        loop_type,
        start_addr: f.u35_at(5),
        end_addr: f.u35_at(10),
    };
    Some(Found::numbers(UniversalNonRealTimeMsg::ExtendedSampleDump(points)))
}

// A request for the points of an extended loop.
pub fn extended_loop_request(f: &Fields) -> Option<Found>
    ensures { Reads head.ExtendedLoopPointsRequest result f.now }
{
    let request = ExtendedSampleDumpMsg::LoopPointsRequest {
        sample_num: f.u14_at(0),
        loop_num: loops::loop_number(f.u14_at(2), LoopNumber::RequestAll),
    };
    (f.len() == 4).then_some(Found::numbers(UniversalNonRealTimeMsg::ExtendedSampleDump(request)))
}
