// Reads the fields of file dumps, and the data of a file packet into lent places.
// Kept as one function for each head: each is a row of the layouts, which its clause names.
#![tactic(auto)]

pub mod fields;
pub mod packed;

ghost use Rattle.std.specs.Prelude.{◌≡◌, ◌≤◌, length};
ghost use Rattle.util.specs.Groups.{Seven};
ghost use Rattle.util.specs.Splice.{overwritten};
ghost use Rattle.messages.specs.declared.head.Head.TheVariants as head;
ghost use Rattle.read_places.specs.Places.{data_at};
ghost use Rattle.read_places.specs.Found.{Reads};

use messages::file_dump::FileDumpMsg;
use messages::system_exclusive::{DeviceID, UniversalNonRealTimeMsg};
use read_places::Found;
use read_places::fields::Fields;
use util::limits::{MOST_DATA, MOST_NAME};

// A file header: sender device, type, length, and a name of at most 1,024 bytes.
pub fn header(f: &Fields) -> Option<Found>
    ensures { Reads head.FileDumpHeader result f.now }
{
    let size = f.len();
    if size < 9 || 9 + MOST_NAME < size {
        return None;
    }
    let header = FileDumpMsg::Header {
        sender_device: DeviceID::from(f.u7_at(0)),
        file_type: fields::type_at(f.bytes),
        length: f.u28_at(5),
    };
    Some(Found {
        from: 9,
        len: size - 9,
        ..Found::numbers(UniversalNonRealTimeMsg::FileDump(header))
    })
}

// A file request: device, type, and a name of at most 1,024 bytes.
pub fn request(f: &Fields) -> Option<Found>
    ensures { Reads head.FileDumpRequest result f.now }
{
    let size = f.len();
    if size < 5 || 5 + MOST_NAME < size {
        return None;
    }
    let request = FileDumpMsg::Request {
        requester_device: DeviceID::from(f.u7_at(0)),
        file_type: fields::type_at(f.bytes),
    };
    Some(Found {
        from: 5,
        len: size - 5,
        ..Found::numbers(UniversalNonRealTimeMsg::FileDump(request))
    })
}

// A file packet: count, the count byte, and packed data of at most 111 bytes.
pub fn packet(f: &Fields) -> Option<Found>
    ensures { Reads head.FileDumpPacket result f.now }
{
    let size = f.len();
    if size < 2 {
        return None;
    }
    let count = packed::data_size(size - 2);
    let count_byte = f.at(1) as usize;
    let none_over = packed::is_none_over(&f.bytes[2..]);
    if MOST_DATA < count || count_byte != count + count / 7 || !none_over {
        return None;
    }
    let packet = FileDumpMsg::Packet {
        running_count: f.u7_at(0),
    };
    Some(Found {
        at: 2,
        count,
        ..Found::numbers(UniversalNonRealTimeMsg::FileDump(packet))
    })
}

// Writes the data of the packed bytes from a place on.
// Kept as a slice and a place in it, as the other writers of a list take them.
pub fn put_data(out: &mut [u8], f: &[u8], at: usize)
    requires { Seven f.now × (at ≤ length f.now) × (length (data_at f.now at) ≤ length out.old) }
    ensures { out.new ≡ overwritten (data_at f.now at) out.old }
{
    let (groups, rest) = f[at..].as_chunks::<8>();
    for (n, group) in groups.iter().enumerate() {
        packed::put_group(&mut out[7 * n..], group);
    }
    packed::put_rest(&mut out[7 * groups.len()..], rest);
}
