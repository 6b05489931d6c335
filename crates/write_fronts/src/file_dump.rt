// The fronts of file dumps.
// Kept as one function for each front: fronts differ in their bytes, and each is one array.
// Kept as two parameters, an output and the number of a device: a front has both beside its own fields, and a struct of both would be made for each.
ghost use Rattle.std.specs.Prelude.{◌≡◌, ◌≤◌, length};
ghost use Rattle.util.specs.Splice.{overwritten};
ghost use Rattle.write_fronts.specs.Fronts.{front_file};
ghost use Rattle.write_fronts.specs.Sizes.{size_file};

use crate::values::LARGEST_U28;
use messages::file_dump::{FileDumpMsg, FileType};
use messages::system_exclusive::DeviceID;
use util::bytes;

// Writes a header.
fn put_header(out: &mut [u8], d: u64, sender: DeviceID, kind: FileType, len: u32)
    requires { 13 ≤ length out.old }
    ensures { out.new ≡ overwritten (front_file d (FileDumpMsg.Header sender kind len)) out.old }
{
    let letters = <[u8; 4]>::from(kind);
    let l = (len as u64).min(LARGEST_U28);
    let row = [
        0x7E,
        d.min(127) as u8,
        0x07,
        0x01,
        u8::from(sender).min(127),
        letters[0].min(127),
        letters[1].min(127),
        letters[2].min(127),
        letters[3].min(127),
        (l % 128) as u8,
        (l / 128 % 128) as u8,
        (l / 128 / 128 % 128) as u8,
        (l / 128 / 128 / 128) as u8,
    ];
    bytes::copy(out, &row);
}

// Writes the front of a packet of count c.
fn put_packet(out: &mut [u8], d: u64, c: u8)
    requires { 5 ≤ length out.old }
    ensures { out.new ≡ overwritten (front_file d (FileDumpMsg.Packet c)) out.old }
{
    bytes::copy(out, &[0x7E, d.min(127) as u8, 0x07, 0x02, c.min(127)]);
}

// Writes a request.
fn put_request(out: &mut [u8], d: u64, requester: DeviceID, kind: FileType)
    requires { 9 ≤ length out.old }
    ensures { out.new ≡ overwritten (front_file d (FileDumpMsg.Request requester kind)) out.old }
{
    let letters = <[u8; 4]>::from(kind);
    let row = [
        0x7E,
        d.min(127) as u8,
        0x07,
        0x03,
        u8::from(requester).min(127),
        letters[0].min(127),
        letters[1].min(127),
        letters[2].min(127),
        letters[3].min(127),
    ];
    bytes::copy(out, &row);
}

// Writes the front of a file dump message.
pub fn put(out: &mut [u8], d: u64, m: FileDumpMsg)
    requires { size_file m ≤ length out.old }
    ensures { out.new ≡ overwritten (front_file d m) out.old }
{
    match m {
        FileDumpMsg::Header {
            sender_device,
            file_type,
            length,
        } => put_header(out, d, sender_device, file_type, length),
        FileDumpMsg::Packet { running_count } => put_packet(out, d, running_count),
        FileDumpMsg::Request {
            requester_device,
            file_type,
        } => put_request(out, d, requester_device, file_type),
    }
}
