// The fronts of sample dumps.
// Kept as one function for each front: fronts differ in their bytes, and each is one array.
// Kept as two parameters, an output and the number of a device: a front has both beside its own fields, and a struct of both would be made for each.
// Kept as a number of a device and fields in wire order: a message has them so.
ghost use Rattle.std.specs.Prelude.{◌≡◌, ◌∷◌, [], ◌≤◌, length};
ghost use Rattle.util.specs.Splice.{overwritten};
ghost use Rattle.messages.specs.Fields.{loop_value};
ghost use Rattle.messages.specs.Structures.{loop_byte};
ghost use Rattle.write_fronts.specs.Fronts.{clamp, start_2, front_sample};
ghost use Rattle.write_fronts.specs.Sizes.{size_sample};

use crate::values::{LARGEST_U21, clamp};
use messages::sample_dump::{LoopNumber, LoopType, SampleDumpMsg, loop_value};
use util::bytes;
use util::limits::LARGEST_U14;

// Writes a header; f is the format held to its range and t the byte of the loop type.
pub fn put_header(
    out: &mut [u8],
    d: u64,
    sample: u16,
    f: u64,
    format: u8,
    period: u32,
    len: u32,
    start: u32,
    end: u32,
    t: u64,
    kind: LoopType,
)
    requires { (19 ≤ length out.old) × (f ≡ clamp 8 28 format) × (t ≡ loop_byte kind) }
    ensures { out.new ≡ overwritten (front_sample d (SampleDumpMsg.Header sample format period len start end kind)) out.old }
{
    let n = (sample as u64).min(LARGEST_U14);
    let p = (period as u64).min(LARGEST_U21);
    let l = (len as u64).min(LARGEST_U21);
    let first = (start as u64).min(LARGEST_U21);
    let last = (end as u64).min(LARGEST_U21);
    let row = [
        0x7E,
        d.min(127) as u8,
        0x01,
        (n % 128) as u8,
        (n / 128) as u8,
        f.min(127) as u8,
        (p % 128) as u8,
        (p / 128 % 128) as u8,
        (p / 128 / 128) as u8,
        (l % 128) as u8,
        (l / 128 % 128) as u8,
        (l / 128 / 128) as u8,
        (first % 128) as u8,
        (first / 128 % 128) as u8,
        (first / 128 / 128) as u8,
        (last % 128) as u8,
        (last / 128 % 128) as u8,
        (last / 128 / 128) as u8,
        t.min(127) as u8,
    ];
    bytes::copy(out, &row);
}

// Writes a packet of count c.
pub fn put_packet(out: &mut [u8], d: u64, c: u8)
    requires { 4 ≤ length out.old }
    ensures { out.new ≡ overwritten (front_sample d (SampleDumpMsg.Packet c)) out.old }
{
    bytes::copy(out, &[0x7E, d.min(127) as u8, 0x02, c.min(127)]);
}

// Writes a request for sample n.
fn put_request(out: &mut [u8], d: u64, n: u16)
    requires { 5 ≤ length out.old }
    ensures { out.new ≡ overwritten (front_sample d (SampleDumpMsg.Request n)) out.old }
{
    let s = (n as u64).min(LARGEST_U14);
    bytes::copy(
        out,
        &[
            0x7E,
            d.min(127) as u8,
            0x03,
            (s % 128) as u8,
            (s / 128) as u8,
        ],
    );
}

// Writes the points of a loop.
fn put_loop_points(
    out: &mut [u8],
    d: u64,
    sample: u16,
    number: LoopNumber,
    kind: LoopType,
    start: u32,
    end: u32,
)
    requires { 15 ≤ length out.old }
    ensures { out.new ≡ overwritten (front_sample d (SampleDumpMsg.LoopPointTransmission sample number kind start end)) out.old }
{
    let n = (sample as u64).min(LARGEST_U14);
    let l = loop_value(number).min(LARGEST_U14);
    let k = u8::from(kind).min(127);
    let s = (start as u64).min(LARGEST_U21);
    let e = (end as u64).min(LARGEST_U21);
    let row = [
        0x7E,
        d.min(127) as u8,
        0x05,
        0x01,
        (n % 128) as u8,
        (n / 128) as u8,
        (l % 128) as u8,
        (l / 128) as u8,
        k,
        (s % 128) as u8,
        (s / 128 % 128) as u8,
        (s / 128 / 128) as u8,
        (e % 128) as u8,
        (e / 128 % 128) as u8,
        (e / 128 / 128) as u8,
    ];
    bytes::copy(out, &row);
}

// Writes a request for the points of a loop of sample n; b is the second byte of the head.
pub fn put_loop_request(out: &mut [u8], d: u64, b: u64, n: u16, number: LoopNumber)
    requires { 8 ≤ length out.old }
    ensures { out.new ≡ overwritten (start_2 d 0x05 b ((2, n) ∷ (2, loop_value number) ∷ [])) out.old }
{
    let s = (n as u64).min(LARGEST_U14);
    let l = loop_value(number).min(LARGEST_U14);
    let row = [
        0x7E,
        d.min(127) as u8,
        0x05,
        b.min(127) as u8,
        (s % 128) as u8,
        (s / 128) as u8,
        (l % 128) as u8,
        (l / 128) as u8,
    ];
    bytes::copy(out, &row);
}

// Writes the front of a sample dump message.
pub fn put(out: &mut [u8], d: u64, m: SampleDumpMsg)
    requires { size_sample m ≤ length out.old }
    ensures { out.new ≡ overwritten (front_sample d m) out.old }
{
    match m {
        SampleDumpMsg::Header {
            sample_num,
            format,
            period,
            length,
            sustain_loop_start,
            sustain_loop_end,
            loop_type,
        } => {
            let f = clamp(format as u64, 8, 28);
            let t = u8::from(loop_type) as u64;
            put_header(
                out,
                d,
                sample_num,
                f,
                format,
                period,
                length,
                sustain_loop_start,
                sustain_loop_end,
                t,
                loop_type,
            )
        }
        SampleDumpMsg::Packet { running_count } => put_packet(out, d, running_count),
        SampleDumpMsg::Request { sample_num } => put_request(out, d, sample_num),
        SampleDumpMsg::LoopPointTransmission {
            sample_num,
            loop_num,
            loop_type,
            start_addr,
            end_addr,
        } => put_loop_points(
            out, d, sample_num, loop_num, loop_type, start_addr, end_addr,
        ),
        SampleDumpMsg::LoopPointsRequest {
            sample_num,
            loop_num,
        } => put_loop_request(out, d, 2, sample_num, loop_num),
    }
}
