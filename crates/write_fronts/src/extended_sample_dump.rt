// The fronts of extended sample dumps.
// Kept as one function for each front: fronts differ in their bytes, and each is one array.
// Kept as two parameters, an output and the number of a device: a front has both beside its own fields, and a struct of both would be made for each.
// Kept as a number of a device and fields in wire order: a message has them so.
ghost use Rattle.std.specs.Prelude.{◌≡◌, ◌∷◌, [], ◌≤◌, length};
ghost use Rattle.util.specs.Splice.{overwritten};
ghost use Rattle.messages.specs.Fields.{loop_value};
ghost use Rattle.messages.specs.Structures.{extended_loop_byte};
ghost use Rattle.write_fronts.specs.Fronts.{clamp, spell, start_2, front_extended};
ghost use Rattle.write_fronts.specs.Sizes.{size_extended};

use crate::sample_dump::put_loop_request;
use crate::values::{LARGEST_U28, LARGEST_U35, clamp};
use messages::sample_dump::{ExtendedLoopType, ExtendedSampleDumpMsg, LoopNumber, loop_value};
use util::bytes;
use util::limits::LARGEST_U14;

// Writes the front of the name of sample n.
fn put_name(out: &mut [u8], d: u64, n: u16)
    requires { 7 ≤ length out.old }
    ensures { out.new ≡ overwritten (front_extended d (ExtendedSampleDumpMsg.SampleName n)) out.old }
{
    let s = (n as u64).min(LARGEST_U14);
    let row = [
        0x7E,
        d.min(127) as u8,
        0x05,
        0x03,
        (s % 128) as u8,
        (s / 128) as u8,
        0x00,
    ];
    bytes::copy(out, &row);
}

// Writes a request for the name of sample n.
fn put_name_request(out: &mut [u8], d: u64, n: u16)
    requires { 6 ≤ length out.old }
    ensures { out.new ≡ overwritten (front_extended d (ExtendedSampleDumpMsg.SampleNameRequest n)) out.old }
{
    let s = (n as u64).min(LARGEST_U14);
    let row = [
        0x7E,
        d.min(127) as u8,
        0x05,
        0x04,
        (s % 128) as u8,
        (s / 128) as u8,
    ];
    bytes::copy(out, &row);
}

// Writes a header up to its rate.
fn put_header_rate(out: &mut [u8], d: u64, sample: u16, format: u8, whole: u32, fraction: u32)
    requires { 15 ≤ length out.old }
    ensures { out.new ≡ overwritten (start_2 d 0x05 0x05 ((2, sample) ∷ (1, clamp 8 28 format) ∷ (4, whole) ∷ (4, fraction) ∷ [])) out.old }
{
    let n = (sample as u64).min(LARGEST_U14);
    let w = (whole as u64).min(LARGEST_U28);
    let r = (fraction as u64).min(LARGEST_U28);
    let row = [
        0x7E,
        d.min(127) as u8,
        0x05,
        0x05,
        (n % 128) as u8,
        (n / 128) as u8,
        clamp(format as u64, 8, 28) as u8,
        (w % 128) as u8,
        (w / 128 % 128) as u8,
        (w / 128 / 128 % 128) as u8,
        (w / 128 / 128 / 128) as u8,
        (r % 128) as u8,
        (r / 128 % 128) as u8,
        (r / 128 / 128 % 128) as u8,
        (r / 128 / 128 / 128) as u8,
    ];
    bytes::copy(out, &row);
}

// Writes what follows the rate of a header.
fn put_header_points(
    out: &mut [u8],
    len: u64,
    start: u64,
    end: u64,
    kind: ExtendedLoopType,
    channels: u8,
)
    requires { 17 ≤ length out.old }
    ensures { out.new ≡ overwritten (spell ((5, len) ∷ (5, start) ∷ (5, end) ∷ (1, extended_loop_byte kind) ∷ (1, channels) ∷ [])) out.old }
{
    let l = len.min(LARGEST_U35);
    let s = start.min(LARGEST_U35);
    let e = end.min(LARGEST_U35);
    let row = [
        (l % 128) as u8,
        (l / 128 % 128) as u8,
        (l / 128 / 128 % 128) as u8,
        (l / 128 / 128 / 128 % 128) as u8,
        (l / 128 / 128 / 128 / 128) as u8,
        (s % 128) as u8,
        (s / 128 % 128) as u8,
        (s / 128 / 128 % 128) as u8,
        (s / 128 / 128 / 128 % 128) as u8,
        (s / 128 / 128 / 128 / 128) as u8,
        (e % 128) as u8,
        (e / 128 % 128) as u8,
        (e / 128 / 128 % 128) as u8,
        (e / 128 / 128 / 128 % 128) as u8,
        (e / 128 / 128 / 128 / 128) as u8,
        u8::from(kind).min(127),
        channels.min(127),
    ];
    bytes::copy(out, &row);
}

// Writes the points of a loop of sample n.
fn put_loop_points(
    out: &mut [u8],
    d: u64,
    n: u16,
    number: LoopNumber,
    kind: ExtendedLoopType,
    start: u64,
    end: u64,
)
    requires { 19 ≤ length out.old }
    ensures { out.new ≡ overwritten (front_extended d (ExtendedSampleDumpMsg.LoopPointTransmission n number kind start end)) out.old }
{
    let m = (n as u64).min(LARGEST_U14);
    let l = loop_value(number).min(LARGEST_U14);
    let s = start.min(LARGEST_U35);
    let e = end.min(LARGEST_U35);
    let row = [
        0x7E,
        d.min(127) as u8,
        0x05,
        0x06,
        (m % 128) as u8,
        (m / 128) as u8,
        (l % 128) as u8,
        (l / 128) as u8,
        u8::from(kind).min(127),
        (s % 128) as u8,
        (s / 128 % 128) as u8,
        (s / 128 / 128 % 128) as u8,
        (s / 128 / 128 / 128 % 128) as u8,
        (s / 128 / 128 / 128 / 128) as u8,
        (e % 128) as u8,
        (e / 128 % 128) as u8,
        (e / 128 / 128 % 128) as u8,
        (e / 128 / 128 / 128 % 128) as u8,
        (e / 128 / 128 / 128 / 128) as u8,
    ];
    bytes::copy(out, &row);
}

// Writes a header.
fn put_header(
    out: &mut [u8],
    d: u64,
    sample: u16,
    format: u8,
    whole: u32,
    fraction: u32,
    len: u64,
    start: u64,
    end: u64,
    kind: ExtendedLoopType,
    channels: u8,
)
    requires { 32 ≤ length out.old }
    ensures { out.new ≡ overwritten (front_extended d (ExtendedSampleDumpMsg.Header sample format whole fraction len start end kind channels)) out.old }
{
    put_header_rate(out, d, sample, format, whole, fraction);
    put_header_points(&mut out[15..], len, start, end, kind, channels);
}

// Writes the front of an extended sample dump message.
pub fn put(out: &mut [u8], d: u64, m: ExtendedSampleDumpMsg)
    requires { size_extended m ≤ length out.old }
    ensures { out.new ≡ overwritten (front_extended d m) out.old }
{
    match m {
        ExtendedSampleDumpMsg::SampleName { sample_num } => put_name(out, d, sample_num),
        ExtendedSampleDumpMsg::SampleNameRequest { sample_num } => put_name_request(
            out, d, sample_num,
        ),
        ExtendedSampleDumpMsg::Header {
            sample_num,
            format,
            sample_rate_integer,
            sample_rate_fraction,
            length,
            sustain_loop_start,
            sustain_loop_end,
            loop_type,
            num_channels,
        } => put_header(
            out,
            d,
            sample_num,
            format,
            sample_rate_integer,
            sample_rate_fraction,
            length,
            sustain_loop_start,
            sustain_loop_end,
            loop_type,
            num_channels,
        ),
        ExtendedSampleDumpMsg::LoopPointTransmission {
            sample_num,
            loop_num,
            loop_type,
            start_addr,
            end_addr,
        } => put_loop_points(
            out, d, sample_num, loop_num, loop_type, start_addr, end_addr,
        ),
        ExtendedSampleDumpMsg::LoopPointsRequest {
            sample_num,
            loop_num,
        } => put_loop_request(out, d, 7, sample_num, loop_num),
    }
}
