// Sample dump headers and packets, written from their fields.
// Kept as an output and a place in it, and as fields in wire order, as the public function has them.
ghost use Rattle.std.specs.Prelude.{◌≡◌, true, false, [], ◌++◌, ◌≤◌, length};
ghost use Rattle.util.specs.Splice.{overwritten};
ghost use Rattle.messages.specs.Messages.{write_of};
ghost use Rattle.write_fronts.specs.Fronts.{front_sample};
ghost use Rattle.write_lists.specs.Parts.{part_sample};
ghost use Rattle.writer.specs.Frames.{wire};
ghost use Rattle.writer.specs.Write.{written_at, output_after};
ghost use Rattle.numbers_write.specs.Messages.{header_message, packet_message};

use messages::sample_dump::{LoopType, SampleDumpMsg};
use messages::system_exclusive::DeviceID;
use util::refusal::Refusal;
use writer::has_room;

// Writes the frame of a sample dump header.
fn put_header(
    out: &mut [u8],
    d: u64,
    sample: u16,
    format: u8,
    period: u32,
    len: u32,
    start: u32,
    end: u32,
    kind: LoopType,
)
    requires { 21 ≤ length out.old }
    ensures { out.new ≡ overwritten (wire false (front_sample d (SampleDumpMsg.Header sample format period len start end kind) ++ [])) out.old }
{
    out[0] = 0xF0;
    let f = write_fronts::values::clamp(format as u64, 8, 28);
    let t = u8::from(kind) as u64;
    write_fronts::sample_dump::put_header(
        &mut out[1..],
        d,
        sample,
        f,
        format,
        period,
        len,
        start,
        end,
        t,
        kind,
    );
    out[20] = 0xF7;
}

// Writes the frame of a sample dump header at a place of the output.
// Kept as one function for each frame: it tests the room and puts the frame, and a closure for the second would take as many parameters.
pub fn write_header(
    device: DeviceID,
    sample: u16,
    format: u8,
    period: u32,
    len: u32,
    start: u32,
    end: u32,
    kind: LoopType,
    out: &mut [u8],
    place: usize,
) -> Result<usize, Refusal>
    ensures { (result ≡ written_at (write_of (header_message device sample format period len start end kind)) (length out.old) place)
        × (out.new ≡ output_after (write_of (header_message device sample format period len start end kind)) out.old place) }
{
    if !has_room(out.len(), place, 21) {
        return Err(Refusal::Space);
    }
    let d = u8::from(device) as u64;
    put_header(
        &mut out[place..],
        d,
        sample,
        format,
        period,
        len,
        start,
        end,
        kind,
    );
    Ok(21)
}

// Writes the frame of a sample dump packet.
fn put_packet(out: &mut [u8], d: u64, count: u8, text: &[u8])
    requires { 127 ≤ length out.old }
    ensures { out.new ≡ overwritten (wire true (front_sample d (SampleDumpMsg.Packet count) ++ part_sample (SampleDumpMsg.Packet count) text.now)) out.old }
{
    out[0] = 0xF0;
    write_fronts::sample_dump::put_packet(&mut out[1..], d, count);
    write_lists::text::put_samples(&mut out[5..], text);
    let s = util::checksum::checksum(&out[1..125]);
    out[125] = s;
    out[126] = 0xF7;
}

// Writes the frame of a sample dump packet at a place of the output.
pub fn write_packet(
    device: DeviceID,
    count: u8,
    text: &[u8],
    out: &mut [u8],
    place: usize,
) -> Result<usize, Refusal>
    ensures { (result ≡ written_at (write_of (packet_message device count text.now)) (length out.old) place)
        × (out.new ≡ output_after (write_of (packet_message device count text.now)) out.old place) }
{
    if !has_room(out.len(), place, 127) {
        return Err(Refusal::Space);
    }
    let d = u8::from(device) as u64;
    put_packet(&mut out[place..], d, count, text);
    Ok(127)
}
