// What follows the front of a message.
// Kept as a message, its text and its entries side by side: `Admitted` is writer's own, above this crate.
ghost use Rattle.std.specs.Prelude.{◌≡◌, ◌++◌, ◌+◌, ◌*◌, ◌≤◌, min, length};
ghost use Rattle.std.proofs.Math.Option.{none};
ghost use Rattle.util.specs.Splice.{overwritten};
ghost use Rattle.messages.specs.format.Core.{written};
ghost use Rattle.messages.specs.Fields.{name_of_16, url};
ghost use Rattle.messages.specs.Structures.{scale_2};
ghost use Rattle.write_lists.specs.Writing.{each};
ghost use Rattle.messages.specs.Contents.{contents};
ghost use Rattle.messages.specs.MessageOf.{head_file, fields_file, head_of, fields_of};
ghost use Rattle.write_lists.specs.Parts.{part_sample, part_extended, part_file, part_keys, part_select, part_reference, part_of, size_sample, size_extended, size_file, size_select, size_reference};

use crate::format::{Format, S7, S14, put_each};
use crate::{entries, maps, packing, text};
use messages::file_dump::FileDumpMsg;
use messages::file_reference::{FileReferenceMsg, SelectMap};
use messages::sample_dump::{ExtendedSampleDumpMsg, SampleDumpMsg};
use messages::system_exclusive::UniversalNonRealTimeMsg;
use util::bytes;
use util::limits::MOST_URL;

// Writes what follows the front of a sample dump message.
pub fn put_part_sample(out: &mut [u8], m: SampleDumpMsg, text: &[u8])
    requires { size_sample m ≤ length out.old }
    ensures { out.new ≡ overwritten (part_sample m text.now) out.old }
{
    match m {
        SampleDumpMsg::Header { .. } => {}
        SampleDumpMsg::Packet { .. } => text::put_samples(out, text),
        SampleDumpMsg::Request { .. } => {}
        SampleDumpMsg::LoopPointTransmission { .. } => {}
        SampleDumpMsg::LoopPointsRequest { .. } => {}
    }
}

// Writes what follows the front of an extended sample dump message.
pub fn put_part_extended(out: &mut [u8], m: ExtendedSampleDumpMsg, text: &[u8])
    requires { size_extended m (length text.now) ≤ length out.old }
    ensures { out.new ≡ overwritten (part_extended m text.now) out.old }
{
    match m {
        ExtendedSampleDumpMsg::SampleName { .. } => text::put_sample_name(out, text),
        ExtendedSampleDumpMsg::SampleNameRequest { .. } => {}
        ExtendedSampleDumpMsg::Header { .. } => {}
        ExtendedSampleDumpMsg::LoopPointTransmission { .. } => {}
        ExtendedSampleDumpMsg::LoopPointsRequest { .. } => {}
    }
}

// Writes what follows the front of a file dump message.
pub fn put_part_file(out: &mut [u8], m: FileDumpMsg, text: &[u8])
    requires { (contents (head_file m) (fields_file m text.now) ≡ none) × (size_file m (length text.now) ≤ length out.old) }
    ensures { out.new ≡ overwritten (part_file m text.now) out.old }
{
    match m {
        FileDumpMsg::Header { .. } => bytes::copy(out, text),
        FileDumpMsg::Packet { .. } => packing::put_file_data(out, text),
        FileDumpMsg::Request { .. } => bytes::copy(out, text),
    }
}

// Writes a name and the tunings of 128 keys.
fn put_key_dump(out: &mut [u8], text: &[u8], entries: &[u64])
    requires { 400 ≤ length out.old }
    ensures { out.new ≡ overwritten (written name_of_16 text.now ++ part_keys entries.now) out.old }
{
    text::put_name_16(out, text);
    entries::put_keys(&mut out[16..], entries);
}

// Writes a name, and values after it.
fn put_named<F: Format>(out: &mut [u8], text: &[u8], values: &[F::Value])
    requires { 16 + F.SIZE * length values.now ≤ length out.old }
    ensures { out.new ≡ overwritten (written name_of_16 text.now ++ each F.bytes values.now) out.old }
{
    text::put_name_16(out, text);
    put_each::<F>(&mut out[16..], values);
}

// Writes a name and a scale of two bytes each.
pub fn put_scale_dump_2(out: &mut [u8], text: &[u8], s: [i16; 12])
    requires { 40 ≤ length out.old }
    ensures { out.new ≡ overwritten (written name_of_16 text.now ++ written scale_2 s) out.old }
{
    put_named::<S14>(out, text, &s);
}

// Writes a URL and what a select holds.
fn put_url_select(out: &mut [u8], m: SelectMap, text: &[u8], entries: &[u64])
    requires { min (length text.now) 260 + 1 + size_select m (length entries.now) ≤ length out.old }
    ensures { out.new ≡ overwritten (written url text.now ++ part_select m entries.now) out.old }
{
    text::put_url(out, text);
    let at = text.len().min(MOST_URL) + 1;
    maps::put_select(&mut out[at..], m, entries);
}

// Writes what follows the front of a file reference message.
pub fn put_part_reference(out: &mut [u8], m: FileReferenceMsg, text: &[u8], entries: &[u64])
    requires { size_reference m (length text.now) (length entries.now) ≤ length out.old }
    ensures { out.new ≡ overwritten (part_reference m text.now entries.now) out.old }
{
    match m {
        FileReferenceMsg::Open { .. } => text::put_url(out, text),
        FileReferenceMsg::SelectContents { ctx: _, map } => maps::put_select(out, map, entries),
        FileReferenceMsg::OpenSelectContents {
            ctx: _,
            file_type: _,
            map,
        } => put_url_select(out, map, text, entries),
        FileReferenceMsg::Close { .. } => {}
    }
}

// Writes what follows the front of a message.
pub fn put_part(out: &mut [u8], m: UniversalNonRealTimeMsg, text: &[u8], entries: &[u64])
    requires { (contents (head_of m) (fields_of m text.now entries.now) ≡ none)
        × (length (part_of m text.now entries.now) ≤ length out.old) }
    ensures { out.new ≡ overwritten (part_of m text.now entries.now) out.old }
{
    match m {
        UniversalNonRealTimeMsg::SampleDump(x) => put_part_sample(out, x, text),
        UniversalNonRealTimeMsg::ExtendedSampleDump(x) => put_part_extended(out, x, text),
        UniversalNonRealTimeMsg::IdentityRequest => {}
        UniversalNonRealTimeMsg::IdentityReply(_) => {}
        UniversalNonRealTimeMsg::FileDump(x) => put_part_file(out, x, text),
        UniversalNonRealTimeMsg::TuningBulkDumpRequest { .. } => {}
        UniversalNonRealTimeMsg::KeyBasedTuningDump(_) => put_key_dump(out, text, entries),
        UniversalNonRealTimeMsg::ScaleTuningDump1Byte(d) => put_named::<S7>(out, text, &d.tuning),
        UniversalNonRealTimeMsg::ScaleTuningDump2Byte(d) => put_scale_dump_2(out, text, d.tuning),
        UniversalNonRealTimeMsg::TuningNoteChange(_) => entries::put_changes(out, entries),
        UniversalNonRealTimeMsg::ScaleTuning1Byte(d) => put_each::<S7>(out, &d.tuning),
        UniversalNonRealTimeMsg::ScaleTuning2Byte(d) => put_each::<S14>(out, &d.tuning),
        UniversalNonRealTimeMsg::GeneralMidi(_) => {}
        UniversalNonRealTimeMsg::FileReference(x) => put_part_reference(out, x, text, entries),
        UniversalNonRealTimeMsg::EOF => {}
        UniversalNonRealTimeMsg::Wait => {}
        UniversalNonRealTimeMsg::Cancel => {}
        UniversalNonRealTimeMsg::NAK(_) => {}
        UniversalNonRealTimeMsg::ACK(_) => {}
    }
}
