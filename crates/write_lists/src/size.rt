// How many bytes follow the front of a message, for a text of x bytes and y entries.
ghost use Rattle.std.specs.Prelude.{◌≡◌, ◌<◌, ◌^◌};
ghost use Rattle.write_lists.specs.Parts.{size_sample, size_extended, size_file, size_select, size_reference, part_size};

use messages::file_dump::FileDumpMsg;
use messages::file_reference::{FileReferenceMsg, SelectMap};
use messages::sample_dump::{ExtendedSampleDumpMsg, SampleDumpMsg};
use messages::system_exclusive::UniversalNonRealTimeMsg;
use util::limits::{MOST_COUNTED, MOST_URL};

// Kept as one match for each enum of messages: they differ in every name and number.

// How many bytes follow the front of a sample dump message.
fn size_sample(m: SampleDumpMsg) -> usize
    ensures { result ≡ size_sample m }
{
    match m {
        SampleDumpMsg::Header { .. } => 0,
        SampleDumpMsg::Packet { .. } => 120,
        SampleDumpMsg::Request { .. } => 0,
        SampleDumpMsg::LoopPointTransmission { .. } => 0,
        SampleDumpMsg::LoopPointsRequest { .. } => 0,
    }
}

// How many bytes follow the front of an extended sample dump message.
fn size_extended(m: ExtendedSampleDumpMsg, x: usize) -> usize
    ensures { result ≡ size_extended m x }
{
    match m {
        ExtendedSampleDumpMsg::SampleName { .. } => 1 + x.min(MOST_COUNTED),
        ExtendedSampleDumpMsg::SampleNameRequest { .. } => 0,
        ExtendedSampleDumpMsg::Header { .. } => 0,
        ExtendedSampleDumpMsg::LoopPointTransmission { .. } => 0,
        ExtendedSampleDumpMsg::LoopPointsRequest { .. } => 0,
    }
}

// How many bytes follow the front of a file dump message.
fn size_file(m: FileDumpMsg, x: usize) -> usize
    requires { size_file m x < 2 ^ 64 }
    ensures { result ≡ size_file m x }
{
    match m {
        FileDumpMsg::Header { .. } => x,
        FileDumpMsg::Packet { .. } => 1 + x + (x + 6) / 7,
        FileDumpMsg::Request { .. } => x,
    }
}

// How many bytes a select holds.
fn size_select(m: SelectMap, y: usize) -> usize
    ensures { result ≡ size_select m y }
{
    match m {
        SelectMap::SoundFile => 1 + 8 * y.min(MOST_COUNTED),
        SelectMap::WAV(_) => 9,
        SelectMap::SoundFileBankOffset { .. } => 7,
        SelectMap::WAVBankOffset { .. } => 16,
    }
}

// How many bytes follow the front of a file reference message.
fn size_reference(m: FileReferenceMsg, x: usize, y: usize) -> usize
    ensures { result ≡ size_reference m x y }
{
    match m {
        FileReferenceMsg::Open { .. } => x.min(MOST_URL) + 1,
        FileReferenceMsg::SelectContents { ctx: _, map } => size_select(map, y),
        FileReferenceMsg::OpenSelectContents {
            ctx: _,
            file_type: _,
            map,
        } => x.min(MOST_URL) + 1 + size_select(map, y),
        FileReferenceMsg::Close { .. } => 0,
    }
}

// How many bytes follow the front of a message.
pub fn part_size(m: UniversalNonRealTimeMsg, x: usize, y: usize) -> usize
    requires { part_size m x y < 2 ^ 64 }
    ensures { result ≡ part_size m x y }
{
    match m {
        UniversalNonRealTimeMsg::SampleDump(d) => size_sample(d),
        UniversalNonRealTimeMsg::ExtendedSampleDump(d) => size_extended(d, x),
        UniversalNonRealTimeMsg::IdentityRequest => 0,
        UniversalNonRealTimeMsg::IdentityReply(_) => 0,
        UniversalNonRealTimeMsg::FileDump(d) => size_file(d, x),
        UniversalNonRealTimeMsg::TuningBulkDumpRequest { .. } => 0,
        UniversalNonRealTimeMsg::KeyBasedTuningDump(_) => 400,
        UniversalNonRealTimeMsg::ScaleTuningDump1Byte(_) => 28,
        UniversalNonRealTimeMsg::ScaleTuningDump2Byte(_) => 40,
        UniversalNonRealTimeMsg::TuningNoteChange(_) => 1 + 4 * y,
        UniversalNonRealTimeMsg::ScaleTuning1Byte(_) => 12,
        UniversalNonRealTimeMsg::ScaleTuning2Byte(_) => 24,
        UniversalNonRealTimeMsg::GeneralMidi(_) => 0,
        UniversalNonRealTimeMsg::FileReference(d) => size_reference(d, x, y),
        UniversalNonRealTimeMsg::EOF => 0,
        UniversalNonRealTimeMsg::Wait => 0,
        UniversalNonRealTimeMsg::Cancel => 0,
        UniversalNonRealTimeMsg::NAK(_) => 0,
        UniversalNonRealTimeMsg::ACK(_) => 0,
    }
}
