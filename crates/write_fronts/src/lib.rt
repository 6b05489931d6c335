// The front of each message, from 7E up to its first list, and how long it is.
// Kept as two parameters, an output and the number of a device: a front has both beside its own fields, and a struct of both would be made for each.
#![tactic(auto)]

ghost use Rattle.std.specs.Prelude.{◌≡◌, ◌≤◌, length};
ghost use Rattle.util.specs.Splice.{overwritten};
ghost use Rattle.write_fronts.specs.Fronts.{front_of};
ghost use Rattle.write_fronts.specs.Sizes.{size_sample, size_extended, size_maker, size_file, size_bank, size_reference, front_size};

use messages::file_dump::FileDumpMsg;
use messages::file_reference::FileReferenceMsg;
use messages::sample_dump::{ExtendedSampleDumpMsg, SampleDumpMsg};
use messages::system_exclusive::{ManufacturerID, UniversalNonRealTimeMsg};

pub mod extended_sample_dump;
pub mod file_dump;
pub mod file_reference;
pub mod sample_dump;
pub mod system_exclusive;
pub mod tuning;
pub mod values;

// Kept as one match for each enum of messages: they differ in every name and number.

// How many bytes the front of a sample dump message has.
fn size_sample(m: SampleDumpMsg) -> usize
    ensures { result ≡ size_sample m }
{
    match m {
        SampleDumpMsg::Header { .. } => 19,
        SampleDumpMsg::Packet { .. } => 4,
        SampleDumpMsg::Request { .. } => 5,
        SampleDumpMsg::LoopPointTransmission { .. } => 15,
        SampleDumpMsg::LoopPointsRequest { .. } => 8,
    }
}

// How many bytes the front of an extended sample dump message has.
fn size_extended(m: ExtendedSampleDumpMsg) -> usize
    ensures { result ≡ size_extended m }
{
    match m {
        ExtendedSampleDumpMsg::SampleName { .. } => 7,
        ExtendedSampleDumpMsg::SampleNameRequest { .. } => 6,
        ExtendedSampleDumpMsg::Header { .. } => 32,
        ExtendedSampleDumpMsg::LoopPointTransmission { .. } => 19,
        ExtendedSampleDumpMsg::LoopPointsRequest { .. } => 8,
    }
}

// How many bytes the reply of a maker has.
fn size_maker(id: ManufacturerID) -> usize
    ensures { result ≡ size_maker id }
{
    match id {
        ManufacturerID::OneByte(_) => 13,
        ManufacturerID::Extended(_, _) => 15,
    }
}

// How many bytes the front of a file dump message has.
fn size_file(m: FileDumpMsg) -> usize
    ensures { result ≡ size_file m }
{
    match m {
        FileDumpMsg::Header { .. } => 13,
        FileDumpMsg::Packet { .. } => 5,
        FileDumpMsg::Request { .. } => 9,
    }
}

// How many bytes a bulk request, or the front of a key dump, has.
fn size_bank(bank: Option<u8>) -> usize
    ensures { result ≡ size_bank bank }
{
    match bank {
        None => 5,
        Some(_) => 6,
    }
}

// How many bytes the front of a file reference message has.
fn size_reference(m: FileReferenceMsg) -> usize
    ensures { result ≡ size_reference m }
{
    match m {
        FileReferenceMsg::Open { .. } => 12,
        FileReferenceMsg::SelectContents { .. } => 8,
        FileReferenceMsg::OpenSelectContents { .. } => 12,
        FileReferenceMsg::Close { .. } => 8,
    }
}

// How many bytes the front of a message has.
pub fn front_size(m: UniversalNonRealTimeMsg) -> usize
    ensures { result ≡ front_size m }
{
    match m {
        UniversalNonRealTimeMsg::SampleDump(s) => size_sample(s),
        UniversalNonRealTimeMsg::ExtendedSampleDump(s) => size_extended(s),
        UniversalNonRealTimeMsg::IdentityRequest => 4,
        UniversalNonRealTimeMsg::IdentityReply(i) => size_maker(i.id),
        UniversalNonRealTimeMsg::FileDump(f) => size_file(f),
        UniversalNonRealTimeMsg::TuningBulkDumpRequest {
            tuning_bank_num,
            tuning_program_num: _,
        } => size_bank(tuning_bank_num),
        UniversalNonRealTimeMsg::KeyBasedTuningDump(k) => size_bank(k.tuning_bank_num),
        UniversalNonRealTimeMsg::ScaleTuningDump1Byte(_) => 6,
        UniversalNonRealTimeMsg::ScaleTuningDump2Byte(_) => 6,
        UniversalNonRealTimeMsg::TuningNoteChange(_) => 6,
        UniversalNonRealTimeMsg::ScaleTuning1Byte(_) => 7,
        UniversalNonRealTimeMsg::ScaleTuning2Byte(_) => 7,
        UniversalNonRealTimeMsg::GeneralMidi(_) => 4,
        UniversalNonRealTimeMsg::FileReference(f) => size_reference(f),
        UniversalNonRealTimeMsg::EOF => 4,
        UniversalNonRealTimeMsg::Wait => 4,
        UniversalNonRealTimeMsg::Cancel => 4,
        UniversalNonRealTimeMsg::NAK(_) => 4,
        UniversalNonRealTimeMsg::ACK(_) => 4,
    }
}

// Writes the front of a message for device byte d, a text of x bytes and y entries.
pub fn put_front(out: &mut [u8], d: u64, m: UniversalNonRealTimeMsg, x: usize, y: usize)
    requires { front_size m ≤ length out.old }
    ensures { out.new ≡ overwritten (front_of d m x y) out.old }
{
    match m {
        UniversalNonRealTimeMsg::SampleDump(s) => sample_dump::put(out, d, s),
        UniversalNonRealTimeMsg::ExtendedSampleDump(s) => extended_sample_dump::put(out, d, s),
        UniversalNonRealTimeMsg::IdentityRequest => system_exclusive::put_identity_request(out, d),
        UniversalNonRealTimeMsg::IdentityReply(i) => system_exclusive::put_identity_reply(
            out, d, i,
        ),
        UniversalNonRealTimeMsg::FileDump(f) => file_dump::put(out, d, f),
        UniversalNonRealTimeMsg::TuningBulkDumpRequest {
            tuning_bank_num,
            tuning_program_num,
        } => tuning::put_banked(out, d, 0, 3, tuning_bank_num, tuning_program_num),
        UniversalNonRealTimeMsg::KeyBasedTuningDump(k) => tuning::put_banked(
            out,
            d,
            1,
            4,
            k.tuning_bank_num,
            k.tuning_program_num,
        ),
        UniversalNonRealTimeMsg::ScaleTuningDump1Byte(s) => tuning::put_bank_program(
            out,
            d,
            5,
            s.tuning_bank_num,
            s.tuning_program_num,
        ),
        UniversalNonRealTimeMsg::ScaleTuningDump2Byte(s) => tuning::put_bank_program(
            out,
            d,
            6,
            s.tuning_bank_num,
            s.tuning_program_num,
        ),
        UniversalNonRealTimeMsg::TuningNoteChange(c) => tuning::put_change(
            out,
            d,
            c.tuning_bank_num,
            c.tuning_program_num,
        ),
        UniversalNonRealTimeMsg::ScaleTuning1Byte(s) => tuning::put_scale(
            out,
            d,
            8,
            s.channels.channels,
        ),
        UniversalNonRealTimeMsg::ScaleTuning2Byte(s) => tuning::put_scale(
            out,
            d,
            9,
            s.channels.channels,
        ),
        UniversalNonRealTimeMsg::GeneralMidi(g) => system_exclusive::put_general_midi(out, d, g),
        UniversalNonRealTimeMsg::FileReference(f) => file_reference::put(out, d, f, x, y),
        UniversalNonRealTimeMsg::EOF => system_exclusive::put_handshake(out, d, 0x7B, 0),
        UniversalNonRealTimeMsg::Wait => system_exclusive::put_handshake(out, d, 0x7C, 0),
        UniversalNonRealTimeMsg::Cancel => system_exclusive::put_handshake(out, d, 0x7D, 0),
        UniversalNonRealTimeMsg::NAK(n) => system_exclusive::put_handshake(out, d, 0x7E, n),
        UniversalNonRealTimeMsg::ACK(n) => system_exclusive::put_handshake(out, d, 0x7F, n),
    }
}
