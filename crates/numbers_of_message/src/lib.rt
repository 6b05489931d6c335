// A message as numbers: head code, device, then the fields.
// Kept as two parameters, an output and the number of a device: a struct of both would be made for each message.
#![tactic(auto)]

ghost use Rattle.std.specs.Prelude.{◌≡◌, leb, length};
ghost use Rattle.util.specs.Pick.{pick};
ghost use Rattle.util.specs.Splice.{overwritten};
ghost use Rattle.numbers_of_message.specs.Put.{Put};
ghost use Rattle.numbers_of_message.specs.Numbers.{numbers, coded, numbers_of};

use messages::system_exclusive::{DeviceID, UniversalNonRealTimeMsg};
use put::put;

pub mod extended_sample_dump;
pub mod file_dump;
pub mod file_reference;
pub mod general_midi;
pub mod identity;
pub mod put;
pub mod sample_dump;
pub mod tuning;
pub mod values;

// Puts a message for the number d of a device.
// Kept as a match over the messages: each arm puts the fields of its own.
fn put_message(out: &mut [u64], d: u64, m: UniversalNonRealTimeMsg) -> usize
    ensures { Put (numbers d (coded m)) out.old out.new result }
{
    match m {
        UniversalNonRealTimeMsg::SampleDump(s) => sample_dump::put_message(out, d, s),
        UniversalNonRealTimeMsg::ExtendedSampleDump(s) => extended_sample_dump::put_message(
            out, d, s,
        ),
        UniversalNonRealTimeMsg::IdentityRequest => put(out, &[0x0601, d]),
        UniversalNonRealTimeMsg::IdentityReply(r) => identity::put_reply(out, d, r),
        UniversalNonRealTimeMsg::FileDump(f) => file_dump::put_message(out, d, f),
        UniversalNonRealTimeMsg::TuningBulkDumpRequest {
            tuning_bank_num,
            tuning_program_num,
        } => tuning::put_banked(out, d, 0x0800, 0x0803, tuning_bank_num, tuning_program_num),
        UniversalNonRealTimeMsg::KeyBasedTuningDump(k) => tuning::put_banked(
            out,
            d,
            0x0801,
            0x0804,
            k.tuning_bank_num,
            k.tuning_program_num,
        ),
        UniversalNonRealTimeMsg::ScaleTuningDump1Byte(s) => tuning::put_dump_1(out, d, s),
        UniversalNonRealTimeMsg::ScaleTuningDump2Byte(s) => tuning::put_dump_2(out, d, s),
        UniversalNonRealTimeMsg::TuningNoteChange(c) => tuning::put_change(
            out,
            d,
            c.tuning_bank_num,
            c.tuning_program_num,
        ),
        UniversalNonRealTimeMsg::ScaleTuning1Byte(s) => tuning::put_tuning_1(out, d, s),
        UniversalNonRealTimeMsg::ScaleTuning2Byte(s) => tuning::put_tuning_2(out, d, s),
        UniversalNonRealTimeMsg::GeneralMidi(g) => general_midi::put_message(out, d, g),
        UniversalNonRealTimeMsg::FileReference(f) => file_reference::put_message(out, d, f),
        UniversalNonRealTimeMsg::EOF => put(out, &[0x7B00, d]),
        UniversalNonRealTimeMsg::Wait => put(out, &[0x7C00, d]),
        UniversalNonRealTimeMsg::Cancel => put(out, &[0x7D00, d]),
        UniversalNonRealTimeMsg::NAK(n) => put(out, &[0x7E00, d, n as u64]),
        UniversalNonRealTimeMsg::ACK(n) => put(out, &[0x7F00, d, n as u64]),
    }
}

// Puts the numbers of a message at the start of out where there is room for all; how many they are.
pub fn to_numbers(device: DeviceID, m: UniversalNonRealTimeMsg, out: &mut [u64]) -> usize
    ensures { (result ≡ length (numbers_of device m)) × (out.new ≡ pick (leb (length (numbers_of device m)) (length out.old)) (overwritten (numbers_of device m) out.old) out.old) }
{
    let d = values::device_number(device);
    put_message(out, d, m)
}
