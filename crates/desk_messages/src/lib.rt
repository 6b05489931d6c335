// What a message is, in words: in one line, or every field a line.
// Kept as two parameters: an output and a style. Lists, names and marks take the output alone, which a struct of both would have to lend on.
#![tactic(auto)]

pub mod files;
pub mod lists;
pub mod references;
pub mod refusals;
pub mod samples;
pub mod system;
pub mod tunings;
mod words;

use desk_print::fields;
use desk_print::fields::Style;
use desk_print::output::Output;
use messages::system_exclusive::UniversalNonRealTimeMsg;
use words::Words;

// An answer to a packet, with the packet's number.
fn handshake(out: &mut Output, style: Style, name: &[u8], packet: u8) {
    fields::title(out, style, name);
    fields::named(out, style, b"packet", packet as u64);
}

// What a message has beside its fields: its text, a part of its frame, and how many lent places its list takes.
#[derive(Clone, Copy, Debug, PartialEq, Eq)]
pub struct Beside<'a> {
    pub text: &'a [u8],
    pub places: usize,
}

// What a message is.
pub fn message(out: &mut Output, style: Style, m: UniversalNonRealTimeMsg, beside: Beside) {
    let Beside { text, places } = beside;
    match m {
        UniversalNonRealTimeMsg::SampleDump(x) => samples::sample(out, style, x, text),
        UniversalNonRealTimeMsg::ExtendedSampleDump(x) => samples::extended(out, style, x, text),
        UniversalNonRealTimeMsg::IdentityRequest => fields::title(out, style, b"identity request"),
        UniversalNonRealTimeMsg::IdentityReply(x) => system::identity(out, style, x),
        UniversalNonRealTimeMsg::FileDump(x) => files::file(out, style, x, beside),
        UniversalNonRealTimeMsg::TuningBulkDumpRequest {
            tuning_bank_num,
            tuning_program_num,
        } => tunings::request(out, style, tuning_bank_num, tuning_program_num),
        UniversalNonRealTimeMsg::KeyBasedTuningDump(x) => tunings::key_dump(out, style, x, text),
        UniversalNonRealTimeMsg::ScaleTuningDump1Byte(x) => tunings::scale_dump_1(
            out, style, x, text,
        ),
        UniversalNonRealTimeMsg::ScaleTuningDump2Byte(x) => tunings::scale_dump_2(
            out, style, x, text,
        ),
        UniversalNonRealTimeMsg::TuningNoteChange(x) => tunings::note_change(out, style, x, places),
        UniversalNonRealTimeMsg::ScaleTuning1Byte(x) => tunings::scale_1(out, style, x),
        UniversalNonRealTimeMsg::ScaleTuning2Byte(x) => tunings::scale_2(out, style, x),
        UniversalNonRealTimeMsg::GeneralMidi(x) => fields::title(out, style, x.words()),
        UniversalNonRealTimeMsg::FileReference(x) => references::reference(out, style, x, beside),
        UniversalNonRealTimeMsg::EOF => fields::title(out, style, b"end of file"),
        UniversalNonRealTimeMsg::Wait => fields::title(out, style, b"wait"),
        UniversalNonRealTimeMsg::Cancel => fields::title(out, style, b"cancel"),
        UniversalNonRealTimeMsg::NAK(packet) => handshake(
            out,
            style,
            b"not received (NAK)",
            packet,
        ),
        UniversalNonRealTimeMsg::ACK(packet) => handshake(out, style, b"received (ACK)", packet),
    }
}
