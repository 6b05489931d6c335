// The fields under a head.
#![tactic(auto)]

ghost use Rattle.std.specs.Prelude.{◌≡◌};
ghost use Rattle.messages.specs.Layouts.{form};
ghost use Rattle.read_places.specs.Found.{Reads, is_read};

use messages::general_midi::GeneralMidi;
use messages::head::Head;
use read_places::Found;
use read_places::fields::Fields;
use read_sample_dump::{extended_sample_dump, sample_dump};

// What the fields under a head say.
// Kept as a match over heads: it is the table of 01, which a table of functions would only search.
// Inlined, as a message that is handed on is copied in pieces (docs/SPEED.md).
#[inline(always)]
pub fn fields_of(h: Head, f: &Fields) -> Option<Found>
    ensures { Reads h result f.now }
{
    match h {
        Head::SampleDumpHeader => sample_dump::header(f),
        Head::SampleDumpPacket => sample_dump::packet(f),
        Head::SampleDumpRequest => sample_dump::request(f),
        Head::LoopPointTransmission => sample_dump::loop_points(f),
        Head::LoopPointsRequest => sample_dump::loop_request(f),
        Head::SampleName => extended_sample_dump::sample_name(f),
        Head::SampleNameRequest => extended_sample_dump::sample_name_request(f),
        Head::ExtendedHeader => extended_sample_dump::extended_header(f),
        Head::ExtendedLoopPointTransmission => extended_sample_dump::extended_loop_points(f),
        Head::ExtendedLoopPointsRequest => extended_sample_dump::extended_loop_request(f),
        Head::IdentityRequest => read_system_exclusive::identity_request(f),
        Head::IdentityReply => read_system_exclusive::identity_reply(f),
        Head::FileDumpHeader => read_file_dump::header(f),
        Head::FileDumpPacket => read_file_dump::packet(f),
        Head::FileDumpRequest => read_file_dump::request(f),
        Head::TuningBulkDumpRequest => read_tuning::bulk_request(f),
        Head::KeyBasedTuningDump => read_tuning::key_dump(f),
        Head::BankTuningBulkDumpRequest => read_tuning::bank_bulk_request(f),
        Head::BankKeyBasedTuningDump => read_tuning::bank_key_dump(f),
        Head::ScaleTuningDump1Byte => read_tuning::scale_dump_1(f),
        Head::ScaleTuningDump2Byte => read_tuning::scale_dump_2(f),
        Head::TuningNoteChange => read_tuning::note_change(f),
        Head::ScaleTuning1Byte => read_tuning::scale_1(f),
        Head::ScaleTuning2Byte => read_tuning::scale_2(f),
        Head::GeneralMidi1 => read_system_exclusive::general_midi(f, GeneralMidi::GM1),
        Head::GeneralMidiOff => read_system_exclusive::general_midi(f, GeneralMidi::Off),
        Head::GeneralMidi2 => read_system_exclusive::general_midi(f, GeneralMidi::GM2),
        Head::FileReferenceOpen => read_file_reference::open(f),
        Head::SelectSoundFile => read_file_reference::select_bank(f),
        Head::SelectWAV => read_file_reference::select_wav(f),
        Head::FileReferenceOpenSelect => read_file_reference::open_select(f),
        Head::FileReferenceClose => read_file_reference::close(f),
        Head::EOF => read_system_exclusive::eof(f),
        Head::Wait => read_system_exclusive::wait(f),
        Head::Cancel => read_system_exclusive::cancel(f),
        Head::NAK => read_system_exclusive::nak(f),
        Head::ACK => read_system_exclusive::ack(f),
    }
}

// Whether the fields under a head are right.
pub fn is_valid(h: Head, f: &Fields) -> bool
    ensures { result ≡ is_read ((form h).read f.now) }
{
    match h {
        Head::SampleDumpPacket => sample_dump::is_packet(f),
        Head::KeyBasedTuningDump => read_tuning::is_key_dump(f),
        _ => fields_of(h, f).is_some(),
    }
}
