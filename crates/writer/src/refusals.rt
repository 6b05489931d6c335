// Whether a message's contents are admitted: refusals 1 to 4, in the order of the scope's table.
// Kept as a message, its text and its entries side by side: an `Admitted` is made of them once they are tested.
// Kept as whole part and fraction of a rate: they are fields of a message.
ghost use Rattle.std.specs.Prelude.{◌≡◌, [], leb};
ghost use Rattle.util.specs.Groups.{seven};
ghost use Rattle.util.specs.Options.{unless};
ghost use Rattle.util.specs.declared.refusal.Refusal.TheVariants.{Long};
ghost use Rattle.messages.specs.declared.file_reference.FileReferenceType.TheVariants.{DLS, WAV};
ghost use Rattle.messages.specs.Refusals.{least};
ghost use Rattle.messages.specs.format.Texts.{is_text};
ghost use Rattle.messages.specs.Fields.{high, type_bytes};
ghost use Rattle.messages.specs.Contents.{contents, high_url, too_large, zero_maker, other_kind};
ghost use Rattle.messages.specs.MessageOf.{head_of, fields_of, head_extended, fields_extended, head_file, fields_file, head_reference, fields_reference, any_select};
ghost use Rattle.writer.specs.Write.{told};
ghost use Rattle.writer.specs.Frames.{header_contents, request_contents};

use messages::file_dump::{FileDumpMsg, FileType};
use messages::file_reference::{FileReferenceMsg, FileReferenceType, SelectMap};
use messages::sample_dump::ExtendedSampleDumpMsg;
use messages::system_exclusive::{ManufacturerID, UniversalNonRealTimeMsg};
use util::bytes;
use util::refusal::Refusal;

// Whether every byte is 1 to 127.
fn is_text(s: &[u8]) -> bool
    ensures { result ≡ is_text s.now }
{
    s.iter().all(|b| 0 < *b && *b < 128)
}

// Whether the four bytes of a file type are below 128.
fn is_seven_type(t: FileType) -> bool
    ensures { result ≡ seven (type_bytes t) }
{
    bytes::is_seven(&<[u8; 4]>::from(t))
}

// A refusal, unless a test passes.
fn unless(r: Refusal, passes: bool) -> Result<(), Refusal>
    ensures { result ≡ told (unless r passes) }
{
    if passes { Ok(()) } else { Err(r) }
}

// HIGH where a text has a byte above 127.
fn refused_high(text: &[u8]) -> Result<(), Refusal>
    ensures { result ≡ told (high text.now) }
{
    unless(Refusal::High, bytes::is_seven(text))
}

// HIGH where a URL has a byte above 127 or a 00.
fn refused_url(url: &[u8]) -> Result<(), Refusal>
    ensures { result ≡ told (high_url url.now) }
{
    unless(Refusal::High, is_text(url))
}

// LONG where there are more than so many.
fn refused_long(n: usize, most: usize) -> Result<(), Refusal>
    ensures { result ≡ told (unless Long (leb n most)) }
{
    unless(Refusal::Long, n <= most)
}

// VALUE where a number does not fit four groups.
fn refused_value(v: u32) -> Result<(), Refusal>
    ensures { result ≡ told (too_large v) }
{
    unless(Refusal::Value, v < 268435456)
}

// VALUE where one of the two numbers of a rate does not fit four groups.
fn refused_rate(whole: u32, fraction: u32) -> Result<(), Refusal>
    ensures { result ≡ told (least (too_large whole) (too_large fraction)) }
{
    refused_value(whole)?;
    refused_value(fraction)
}

// VALUE for the one-byte maker 00.
fn refused_maker(id: ManufacturerID) -> Result<(), Refusal>
    ensures { result ≡ told (zero_maker id) }
{
    match id {
        ManufacturerID::OneByte(b) => unless(Refusal::Value, 1 <= b),
        ManufacturerID::Extended(_, _) => Ok(()),
    }
}

// KIND for a WAV map where the file is a bank.
fn refused_wav(map: SelectMap) -> Result<(), Refusal>
    ensures { result ≡ told (other_kind DLS (any_select map [])) }
{
    match map {
        SelectMap::SoundFile => Ok(()),
        SelectMap::WAV(_) => Err(Refusal::Kind),
        SelectMap::SoundFileBankOffset { .. } => Ok(()),
        SelectMap::WAVBankOffset { .. } => Err(Refusal::Kind),
    }
}

// KIND for a bank's map where the file is a WAV file.
fn refused_bank(map: SelectMap) -> Result<(), Refusal>
    ensures { result ≡ told (other_kind WAV (any_select map [])) }
{
    match map {
        SelectMap::SoundFile => Err(Refusal::Kind),
        SelectMap::WAV(_) => Ok(()),
        SelectMap::SoundFileBankOffset { .. } => Err(Refusal::Kind),
        SelectMap::WAVBankOffset { .. } => Ok(()),
    }
}

// KIND where the map is not of the file's kind.
fn refused_map(t: FileReferenceType, map: SelectMap) -> Result<(), Refusal>
    ensures { result ≡ told (other_kind t (any_select map [])) }
{
    match t {
        FileReferenceType::DLS => refused_wav(map),
        FileReferenceType::SF2 => refused_wav(map),
        FileReferenceType::WAV => refused_bank(map),
    }
}

// The refusal of 0B 03: HIGH of the URL, then KIND.
fn refused_open(t: FileReferenceType, map: SelectMap, url: &[u8]) -> Result<(), Refusal>
    ensures { result ≡ told (least (high_url url.now) (other_kind t (any_select map []))) }
{
    refused_url(url)?;
    refused_map(t, map)
}

// The refusal of a file header: HIGH of the type or the name, LONG, VALUE.
fn refused_header(t: FileType, length: u32, name: &[u8]) -> Result<(), Refusal>
    ensures { result ≡ told (header_contents t length name.now) }
{
    refused_request(t, name)?;
    refused_value(length)
}

// HIGH where a file type has a byte above 127.
fn refused_type(t: FileType) -> Result<(), Refusal>
    ensures { result ≡ told (high (type_bytes t)) }
{
    unless(Refusal::High, is_seven_type(t))
}

// The refusal of a file request: HIGH of the type or the name, LONG.
fn refused_request(t: FileType, name: &[u8]) -> Result<(), Refusal>
    ensures { result ≡ told (request_contents t name.now) }
{
    refused_type(t)?;
    refused_high(name)?;
    refused_long(name.len(), 1024)
}

// The refusal of an extended sample dump.
fn refused_extended(m: ExtendedSampleDumpMsg, text: &[u8]) -> Result<(), Refusal>
    ensures { result ≡ told (contents (head_extended m) (fields_extended m text.now)) }
{
    match m {
        ExtendedSampleDumpMsg::SampleName { .. } => refused_high(text),
        ExtendedSampleDumpMsg::SampleNameRequest { .. } => Ok(()),
        ExtendedSampleDumpMsg::Header {
            sample_num: _,
            format: _,
            sample_rate_integer,
            sample_rate_fraction,
            length: _,
            sustain_loop_start: _,
            sustain_loop_end: _,
            loop_type: _,
            num_channels: _,
        } => refused_rate(sample_rate_integer, sample_rate_fraction),
        ExtendedSampleDumpMsg::LoopPointTransmission { .. } => Ok(()),
        ExtendedSampleDumpMsg::LoopPointsRequest { .. } => Ok(()),
    }
}

// The refusal of a file dump.
fn refused_file(m: FileDumpMsg, text: &[u8]) -> Result<(), Refusal>
    ensures { result ≡ told (contents (head_file m) (fields_file m text.now)) }
{
    match m {
        FileDumpMsg::Header {
            sender_device: _,
            file_type,
            length,
        } => refused_header(file_type, length, text),
        FileDumpMsg::Packet { .. } => refused_long(text.len(), 111),
        FileDumpMsg::Request {
            requester_device: _,
            file_type,
        } => refused_request(file_type, text),
    }
}

// The refusal of a file reference.
fn refused_reference(m: FileReferenceMsg, text: &[u8], entries: &[u64]) -> Result<(), Refusal>
    ensures { result ≡ told (contents (head_reference m) (fields_reference m text.now entries.now)) }
{
    match m {
        FileReferenceMsg::Open { .. } => refused_url(text),
        FileReferenceMsg::SelectContents { .. } => Ok(()),
        FileReferenceMsg::OpenSelectContents {
            ctx: _,
            file_type,
            map,
        } => refused_open(file_type, map, text),
        FileReferenceMsg::Close { .. } => Ok(()),
    }
}

// The refusal of a message with the text and the entries lent beside it, or that its contents are admitted.
pub fn refused(m: UniversalNonRealTimeMsg, text: &[u8], entries: &[u64]) -> Result<(), Refusal>
    ensures { result ≡ told (contents (head_of m) (fields_of m text.now entries.now)) }
{
    match m {
        UniversalNonRealTimeMsg::SampleDump(_) => Ok(()),
        UniversalNonRealTimeMsg::ExtendedSampleDump(x) => refused_extended(x, text),
        UniversalNonRealTimeMsg::IdentityRequest => Ok(()),
        UniversalNonRealTimeMsg::IdentityReply(r) => {
            let id = r.id;
            refused_maker(id)
        }
        UniversalNonRealTimeMsg::FileDump(x) => refused_file(x, text),
        UniversalNonRealTimeMsg::TuningBulkDumpRequest { .. } => Ok(()),
        UniversalNonRealTimeMsg::KeyBasedTuningDump(_) => refused_high(text),
        UniversalNonRealTimeMsg::ScaleTuningDump1Byte(_) => refused_high(text),
        UniversalNonRealTimeMsg::ScaleTuningDump2Byte(_) => refused_high(text),
        UniversalNonRealTimeMsg::TuningNoteChange(_) => refused_long(entries.len(), 127),
        UniversalNonRealTimeMsg::ScaleTuning1Byte(_) => Ok(()),
        UniversalNonRealTimeMsg::ScaleTuning2Byte(_) => Ok(()),
        UniversalNonRealTimeMsg::GeneralMidi(_) => Ok(()),
        UniversalNonRealTimeMsg::FileReference(x) => refused_reference(x, text, entries),
        UniversalNonRealTimeMsg::EOF => Ok(()),
        UniversalNonRealTimeMsg::Wait => Ok(()),
        UniversalNonRealTimeMsg::Cancel => Ok(()),
        UniversalNonRealTimeMsg::NAK(_) => Ok(()),
        UniversalNonRealTimeMsg::ACK(_) => Ok(()),
    }
}
