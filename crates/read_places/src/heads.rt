// The head that two bytes begin.
// Kept as a match for each first byte: of one table searched by `find` the proof did not close; eight heads have no second byte, and a frame would
// be held to up to 36 rows.
ghost use Rattle.std.specs.Prelude.{◌≡◌, Some};
ghost use Rattle.read_places.specs.Heads.{head_at, select_head, head_05, head_06, head_07, head_08, head_09, head_0b};

use messages::file_reference::Kind;
use messages::head::Head;

// The head 05 b.
fn head_05(b: u8) -> Option<Head>
    ensures { result ≡ head_05 b }
{
    match b {
        1 => Some(Head::LoopPointTransmission),
        2 => Some(Head::LoopPointsRequest),
        3 => Some(Head::SampleName),
        4 => Some(Head::SampleNameRequest),
        5 => Some(Head::ExtendedHeader),
        6 => Some(Head::ExtendedLoopPointTransmission),
        7 => Some(Head::ExtendedLoopPointsRequest),
        _ => None,
    }
}

// The head 06 b.
fn head_06(b: u8) -> Option<Head>
    ensures { result ≡ head_06 b }
{
    match b {
        1 => Some(Head::IdentityRequest),
        2 => Some(Head::IdentityReply),
        _ => None,
    }
}

// The head 07 b.
fn head_07(b: u8) -> Option<Head>
    ensures { result ≡ head_07 b }
{
    match b {
        1 => Some(Head::FileDumpHeader),
        2 => Some(Head::FileDumpPacket),
        3 => Some(Head::FileDumpRequest),
        _ => None,
    }
}

// The head 08 b.
fn head_08(b: u8) -> Option<Head>
    ensures { result ≡ head_08 b }
{
    match b {
        0 => Some(Head::TuningBulkDumpRequest),
        1 => Some(Head::KeyBasedTuningDump),
        3 => Some(Head::BankTuningBulkDumpRequest),
        4 => Some(Head::BankKeyBasedTuningDump),
        5 => Some(Head::ScaleTuningDump1Byte),
        6 => Some(Head::ScaleTuningDump2Byte),
        7 => Some(Head::TuningNoteChange),
        8 => Some(Head::ScaleTuning1Byte),
        9 => Some(Head::ScaleTuning2Byte),
        _ => None,
    }
}

// The head 09 b.
fn head_09(b: u8) -> Option<Head>
    ensures { result ≡ head_09 b }
{
    match b {
        1 => Some(Head::GeneralMidi1),
        2 => Some(Head::GeneralMidiOff),
        3 => Some(Head::GeneralMidi2),
        _ => None,
    }
}

// The head 0B 02 of a kind of sound file.
fn select_head(k: Kind) -> Option<Head>
    ensures { result ≡ Some (select_head k) }
{
    match k {
        Kind::Bank => Some(Head::SelectSoundFile),
        Kind::WAV => Some(Head::SelectWAV),
    }
}

// The head 0B b for a kind of sound file.
fn head_0b(k: Kind, b: u8) -> Option<Head>
    ensures { result ≡ head_0b k b }
{
    match b {
        1 => Some(Head::FileReferenceOpen),
        2 => select_head(k),
        3 => Some(Head::FileReferenceOpenSelect),
        4 => Some(Head::FileReferenceClose),
        _ => None,
    }
}

// The head that begins with a and b, for a kind of sound file.
pub fn head_at(k: Kind, a: u8, b: u8) -> Option<Head>
    ensures { result ≡ head_at k a b }
{
    match a {
        0x01 => Some(Head::SampleDumpHeader),
        0x02 => Some(Head::SampleDumpPacket),
        0x03 => Some(Head::SampleDumpRequest),
        0x05 => head_05(b),
        0x06 => head_06(b),
        0x07 => head_07(b),
        0x08 => head_08(b),
        0x09 => head_09(b),
        0x0B => head_0b(k, b),
        0x7B => Some(Head::EOF),
        0x7C => Some(Head::Wait),
        0x7D => Some(Head::Cancel),
        0x7E => Some(Head::NAK),
        0x7F => Some(Head::ACK),
        _ => None,
    }
}
