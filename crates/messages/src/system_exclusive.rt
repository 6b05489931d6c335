// The messages of the non-real-time part, and the device that they are for.
ghost use Rattle.std.specs.Prelude.{◌≡◌, [], ◌∷◌, ◌++◌, ◌+◌, ◌≤◌, ltb, length, get_or};
ghost use Rattle.util.specs.Groups.{groups, held};
ghost use Rattle.messages.specs.Fields.{device_byte, device_of};
ghost use Rattle.messages.specs.Structures.{reply};
ghost use Rattle.messages.specs.MessageOf.{head_of};
ghost use Rattle.util.specs.declared.refusal.Refusal.TheVariants.{UnexpectedEnd, ByteOverflow};
ghost use Rattle.messages.specs.Identity.{first_of, numbers_from, over_7F, maker_rows, maker, maker_end, rows_after_maker, identity_of};

use super::file_dump::FileDumpMsg;
use super::file_reference::FileReferenceMsg;
use super::general_midi::GeneralMidi;
use super::head::Head;
use super::sample_dump::{ExtendedSampleDumpMsg, SampleDumpMsg};
use super::tuning::{
    KeyBasedTuningDump, ScaleTuning1Byte, ScaleTuning2Byte, ScaleTuningDump1Byte,
    ScaleTuningDump2Byte, TuningNoteChange,
};
use util::bytes::is_seven;
use util::groups::{at, u14_at};
use util::limits::{ALL_CALL, LARGEST_U7, LARGEST_U14};
use util::refusal::Refusal;

// A device, or all of them. Kept as an enum, midi-msg's: all call is no want of a device.
#[derive(Clone, Copy, Debug, PartialEq, Eq)]
pub enum DeviceID {
    Device(u8),
    AllCall,
}

impl From<DeviceID> for u8 {
    ghost from_gives = { λ d b. b ≡ device_byte d };

    // The byte of a device.
    fn from(d: DeviceID) -> u8 {
        match d {
            DeviceID::Device(n) => n,
            DeviceID::AllCall => ALL_CALL,
        }
    }
}

impl From<u8> for DeviceID {
    ghost from_gives = { λ b d. d ≡ device_of b };

    // The device of a byte.
    fn from(b: u8) -> DeviceID {
        match b {
            ALL_CALL => DeviceID::AllCall,
            n => DeviceID::Device(n),
        }
    }
}

// A maker's number of one byte, or of 00 and two bytes.
#[derive(Clone, Copy, Debug, PartialEq, Eq)]
pub enum ManufacturerID {
    OneByte(u8),
    Extended(u8, u8),
}

#[derive(Clone, Copy, Debug, PartialEq, Eq)]
pub struct IdentityReply {
    pub id: ManufacturerID,
    pub family: u16,
    pub family_member: u16,
    pub software_revision: (u8, u8, u8, u8),
}

impl IdentityReply {
    // The family and the member as bytes, the low group first: as instruments print them.
    pub fn family_as_bytes(self) -> [u8; 4]
        ensures { result ≡ groups 2 (held 2 self.family) ++ groups 2 (held 2 self.family_member) }
    {
        let f = (self.family as u64).min(LARGEST_U14);
        let m = (self.family_member as u64).min(LARGEST_U14);
        [
            (f % 128) as u8,
            (f / 128 % 128) as u8,
            (m % 128) as u8,
            (m / 128 % 128) as u8,
        ]
    }
}

#[derive(Clone, Copy, Debug, PartialEq, Eq)]
pub enum UniversalNonRealTimeMsg {
    SampleDump(SampleDumpMsg),
    ExtendedSampleDump(ExtendedSampleDumpMsg),
    IdentityRequest,
    IdentityReply(IdentityReply),
    FileDump(FileDumpMsg),
    TuningBulkDumpRequest {
        tuning_bank_num: Option<u8>,
        tuning_program_num: u8,
    },
    KeyBasedTuningDump(KeyBasedTuningDump),
    ScaleTuningDump1Byte(ScaleTuningDump1Byte),
    ScaleTuningDump2Byte(ScaleTuningDump2Byte),
    TuningNoteChange(TuningNoteChange),
    ScaleTuning1Byte(ScaleTuning1Byte),
    ScaleTuning2Byte(ScaleTuning2Byte),
    GeneralMidi(GeneralMidi),
    FileReference(FileReferenceMsg),
    EOF,
    Wait,
    Cancel,
    NAK(u8),
    ACK(u8),
}

// The reply of a maker, whose numbers stand from i on.
fn reply_from(m: &[u8], id: ManufacturerID, i: usize) -> IdentityReply
    requires { i ≤ 5 }
    ensures { result ≡ reply id (numbers_from m.now i) }
{
    IdentityReply {
        id,
        family: u14_at(m, i),
        family_member: u14_at(m, i + 2),
        software_revision: (at(m, i + 4), at(m, i + 5), at(m, i + 6), at(m, i + 7)),
    }
}

// What the bytes from i on, after the maker, are read as.
fn read_after_maker(m: &[u8], id: ManufacturerID, i: usize) -> Result<IdentityReply, Refusal>
    requires { i ≤ 5 }
    ensures { result ≡ first_of (rows_after_maker m.now i) (reply id (numbers_from m.now i)) }
{
    if m.len() < i + 8 {
        return Err(Refusal::UnexpectedEnd);
    }
    let end = i + 4;
    if is_seven(&m[i..end]) {
        return Ok(reply_from(m, id, i));
    }
    Err(Refusal::ByteOverflow)
}

// The byte of a maker at i.
fn maker_byte(m: &[u8], i: usize) -> Result<u8, Refusal>
    ensures { result ≡ first_of ((ltb (length m.now) (i + 1), UnexpectedEnd) ∷ (over_7F (get_or m.now i 0), ByteOverflow) ∷ []) (get_or m.now i 0) }
{
    let b = *m.get(i).ok_or(Refusal::UnexpectedEnd)?;
    if LARGEST_U7 < b {
        return Err(Refusal::ByteOverflow);
    }
    Ok(b)
}

// The maker after the head 06 02, and where it ends.
fn read_maker(m: &[u8]) -> Result<(ManufacturerID, usize), Refusal>
    ensures { result ≡ first_of (maker_rows m.now) (maker m.now, maker_end m.now) }
{
    let b = maker_byte(m, 2)?;
    if b != 0 {
        return Ok((ManufacturerID::OneByte(b), 3));
    }
    if m.len() < 5 {
        return Err(Refusal::UnexpectedEnd);
    }
    let first = maker_byte(m, 3)?;
    let second = maker_byte(m, 4)?;
    Ok((ManufacturerID::Extended(first, second), 5))
}

impl UniversalNonRealTimeMsg {
    // The identity reply that bytes from the head on are.
    #[tactic(auto, unfolding(crate::specs::Identity::identity_of))]
    pub fn from_midi(m: &[u8]) -> Result<IdentityReply, Refusal>
        ensures { result ≡ identity_of m.now }
    {
        let [first, second, ..] = m else {
            return Err(Refusal::UnexpectedEnd);
        };
        if *first != 6 || *second != 2 {
            return Err(Refusal::NotImplemented);
        }
        let (id, i) = read_maker(m)?;
        read_after_maker(m, id, i)
    }

    // The head of the message.
    pub fn head(self) -> Head
        ensures { result ≡ head_of self }
    {
        match self {
            UniversalNonRealTimeMsg::SampleDump(m) => m.head(),
            UniversalNonRealTimeMsg::ExtendedSampleDump(m) => m.head(),
            UniversalNonRealTimeMsg::IdentityRequest => Head::IdentityRequest,
            UniversalNonRealTimeMsg::IdentityReply(_) => Head::IdentityReply,
            UniversalNonRealTimeMsg::FileDump(m) => m.head(),
            UniversalNonRealTimeMsg::TuningBulkDumpRequest {
                tuning_bank_num: None,
                ..
            } => Head::TuningBulkDumpRequest,
            UniversalNonRealTimeMsg::TuningBulkDumpRequest { .. } =>
                Head::BankTuningBulkDumpRequest,
            UniversalNonRealTimeMsg::KeyBasedTuningDump(
                KeyBasedTuningDump {
                    tuning_bank_num: None,
                    ..
                },
            ) => Head::KeyBasedTuningDump,
            UniversalNonRealTimeMsg::KeyBasedTuningDump(_) => Head::BankKeyBasedTuningDump,
            UniversalNonRealTimeMsg::ScaleTuningDump1Byte(_) => Head::ScaleTuningDump1Byte,
            UniversalNonRealTimeMsg::ScaleTuningDump2Byte(_) => Head::ScaleTuningDump2Byte,
            UniversalNonRealTimeMsg::TuningNoteChange(_) => Head::TuningNoteChange,
            UniversalNonRealTimeMsg::ScaleTuning1Byte(_) => Head::ScaleTuning1Byte,
            UniversalNonRealTimeMsg::ScaleTuning2Byte(_) => Head::ScaleTuning2Byte,
            UniversalNonRealTimeMsg::GeneralMidi(g) => g.head(),
            UniversalNonRealTimeMsg::FileReference(m) => m.head(),
            UniversalNonRealTimeMsg::EOF => Head::EOF,
            UniversalNonRealTimeMsg::Wait => Head::Wait,
            UniversalNonRealTimeMsg::Cancel => Head::Cancel,
            UniversalNonRealTimeMsg::NAK(_) => Head::NAK,
            UniversalNonRealTimeMsg::ACK(_) => Head::ACK,
        }
    }
}
