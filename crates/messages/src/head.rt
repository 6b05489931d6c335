// The heads of the scope's table, in the order of their bytes. 0B 02 is a head for each kind of sound file.
ghost use Rattle.std.specs.Prelude.{◌≡◌, length};
ghost use Rattle.messages.specs.Layouts.{code, summed};

#[derive(Clone, Copy, Debug, PartialEq, Eq)]
pub enum Head {
    SampleDumpHeader,
    SampleDumpPacket,
    SampleDumpRequest,
    LoopPointTransmission,
    LoopPointsRequest,
    SampleName,
    SampleNameRequest,
    ExtendedHeader,
    ExtendedLoopPointTransmission,
    ExtendedLoopPointsRequest,
    IdentityRequest,
    IdentityReply,
    FileDumpHeader,
    FileDumpPacket,
    FileDumpRequest,
    TuningBulkDumpRequest,
    KeyBasedTuningDump,
    BankTuningBulkDumpRequest,
    BankKeyBasedTuningDump,
    ScaleTuningDump1Byte,
    ScaleTuningDump2Byte,
    TuningNoteChange,
    ScaleTuning1Byte,
    ScaleTuning2Byte,
    GeneralMidi1,
    GeneralMidiOff,
    GeneralMidi2,
    FileReferenceOpen,
    SelectSoundFile,
    SelectWAV,
    FileReferenceOpenSelect,
    FileReferenceClose,
    EOF,
    Wait,
    Cancel,
    NAK,
    ACK,
}

impl Head {
    // How many bytes stand for the head in a frame. Kept as a match: it is a rule of two answers, not a table of numbers.
    pub fn size(self) -> usize
        ensures { result ≡ length (code self) }
    {
        match self {
            Head::SampleDumpHeader | Head::SampleDumpPacket | Head::SampleDumpRequest => 1,
            Head::EOF | Head::Wait | Head::Cancel | Head::NAK | Head::ACK => 1,
            _ => 2,
        }
    }

    // Whether a checksum ends the fields of the head. Kept as a match: its lines are the rows of the layouts that have one.
    pub fn is_summed(self) -> bool
        ensures { result ≡ summed self }
    {
        match self {
            Head::SampleDumpPacket | Head::FileDumpPacket => true,
            Head::KeyBasedTuningDump | Head::BankKeyBasedTuningDump => true,
            Head::ScaleTuningDump1Byte | Head::ScaleTuningDump2Byte => true,
            _ => false,
        }
    }
}
