// Sample dumps and extended sample dumps (CA-019). Sample bytes and names are lent beside these.
ghost use Rattle.std.specs.Prelude.{◌≡◌, ◌%◌};
ghost use Rattle.std.specs.Result.{result_ok};
ghost use Rattle.messages.specs.declared.sample_dump.SampleDumpMsg.TheVariants.{Packet};
ghost use Rattle.messages.specs.Fields.{loop_value};
ghost use Rattle.messages.specs.Structures.{loop_code, loop_byte, extended_loop_code, extended_loop_byte, Named};
ghost use Rattle.messages.specs.MessageOf.{head_sample, head_extended};
ghost use Rattle.messages.specs.Header.{header_of};

use super::head::Head;
use util::limits::ALL_LOOPS;
use util::refusal::Refusal;

#[derive(Clone, Copy, Debug, PartialEq, Eq)]
pub enum LoopType {
    Forward = 0,
    BiDirectional = 1,
    Off = 0x7F,
}

#[derive(Clone, Copy, Debug, PartialEq, Eq)]
pub enum ExtendedLoopType {
    Forward = 0,
    BiDirectional = 1,
    ForwardRelease = 2,
    BiDirectionalRelease = 3,
    Backward = 0x40,
    BackwardBiDirectional = 0x41,
    BackwardRelease = 0x42,
    BackwardBiDirectionalRelease = 0x43,
    BackwardOneShot = 0x7E,
    OneShot = 0x7F,
}

#[derive(Clone, Copy, Debug, PartialEq, Eq)]
pub enum LoopNumber {
    Loop(u16),
    RequestAll,
    DeleteAll,
}

#[derive(Clone, Copy, Debug, PartialEq, Eq)]
pub enum SampleDumpMsg {
    Header {
        sample_num: u16,
        format: u8,
        period: u32,
        length: u32,
        sustain_loop_start: u32,
        sustain_loop_end: u32,
        loop_type: LoopType,
    },
    // text: the sample bytes
    Packet {
        running_count: u8,
    },
    Request {
        sample_num: u16,
    },
    LoopPointTransmission {
        sample_num: u16,
        loop_num: LoopNumber,
        loop_type: LoopType,
        start_addr: u32,
        end_addr: u32,
    },
    LoopPointsRequest {
        sample_num: u16,
        loop_num: LoopNumber,
    },
}

#[derive(Clone, Copy, Debug, PartialEq, Eq)]
pub enum ExtendedSampleDumpMsg {
    // text: the name
    SampleName {
        sample_num: u16,
    },
    SampleNameRequest {
        sample_num: u16,
    },
    // the rate is its whole part and the rest in 2^28ths
    Header {
        sample_num: u16,
        format: u8,
        sample_rate_integer: u32,
        sample_rate_fraction: u32,
        length: u64,
        sustain_loop_start: u64,
        sustain_loop_end: u64,
        loop_type: ExtendedLoopType,
        num_channels: u8,
    },
    LoopPointTransmission {
        sample_num: u16,
        loop_num: LoopNumber,
        loop_type: ExtendedLoopType,
        start_addr: u64,
        end_addr: u64,
    },
    LoopPointsRequest {
        sample_num: u16,
        loop_num: LoopNumber,
    },
}

impl From<LoopType> for u8 {
    ghost from_gives = { λ t b. b ≡ loop_byte t };

    // The byte of a loop type.
    fn from(t: LoopType) -> u8 {
        t as u8
    }
}

impl TryFrom<u8> for LoopType {
    type Error = ();

    ghost try_from_gives = { λ b r. Named loop_code b (result_ok r) };

    // The loop type of a byte.
    fn try_from(b: u8) -> Result<LoopType, ()> {
        match b {
            0 => Ok(LoopType::Forward),
            1 => Ok(LoopType::BiDirectional),
            0x7F => Ok(LoopType::Off),
            _ => Err(()),
        }
    }
}

impl From<ExtendedLoopType> for u8 {
    ghost from_gives = { λ t b. b ≡ extended_loop_byte t };

    // The byte of an extended loop type.
    fn from(t: ExtendedLoopType) -> u8 {
        t as u8
    }
}

impl TryFrom<u8> for ExtendedLoopType {
    type Error = ();

    ghost try_from_gives = { λ b r. Named extended_loop_code b (result_ok r) };

    // The extended loop type of a byte.
    fn try_from(b: u8) -> Result<ExtendedLoopType, ()> {
        match b {
            0 => Ok(ExtendedLoopType::Forward),
            1 => Ok(ExtendedLoopType::BiDirectional),
            2 => Ok(ExtendedLoopType::ForwardRelease),
            3 => Ok(ExtendedLoopType::BiDirectionalRelease),
            0x40 => Ok(ExtendedLoopType::Backward),
            0x41 => Ok(ExtendedLoopType::BackwardBiDirectional),
            0x42 => Ok(ExtendedLoopType::BackwardRelease),
            0x43 => Ok(ExtendedLoopType::BackwardBiDirectionalRelease),
            0x7E => Ok(ExtendedLoopType::BackwardOneShot),
            0x7F => Ok(ExtendedLoopType::OneShot),
            _ => Err(()),
        }
    }
}

// The number of a loop; all loops are 16,383.
// Kept as a named function: From would not say which number, as all loops are 16,383 in a frame and 65,536 among the numbers of C.
pub fn loop_value(i: LoopNumber) -> u64
    ensures { result ≡ loop_value i }
{
    match i {
        LoopNumber::Loop(n) => n as u64,
        LoopNumber::RequestAll => ALL_LOOPS as u64,
        LoopNumber::DeleteAll => ALL_LOOPS as u64,
    }
}

impl SampleDumpMsg {
    // The head of the message.
    // Kept as a match for each enum of messages: they differ in every name.
    pub fn head(self) -> Head
        ensures { result ≡ head_sample self }
    {
        match self {
            SampleDumpMsg::Header { .. } => Head::SampleDumpHeader,
            SampleDumpMsg::Packet { .. } => Head::SampleDumpPacket,
            SampleDumpMsg::Request { .. } => Head::SampleDumpRequest,
            SampleDumpMsg::LoopPointTransmission { .. } => Head::LoopPointTransmission,
            SampleDumpMsg::LoopPointsRequest { .. } => Head::LoopPointsRequest,
        }
    }

    // The packet of a number that is counted round 128; its sample bytes are lent beside it.
    // Kept beside that of file dumps: midi-msg has a packet in each of the two enums.
    pub fn packet(num: u32) -> Self
        ensures { result ≡ Packet (num % 128) }
    {
        SampleDumpMsg::Packet {
            running_count: (num % 128) as u8,
        }
    }
}

impl ExtendedSampleDumpMsg {
    // The head of the message.
    // Kept as a match for each enum of messages: they differ in every name.
    pub fn head(self) -> Head
        ensures { result ≡ head_extended self }
    {
        match self {
            ExtendedSampleDumpMsg::SampleName { .. } => Head::SampleName,
            ExtendedSampleDumpMsg::SampleNameRequest { .. } => Head::SampleNameRequest,
            ExtendedSampleDumpMsg::Header { .. } => Head::ExtendedHeader,
            ExtendedSampleDumpMsg::LoopPointTransmission { .. } =>
                Head::ExtendedLoopPointTransmission,
            ExtendedSampleDumpMsg::LoopPointsRequest { .. } => Head::ExtendedLoopPointsRequest,
        }
    }

    // A header from its rate as a float; refused as the split is.
    pub fn header(
        sample_num: u16,
        format: u8,
        sample_rate: f64,
        length: u64,
        sustain_loop_start: u64,
        sustain_loop_end: u64,
        loop_type: ExtendedLoopType,
        num_channels: u8,
    ) -> Result<ExtendedSampleDumpMsg, Refusal>
        ensures { result ≡ header_of sample_num format sample_rate length sustain_loop_start sustain_loop_end loop_type num_channels }
    {
        let rate = rates::split_rate(sample_rate)?;
        Ok(ExtendedSampleDumpMsg::Header {
            sample_num,
            format,
            sample_rate_integer: rate.whole,
            sample_rate_fraction: rate.fraction,
            length,
            sustain_loop_start,
            sustain_loop_end,
            loop_type,
            num_channels,
        })
    }
}
