// File dumps. Names and file data are lent beside these as text.
ghost use Rattle.std.specs.Prelude.{◌≡◌, ◌%◌};
ghost use Rattle.messages.specs.declared.file_dump.FileDumpMsg.TheVariants.{Packet};
ghost use Rattle.messages.specs.Fields.{type_bytes, type_of, four};
ghost use Rattle.messages.specs.MessageOf.{head_file};

use super::head::Head;
use super::system_exclusive::DeviceID;

#[derive(Clone, Copy, Debug, PartialEq, Eq)]
pub enum FileType {
    MIDI,
    MIEX,
    ESEQ,
    TEXT,
    BIN,
    MAC,
    Custom([u8; 4]),
}

impl From<FileType> for [u8; 4] {
    ghost from_gives = { λ t l. l ≡ type_bytes t };

    // The four letters of a file type.
    fn from(t: FileType) -> [u8; 4] {
        match t {
            FileType::MIDI => *b"MIDI",
            FileType::MIEX => *b"MIEX",
            FileType::ESEQ => *b"ESEQ",
            FileType::TEXT => *b"TEXT",
            FileType::BIN => *b"BIN ",
            FileType::MAC => *b"MAC ",
            FileType::Custom(letters) => letters,
        }
    }
}

impl From<[u8; 4]> for FileType {
    ghost from_gives = { λ l t. t ≡ type_of (four l) };

    // The file type that four letters spell.
    fn from(letters: [u8; 4]) -> FileType {
        match &letters {
            b"MIDI" => FileType::MIDI,
            b"MIEX" => FileType::MIEX,
            b"ESEQ" => FileType::ESEQ,
            b"TEXT" => FileType::TEXT,
            b"BIN " => FileType::BIN,
            b"MAC " => FileType::MAC,
            _ => FileType::Custom(letters),
        }
    }
}

#[derive(Clone, Copy, Debug, PartialEq, Eq)]
pub enum FileDumpMsg {
    // text: the name
    Header {
        sender_device: DeviceID,
        file_type: FileType,
        length: u32,
    },
    // text: the file data
    Packet {
        running_count: u8,
    },
    // text: the name
    Request {
        requester_device: DeviceID,
        file_type: FileType,
    },
}

impl FileDumpMsg {
    // The head of the message. Kept as a match for each enum of messages: they differ in every name.
    pub fn head(self) -> Head
        ensures { result ≡ head_file self }
    {
        match self {
            FileDumpMsg::Header { .. } => Head::FileDumpHeader,
            FileDumpMsg::Packet { .. } => Head::FileDumpPacket,
            FileDumpMsg::Request { .. } => Head::FileDumpRequest,
        }
    }

    // The packet of a number that is counted round 128; its data is lent beside it.
    pub fn packet(num: u32) -> Self
        ensures { result ≡ Packet (num % 128) }
    {
        FileDumpMsg::Packet {
            running_count: (num % 128) as u8,
        }
    }
}
