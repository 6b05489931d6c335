// File references (CA-018, CA-028). The URL is lent beside these as text, the maps of a sound file as entries.
ghost use Rattle.std.specs.Prelude.{◌≡◌};
ghost use Rattle.messages.specs.Maps.{reference_code};
ghost use Rattle.messages.specs.Maps.{default_sound_file_map, default_wav_map};
ghost use Rattle.messages.specs.Entries.{map_entry, map_of};
ghost use Rattle.messages.specs.MessageOf.{head_select, head_reference};

use super::head::Head;

// The kind of sound file open: the scope's "bank or WAV".
#[derive(Clone, Copy, Debug, PartialEq, Eq)]
pub enum Kind {
    Bank,
    WAV,
}

#[derive(Clone, Copy, Debug, PartialEq, Eq)]
pub enum FileReferenceType {
    DLS,
    SF2,
    WAV,
}

impl From<FileReferenceType> for [u8; 4] {
    ghost from_gives = { λ t l. l ≡ reference_code t };

    // The four letters of a file reference type.
    fn from(t: FileReferenceType) -> [u8; 4] {
        match t {
            FileReferenceType::DLS => *b"DLS ",
            FileReferenceType::SF2 => *b"SF2 ",
            FileReferenceType::WAV => *b"WAV ",
        }
    }
}

#[derive(Clone, Copy, Debug, PartialEq, Eq)]
pub struct SoundFileMap {
    pub dst_bank: u16,
    pub dst_prog: u8,
    pub src_bank: u16,
    pub src_prog: u8,
    pub src_drum: bool,
    pub dst_drum: bool,
    pub volume: u8,
}

impl SoundFileMap {
    pub const BANK: u16 = 0;

    pub const PROGRAM: u8 = 0;

    pub const DRUM: bool = false;

    pub const VOLUME: u8 = 0x7F;

    // The map as an entry. Kept as a named function, as those of KeyTuning are.
    pub fn to_entry(self) -> u64
        ensures { result ≡ map_entry self }
    {
        let target = self.dst_bank as u64 * 256 + self.dst_prog as u64;
        let source = (target * 65536 + self.src_bank as u64) * 256 + self.src_prog as u64;
        let drums = (source * 2 + u64::from(self.src_drum)) * 2 + u64::from(self.dst_drum);
        drums * 256 + self.volume as u64
    }

    // The map that an entry says.
    pub fn from_entry(entry: u64) -> Self
        ensures { result ≡ map_of entry }
    {
        SoundFileMap {
            dst_bank: (entry / 4398046511104).min(65535) as u16,
            dst_prog: (entry / 17179869184 % 256) as u8,
            src_bank: (entry / 262144 % 65536) as u16,
            src_prog: (entry / 1024 % 256) as u8,
            src_drum: entry / 512 % 2 == 1,
            dst_drum: entry / 256 % 2 == 1,
            volume: (entry % 256) as u8,
        }
    }
}

impl Default for SoundFileMap {
    ghost is_default = { λ m. m ≡ default_sound_file_map };

    // The map of the crate's default.
    fn default() -> Self {
        SoundFileMap {
            dst_bank: Self::BANK,
            dst_prog: Self::PROGRAM,
            src_bank: Self::BANK,
            src_prog: Self::PROGRAM,
            src_drum: Self::DRUM,
            dst_drum: Self::DRUM,
            volume: Self::VOLUME,
        }
    }
}

#[derive(Clone, Copy, Debug, PartialEq, Eq)]
pub struct WAVMap {
    pub dst_bank: u16,
    pub dst_prog: u8,
    pub base: u8,
    pub lokey: u8,
    pub hikey: u8,
    pub fine: i16,
    pub volume: u8,
}

impl WAVMap {
    pub const BANK: u16 = 0;

    pub const PROGRAM: u8 = 0;

    pub const BASE: u8 = 60;

    pub const LOKEY: u8 = 0;

    pub const HIKEY: u8 = 0x7F;

    pub const FINE: i16 = 0;

    pub const VOLUME: u8 = 0x7F;
}

// Kept as a default for each map: the two differ in their fields and values.
impl Default for WAVMap {
    ghost is_default = { λ m. m ≡ default_wav_map };

    // The map of the crate's default.
    fn default() -> Self {
        WAVMap {
            dst_bank: Self::BANK,
            dst_prog: Self::PROGRAM,
            base: Self::BASE,
            lokey: Self::LOKEY,
            hikey: Self::HIKEY,
            fine: Self::FINE,
            volume: Self::VOLUME,
        }
    }
}

#[derive(Clone, Copy, Debug, PartialEq, Eq)]
pub enum SelectMap {
    // entries: the maps
    SoundFile,
    WAV(WAVMap),
    SoundFileBankOffset {
        bank_offset: u16,
        src_drum: bool,
    },
    WAVBankOffset {
        map: WAVMap,
        bank_offset: u16,
        src_drum: bool,
    },
}

#[derive(Clone, Copy, Debug, PartialEq, Eq)]
pub enum FileReferenceMsg {
    // text: the URL
    Open {
        ctx: u16,
        file_type: FileReferenceType,
    },
    SelectContents {
        ctx: u16,
        map: SelectMap,
    },
    // text: the URL
    OpenSelectContents {
        ctx: u16,
        file_type: FileReferenceType,
        map: SelectMap,
    },
    Close {
        ctx: u16,
    },
}

impl SelectMap {
    // The head of a select with this map.
    pub fn head(self) -> Head
        ensures { result ≡ head_select self }
    {
        match self {
            SelectMap::SoundFile => Head::SelectSoundFile,
            SelectMap::WAV(_) => Head::SelectWAV,
            SelectMap::SoundFileBankOffset { .. } => Head::SelectSoundFile,
            SelectMap::WAVBankOffset { .. } => Head::SelectWAV,
        }
    }
}

impl FileReferenceMsg {
    // The head of the message.
    pub fn head(self) -> Head
        ensures { result ≡ head_reference self }
    {
        match self {
            FileReferenceMsg::Open { .. } => Head::FileReferenceOpen,
            FileReferenceMsg::SelectContents { ctx: _, map } => map.head(),
            FileReferenceMsg::OpenSelectContents { .. } => Head::FileReferenceOpenSelect,
            FileReferenceMsg::Close { .. } => Head::FileReferenceClose,
        }
    }
}
