// Tunings. Names are lent beside these as text, tunings of keys as entries.
ghost use Rattle.std.specs.Prelude.{◌≡◌};
ghost use Rattle.messages.specs.Fields.{bank_number};
ghost use Rattle.messages.specs.Entries.{tuning_entry, tuning_of, change_entry, change_of};
ghost use Rattle.util.specs.Channels.{how_many, lowest};

use util::limits::NO_TUNING;

#[derive(Clone, Copy, Debug, PartialEq, Eq)]
pub struct Tuning {
    pub semitone: u8,
    pub fraction: u16,
}

// A tuning, or none, as an entry.
pub fn tuning_entry(tuning: Option<Tuning>) -> u64
    ensures { result ≡ tuning_entry tuning }
{
    match tuning {
        None => NO_TUNING,
        Some(t) => t.semitone as u64 * 65536 + t.fraction as u64,
    }
}

// The tuning that an entry says.
pub fn tuning_of(entry: u64) -> Option<Tuning>
    ensures { result ≡ tuning_of entry }
{
    if entry < NO_TUNING {
        Some(Tuning {
            semitone: (entry / 65536) as u8,
            fraction: (entry % 65536) as u16,
        })
    } else {
        None
    }
}

// A key and its tuning: an element of the crate's list of note changes.
#[derive(Clone, Copy, Debug, PartialEq, Eq)]
pub struct KeyTuning {
    pub key: u8,
    pub tuning: Option<Tuning>,
}

// Kept as named functions: From of a u64 would not say that the number is an entry.
impl KeyTuning {
    // The note change as an entry.
    pub fn to_entry(self) -> u64
        ensures { result ≡ change_entry self }
    {
        self.key as u64 * 33554432 + tuning_entry(self.tuning)
    }

    // The note change that an entry says.
    pub fn from_entry(entry: u64) -> Self
        ensures { result ≡ change_of entry }
    {
        let key = (entry / 33554432).min(255) as u8;
        let tuning = tuning_of(entry % 33554432);
        KeyTuning { key, tuning }
    }
}

// The number of a bank; no bank is 0.
pub fn bank_number(bank: Option<u8>) -> u64
    ensures { result ≡ bank_number bank }
{
    bank.unwrap_or(0) as u64
}

// Sixteen channels: channel c is bit c - 1.
#[derive(Clone, Copy, Debug, PartialEq, Eq)]
pub struct ChannelBitMap {
    pub channels: u16,
}

impl ChannelBitMap {
    // All sixteen channels.
    pub fn all() -> Self
        ensures { result.channels ≡ 65535 }
    {
        ChannelBitMap { channels: 65535 }
    }

    // No channel.
    pub fn none() -> Self
        ensures { result.channels ≡ 0 }
    {
        ChannelBitMap { channels: 0 }
    }

    // How many channels the map names.
    pub fn how_many(self) -> u32
        ensures { result ≡ how_many self.channels }
    {
        util::channels::how_many(self.channels)
    }

    // The lowest channel that the map names; 0 for none.
    pub fn lowest(self) -> u32
        ensures { result ≡ lowest self.channels }
    {
        util::channels::lowest(self.channels)
    }
}

// entries: the tunings of keys 0 to 127; text: the name
#[derive(Clone, Copy, Debug, PartialEq, Eq)]
pub struct KeyBasedTuningDump {
    pub tuning_bank_num: Option<u8>,
    pub tuning_program_num: u8,
}

// text: the name; the adjustments of the twelve semitones, in cents
#[derive(Clone, Copy, Debug, PartialEq, Eq)]
pub struct ScaleTuningDump1Byte {
    pub tuning_bank_num: u8,
    pub tuning_program_num: u8,
    pub tuning: [i8; 12],
}

// text: the name; the adjustments in 8,192nds of 100 cents
// Kept as a type of its own, as ScaleTuning2Byte is: the types of this crate are those of midi-msg, by name.
#[derive(Clone, Copy, Debug, PartialEq, Eq)]
pub struct ScaleTuningDump2Byte {
    pub tuning_bank_num: u8,
    pub tuning_program_num: u8,
    pub tuning: [i16; 12],
}

// entries: the note changes
#[derive(Clone, Copy, Debug, PartialEq, Eq)]
pub struct TuningNoteChange {
    pub tuning_bank_num: Option<u8>,
    pub tuning_program_num: u8,
}

#[derive(Clone, Copy, Debug, PartialEq, Eq)]
pub struct ScaleTuning1Byte {
    pub channels: ChannelBitMap,
    pub tuning: [i8; 12],
}

#[derive(Clone, Copy, Debug, PartialEq, Eq)]
pub struct ScaleTuning2Byte {
    pub channels: ChannelBitMap,
    pub tuning: [i16; 12],
}
