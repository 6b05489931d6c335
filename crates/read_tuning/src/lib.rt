// Reads the fields under the heads of tunings, and puts their tunings and note changes into lent places.
// Kept as a slice and a place in it: one slice serves many places.
#![tactic(auto)]

mod entries;
mod scales;

ghost use Rattle.std.specs.Prelude.{◌≡◌, ◌≤◌, length};
ghost use Rattle.util.specs.Limits.{most_places};
ghost use Rattle.util.specs.Splice.{overwritten};
ghost use Rattle.util.specs.Channels.{channels_of};
ghost use Rattle.messages.specs.declared.head.Head.TheVariants as head;
ghost use Rattle.read_places.specs.Places.{value_at, tuning_entries, change_entries};
ghost use Rattle.messages.specs.Layouts.{form};
ghost use Rattle.read_places.specs.Found.{Reads, is_read};

use messages::system_exclusive::UniversalNonRealTimeMsg;
use messages::tuning::{
    ChannelBitMap, KeyBasedTuningDump, ScaleTuning1Byte, ScaleTuning2Byte, ScaleTuningDump1Byte,
    ScaleTuningDump2Byte, TuningNoteChange,
};
use read_places::Found;
use read_places::entries::put_each;
use read_places::fields::Fields;
use util::limits::KEYS;
use util::{channels, groups};

// Kept as pairs, with a bank or without, of one group or of two: each head is a row of the layouts, which its clause names; one function over two
// rows would name both, and is no plainer.

// 08 00: the program.
pub fn bulk_request(f: &Fields) -> Option<Found>
    ensures { Reads head.TuningBulkDumpRequest result f.now }
{
    if f.len() != 1 {
        return None;
    }
    Some(Found::numbers(UniversalNonRealTimeMsg::TuningBulkDumpRequest {
        tuning_bank_num: None,
        tuning_program_num: f.u7_at(0),
    }))
}

// 08 03: bank, program.
pub fn bank_bulk_request(f: &Fields) -> Option<Found>
    ensures { Reads head.BankTuningBulkDumpRequest result f.now }
{
    if f.len() != 2 {
        return None;
    }
    Some(Found::numbers(UniversalNonRealTimeMsg::TuningBulkDumpRequest {
        tuning_bank_num: Some(f.u7_at(0)),
        tuning_program_num: f.u7_at(1),
    }))
}

// 08 01: program, 16 name bytes, 128 tunings.
pub fn key_dump(f: &Fields) -> Option<Found>
    ensures { Reads head.KeyBasedTuningDump result f.now }
{
    if f.len() != 401 {
        return None;
    }
    Some(Found {
        m: UniversalNonRealTimeMsg::KeyBasedTuningDump(KeyBasedTuningDump {
            tuning_bank_num: None,
            tuning_program_num: f.u7_at(0),
        }),
        from: 1,
        len: 16,
        at: 17,
        count: KEYS,
    })
}

// Whether bytes are the fields of 08 01.
pub fn is_key_dump(f: &Fields) -> bool
    ensures { result ≡ is_read ((form head.KeyBasedTuningDump).read f.now) }
{
    f.len() == 401
}

// 08 04: bank, program, 16 name bytes, 128 tunings.
pub fn bank_key_dump(f: &Fields) -> Option<Found>
    ensures { Reads head.BankKeyBasedTuningDump result f.now }
{
    if f.len() != 402 {
        return None;
    }
    Some(Found {
        m: UniversalNonRealTimeMsg::KeyBasedTuningDump(KeyBasedTuningDump {
            tuning_bank_num: Some(f.u7_at(0)),
            tuning_program_num: f.u7_at(1),
        }),
        from: 2,
        len: 16,
        at: 18,
        count: KEYS,
    })
}

// 08 05: bank, program, 16 name bytes, twelve signed values of one group.
pub fn scale_dump_1(f: &Fields) -> Option<Found>
    ensures { Reads head.ScaleTuningDump1Byte result f.now }
{
    if f.len() != 30 {
        return None;
    }
    Some(Found {
        m: UniversalNonRealTimeMsg::ScaleTuningDump1Byte(ScaleTuningDump1Byte {
            tuning_bank_num: f.u7_at(0),
            tuning_program_num: f.u7_at(1),
            tuning: scales::scale_1_at(f, 18),
        }),
        from: 2,
        len: 16,
        at: 0,
        count: 0,
    })
}

// 08 06: bank, program, 16 name bytes, twelve signed values of two groups.
pub fn scale_dump_2(f: &Fields) -> Option<Found>
    ensures { Reads head.ScaleTuningDump2Byte result f.now }
{
    if f.len() != 42 {
        return None;
    }
    Some(Found {
        m: UniversalNonRealTimeMsg::ScaleTuningDump2Byte(ScaleTuningDump2Byte {
            tuning_bank_num: f.u7_at(0),
            tuning_program_num: f.u7_at(1),
            tuning: scales::scale_2_at(f, 18),
        }),
        from: 2,
        len: 16,
        at: 0,
        count: 0,
    })
}

// 08 07: bank, program, the number of note changes, the note changes.
pub fn note_change(f: &Fields) -> Option<Found>
    ensures { Reads head.TuningNoteChange result f.now }
{
    if f.len() < 3 {
        return None;
    }
    let n = f.u7_at(2) as usize;
    if f.len() != 3 + 4 * n {
        return None;
    }
    Some(Found {
        m: UniversalNonRealTimeMsg::TuningNoteChange(TuningNoteChange {
            tuning_bank_num: Some(f.u7_at(0)),
            tuning_program_num: f.u7_at(1),
        }),
        from: 0,
        len: 0,
        at: 3,
        count: n,
    })
}

// The set of channels that the first three bytes name; none where a spare bit is set.
fn channels_at(f: &Fields) -> Option<u16>
    ensures { result ≡ channels_of (value_at 1 f.now 0) (value_at 1 f.now 1) (value_at 1 f.now 2) }
{
    let bytes = f.bytes;
    let first = groups::u7_at(bytes, 0);
    let second = groups::u7_at(bytes, 1);
    let third = groups::u7_at(bytes, 2);
    channels::channels_of(first, second, third)
}

// 08 08: three channel bytes, twelve signed values of one group.
pub fn scale_1(f: &Fields) -> Option<Found>
    ensures { Reads head.ScaleTuning1Byte result f.now }
{
    if f.len() != 15 {
        return None;
    }
    let channels = channels_at(f)?;
    Some(Found::numbers(UniversalNonRealTimeMsg::ScaleTuning1Byte(ScaleTuning1Byte {
        channels: ChannelBitMap { channels },
        tuning: scales::scale_1_at(f, 3),
    })))
}

// 08 09: three channel bytes, twelve signed values of two groups.
pub fn scale_2(f: &Fields) -> Option<Found>
    ensures { Reads head.ScaleTuning2Byte result f.now }
{
    if f.len() != 27 {
        return None;
    }
    let channels = channels_at(f)?;
    Some(Found::numbers(UniversalNonRealTimeMsg::ScaleTuning2Byte(ScaleTuning2Byte {
        channels: ChannelBitMap { channels },
        tuning: scales::scale_2_at(f, 3),
    })))
}

// Puts n tunings from a place of the fields on into the front of lent places.
pub fn put_tunings(out: &mut [u64], f: &[u8], at: usize, n: usize)
    requires { (n ≤ length out.old) × (n ≤ most_places) × (at ≤ length f.now) }
    ensures { out.new ≡ overwritten (tuning_entries f.now at n) out.old }
{
    put_each(out, n, |i| entries::tuning_at(f, at + 3 * i));
}

// Puts n note changes from a place of the fields on into the front of lent places.
pub fn put_changes(out: &mut [u64], f: &[u8], at: usize, n: usize)
    requires { (n ≤ length out.old) × (n ≤ most_places) × (at ≤ length f.now) }
    ensures { out.new ≡ overwritten (change_entries f.now at n) out.old }
{
    put_each(out, n, |i| entries::change_at(f, at + 4 * i));
}
