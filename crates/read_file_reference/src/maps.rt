// The maps of a file reference by place: bank maps, WAV maps, offsets.
// Kept as `Fields` and a place in them: the same fields serve many places.
// The clause `Seven f.now` of a contract hands the invariant of `Fields` on to the proofs of the callers.
ghost use Rattle.std.specs.Prelude.{◌≡◌, ◌+◌, ◌*◌, ◌^◌, ◌<◌, ◌≤◌, length, drop};
ghost use Rattle.util.specs.Limits.{most_places};
ghost use Rattle.util.specs.Groups.{Seven};
ghost use Rattle.util.specs.Splice.{overwritten};
ghost use Rattle.messages.specs.Fields.{bits_of};
ghost use Rattle.messages.specs.Maps.{offset, bank_only, wav_only};
ghost use Rattle.read_places.specs.Places.{map_at, map_entries};
ghost use Rattle.read_file_reference.specs.Maps.{wav_at, offset_got, flags_fit};
ghost use Rattle.read_file_reference.specs.Picked.{Picks};

use crate::texts::spells;
use messages::file_reference::{SelectMap, SoundFileMap, WAVMap};
use read_places::entries::put_each;
use read_places::fields::Fields;
use util::groups::{at, u7_at, u14_at};
use util::signed::u14_to_i;

// A map, the length that is counted for it, and where its list starts with the number of maps.
#[derive(Clone, Copy, Debug, PartialEq, Eq)]
pub struct Picked {
    pub map: SelectMap,
    pub length: usize,
    pub at: usize,
    pub count: usize,
}

// A bank offset with its drum flag.
#[derive(Clone, Copy, Debug, PartialEq, Eq)]
pub struct Offset {
    pub bank_offset: u16,
    pub src_drum: bool,
}

// Bit 0 of the flags: source drum.
fn is_source(flags: u8) -> bool
    ensures { result ≡ (bits_of flags).0 }
{
    if flags == 0 {
        return false;
    }
    flags != 2
}

// Bit 1 of the flags: target drum.
fn is_target(flags: u8) -> bool
    ensures { result ≡ (bits_of flags).1 }
{
    1 < flags
}

// The bank map whose eight bytes stand at i.
fn map_at(f: &[u8], i: usize) -> SoundFileMap
    requires { i + 8 < 2 ^ 64 }
    ensures { result ≡ map_at f.now i }
{
    let flags = u7_at(f, i + 6);
    let source = is_source(flags);
    let target = is_target(flags);
    SoundFileMap {
        dst_bank: u14_at(f, i),
        dst_prog: u7_at(f, i + 2),
        src_bank: u14_at(f, i + 3),
        src_prog: u7_at(f, i + 5),
        src_drum: source,
        dst_drum: target,
        volume: u7_at(f, i + 7),
    }
}

// Writes the n maps of the fields f from at on, a place each.
pub fn put_maps(out: &mut [u64], f: &[u8], at: usize, n: usize)
    requires { (n ≤ length out.old) × (n ≤ most_places) × (at ≤ length f.now) }
    ensures { out.new ≡ overwritten (map_entries f.now at n) out.old }
{
    put_each(out, n, |j| map_at(f, at + 8 * j).to_entry());
}

// The WAV map whose nine bytes stand at i.
fn wav_at(f: &Fields, i: usize) -> WAVMap
    requires { (i + 9 ≤ length f.now) × (i + 9 < 2 ^ 64) }
    ensures { result ≡ wav_at f.now i }
{
    WAVMap {
        dst_bank: f.u14_at(i),
        dst_prog: f.u7_at(i + 2),
        base: f.u7_at(i + 3),
        lokey: f.u7_at(i + 4),
        hikey: f.u7_at(i + 5),
        fine: u14_to_i(u14_at(f.bytes, i + 6)),
        volume: f.u7_at(i + 8),
    }
}

// The offset whose seven bytes stand at i.
fn offset_at(f: &Fields, i: usize) -> Option<Offset>
    requires { (i + 7 ≤ length f.now) × (i + 7 < 2 ^ 64) }
    ensures { Seven f.now × (offset_got result (drop (i + 7) f.now) ≡ offset.read (drop i f.now)) }
{
    let flag = at(f.bytes, i + 6);
    if spells(f, i, &[0x00, 0x00, 0x01, 0x03]) && flag <= 1 {
        Some(Offset {
            bank_offset: f.u14_at(i + 4),
            src_drum: flag == 1,
        })
    } else {
        None
    }
}

// Whether the flags of the n bank maps from start on are at most 3.
fn flags_fit(f: &Fields, start: usize, n: usize) -> bool
    requires { (start + 8 * n ≤ length f.now) × (start + 8 * n < 2 ^ 64) }
    ensures { result ≡ flags_fit f.now start n }
{
    (0..n).all(|j| f.at(start + 8 * j + 6) <= 3)
}

// A bank offset from i to the end.
fn bank_offset_at(f: &Fields, i: usize) -> Option<Picked>
    requires { (length f.now ≡ i + 7) × (i + 7 < 2 ^ 64) }
    ensures { Picks bank_only result f.now i }
{
    let Offset {
        bank_offset,
        src_drum,
    } = offset_at(f, i)?;
    Some(Picked {
        map: SelectMap::SoundFileBankOffset {
            bank_offset,
            src_drum,
        },
        length: 7,
        at: 0,
        count: 0,
    })
}

// What is selected of a bank file, from i to the end.
pub fn bank_map_at(f: &Fields, i: usize) -> Option<Picked>
    requires { i ≤ length f.now }
    ensures { Picks bank_only result f.now i }
{
    let length = f.len() - i;
    if length == 7 {
        return bank_offset_at(f, i);
    }
    let n = f.at(i) as usize;
    if length != 1 + 8 * n {
        return None;
    }
    if flags_fit(f, i + 1, n) {
        Some(Picked {
            map: SelectMap::SoundFile,
            length,
            at: i + 1,
            count: n,
        })
    } else {
        None
    }
}

// A WAV map with an offset, from i to the end: counted as 15.
fn wav_offset_at(f: &Fields, i: usize) -> Option<Picked>
    requires { (length f.now ≡ i + 16) × (i + 16 < 2 ^ 64) }
    ensures { Picks wav_only result f.now i }
{
    let map = wav_at(f, i);
    let Offset {
        bank_offset,
        src_drum,
    } = offset_at(f, i + 9)?;
    Some(Picked {
        map: SelectMap::WAVBankOffset {
            map,
            bank_offset,
            src_drum,
        },
        length: 15,
        at: 0,
        count: 0,
    })
}

// What is selected of a WAV file, from i to the end.
pub fn wav_map_at(f: &Fields, i: usize) -> Option<Picked>
    requires { i ≤ length f.now }
    ensures { Picks wav_only result f.now i }
{
    let length = f.len() - i;
    if length == 9 {
        let map = wav_at(f, i);
        return Some(Picked {
            map: SelectMap::WAV(map),
            length: 9,
            at: 0,
            count: 0,
        });
    }
    if length == 16 {
        return wav_offset_at(f, i);
    }
    None
}
