// The maps of file references.
ghost use Rattle.std.specs.Prelude.{◌≡◌, ◌++◌, ◌+◌, ◌*◌, ◌≤◌, List, ℕ, min, length, refl};
ghost use Rattle.util.specs.Splice.{overwritten};
ghost use Rattle.messages.specs.format.Core.{written};
ghost use Rattle.messages.specs.Maps.{sound_file_map, wav_map};
ghost use Rattle.messages.specs.Entries.{map_of};
ghost use Rattle.write_lists.specs.Parts.{part_maps, part_offset, part_select, size_select};

use crate::format::{Format, put_counted};
use messages::file_reference::{SelectMap, WAVMap};
use util::limits::LARGEST_U14;
use util::{bytes, signed};

// The bank map of an entry.
// Kept beside `SoundFileMap::from_entry` of messages: a value between the entry and its bytes would be made to be taken apart.
pub struct MapEntry;

impl Format for MapEntry {
    type Value = u64;

    const SIZE: usize = 8;

    ghost SIZE = { 8 };

    ghost bytes = { λ e. written sound_file_map (map_of e) };

    fn put(out: &mut [u8], e: u64) {
        let target = (e / 4398046511104).min(LARGEST_U14);
        let source = (e / 262144 % 65536).min(LARGEST_U14);
        let row = [
            (target % 128) as u8,
            (target / 128) as u8,
            (e / 17179869184 % 256).min(127) as u8,
            (source % 128) as u8,
            (source / 128) as u8,
            (e / 1024 % 256).min(127) as u8,
            (e / 512 % 2 + 2 * (e / 256 % 2)) as u8,
            (e % 256).min(127) as u8,
        ];
        bytes::copy(out, &row);
    }

    ghost sized = { λ e. refl };
}

// Writes the number of bank maps, at most 127, and so many of them.
pub fn put_maps(out: &mut [u8], s: &[u64])
    requires { 1 + 8 * min (length s.now) 127 ≤ length out.old }
    ensures { out.new ≡ overwritten (part_maps s.now) out.old }
{
    put_counted::<MapEntry>(out, s);
}

// Writes an offset of banks, with its drum flag.
pub fn put_offset(out: &mut [u8], o: u16, d: bool)
    requires { 7 ≤ length out.old }
    ensures { out.new ≡ overwritten (part_offset o d) out.old }
{
    let bank = (o as u64).min(LARGEST_U14);
    let row = [
        0x00,
        0x00,
        0x01,
        0x03,
        (bank % 128) as u8,
        (bank / 128) as u8,
        d as u8,
    ];
    bytes::copy(out, &row);
}

// Writes a WAV map.
pub fn put_wav(out: &mut [u8], m: WAVMap)
    requires { 9 ≤ length out.old }
    ensures { out.new ≡ overwritten (written wav_map m) out.old }
{
    let bank = (m.dst_bank as u64).min(LARGEST_U14);
    let fine = signed::i_to_u14(m.fine);
    let row = [
        (bank % 128) as u8,
        (bank / 128) as u8,
        m.dst_prog.min(127),
        m.base.min(127),
        m.lokey.min(127),
        m.hikey.min(127),
        (fine % 128) as u8,
        (fine / 128) as u8,
        m.volume.min(127),
    ];
    bytes::copy(out, &row);
}

// Writes a WAV map and an offset.
fn put_wav_offset(out: &mut [u8], m: WAVMap, o: u16, d: bool)
    requires { 16 ≤ length out.old }
    ensures { out.new ≡ overwritten (written wav_map m ++ part_offset o d) out.old }
{
    put_wav(out, m);
    put_offset(&mut out[9..], o, d);
}

// Writes what a select holds.
pub fn put_select(out: &mut [u8], m: SelectMap, entries: &[u64])
    requires { size_select m (length entries.now) ≤ length out.old }
    ensures { out.new ≡ overwritten (part_select m entries.now) out.old }
{
    match m {
        SelectMap::SoundFile => put_maps(out, entries),
        SelectMap::WAV(map) => put_wav(out, map),
        SelectMap::SoundFileBankOffset {
            bank_offset,
            src_drum,
        } => { put_offset(out, bank_offset, src_drum) }
        SelectMap::WAVBankOffset {
            map,
            bank_offset,
            src_drum,
        } => put_wav_offset(out, map, bank_offset, src_drum),
    }
}
