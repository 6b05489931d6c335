// Bank maps that reach the writer as a lent list of map records.
// Kept as parameters side by side, as those of `writer::write`.
#![tactic(auto)]

ghost use Rattle.std.specs.Prelude.{◌≡◌, map, ◌≤◌, length, take, get_or};
ghost use Rattle.util.specs.Limits.{most_counted};
ghost use Rattle.messages.specs.Entries.{map_of};
ghost use Rattle.messages.specs.Maps.{default_sound_file_map};
ghost use Rattle.writer.specs.Write.{written_at, output_after};
ghost use Rattle.write_maps.specs.Records.{records_frame};

use messages::file_reference::{FileReferenceMsg, SoundFileMap};
use messages::system_exclusive::{DeviceID, UniversalNonRealTimeMsg};
use util::limits::MOST_COUNTED;
use util::refusal::Refusal;

// The entry of a record.
fn entry_of(added: SoundFileMap) -> u64
    ensures { map_of result ≡ added }
{
    added.to_entry()
}

// Writes the frame of a file reference whose bank maps are the first n entries at a place of the output.
// Kept as an array and a number: what is made of records stands in memory of a fixed size, of which the first n are written.
fn write_entries(
    device: DeviceID,
    m: FileReferenceMsg,
    text: &[u8],
    entries: [u64; MOST_COUNTED],
    n: usize,
    out: &mut [u8],
    place: usize,
) -> Result<usize, Refusal>
    requires { n ≤ most_counted }
    ensures { (result ≡ written_at (records_frame device m text.now (map map_of (take n entries))) (length out.old) place)
        × (out.new ≡ output_after (records_frame device m text.now (map map_of (take n entries))) out.old place) }
{
    writer::write(
        device,
        UniversalNonRealTimeMsg::FileReference(m),
        text,
        &entries[..n],
        out,
        place,
    )
}

// Writes the frame of a file reference whose bank maps are the records at a place of the output.
pub fn write_maps(
    device: DeviceID,
    m: FileReferenceMsg,
    text: &[u8],
    maps: &[SoundFileMap],
    out: &mut [u8],
    place: usize,
) -> Result<usize, Refusal>
    ensures { (result ≡ written_at (records_frame device m text.now maps.now) (length out.old) place)
        × (out.new ≡ output_after (records_frame device m text.now maps.now) out.old place) }
{
    let n = maps.len().min(MOST_COUNTED);
    let mut entries = [0; MOST_COUNTED];
    // Kept as a loop over records: the entries behind them stay 0.
    for (i, added) in maps[..n].iter().enumerate() {
        entries[i] = entry_of(*added);
    }
    write_entries(device, m, text, entries, n, out, place)
}

// Writes beside the first n of 130 records by value.
// Kept as an array and a number: a caller of it holds records by value.
pub fn write_first(
    device: DeviceID,
    m: FileReferenceMsg,
    text: &[u8],
    records: [SoundFileMap; 130],
    n: usize,
    out: &mut [u8],
    place: usize,
) -> Result<usize, Refusal>
    ensures { (result ≡ written_at (records_frame device m text.now (take n records)) (length out.old) place)
        × (out.new ≡ output_after (records_frame device m text.now (take n records)) out.old place) }
{
    write_maps(device, m, text, &records[..n.min(130)], out, place)
}

// Record i of lent space, where reading puts bank maps as entries; the default record past its end.
pub fn map_at(entries: &[u64], i: usize) -> SoundFileMap
    ensures { result ≡ get_or (map map_of entries.now) i default_sound_file_map }
{
    match entries.get(i) {
        Some(entry) => SoundFileMap::from_entry(*entry),
        None => SoundFileMap::default(),
    }
}
