// Values held to a range, and the lengths of texts and maps.
ghost use Rattle.std.specs.Prelude.{◌≡◌, ◌+◌, ◌*◌, min};
ghost use Rattle.write_fronts.specs.Fronts.{clamp, map_length};

use messages::file_reference::SelectMap;
use util::limits::{MOST_COUNTED, MOST_URL};

// The largest values of three, four and five groups.
pub const LARGEST_U21: u64 = 2097151;

pub const LARGEST_U28: u64 = 268435455;

pub const LARGEST_U35: u64 = 34359738367;

// A value held to lo..hi.
pub fn clamp(v: u64, lo: u64, hi: u64) -> u64
    ensures { result ≡ clamp lo hi v }
{
    v.min(hi).max(lo)
}

// The length of a type and of a URL of x bytes with the 00 after it.
pub fn url_length(x: usize) -> u64
    ensures { result ≡ 5 + min x 260 }
{
    5 + x.min(MOST_URL) as u64
}

// The length of the maps of a sound file and of the byte with their number, for y entries.
fn maps_length(y: usize) -> u64
    ensures { result ≡ 1 + 8 * min y 127 }
{
    1 + 8 * y.min(MOST_COUNTED) as u64
}

// The length of a map, for y entries.
// Kept beside `size_select` of write_lists: a frame says 15 for an offset of a WAV file, which has 16 bytes.
pub fn map_length(m: SelectMap, y: usize) -> u64
    ensures { result ≡ map_length m y }
{
    match m {
        SelectMap::SoundFile => maps_length(y),
        SelectMap::WAV(_) => 9,
        SelectMap::SoundFileBankOffset { .. } => 7,
        SelectMap::WAVBankOffset { .. } => 15,
    }
}

// The length of a type, a URL of x bytes and a map.
pub fn url_map_length(x: usize, m: SelectMap, y: usize) -> u64
    ensures { result ≡ 5 + min x 260 + map_length m y }
{
    let n = url_length(x);
    n + map_length(m, y)
}
