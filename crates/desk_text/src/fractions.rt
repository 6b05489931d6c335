// Cents as parts of a semitone.
ghost use Rattle.std.specs.Prelude.{◌≡◌, ◌≤◌};
ghost use Rattle.desk_text.specs.Cents.{most};
ghost use Rattle.desk_text.specs.Fractions.{step_16384, step_8192, nearest, entry_of, highest, tuning_entry, raised_entry, lowered_entry, tuned_entry};

use super::cents::{Decimals, MOST};
use util::limits::KEYS;

// The highest pitch, in 16,384ths of a semitone: the part above it is written as no tuning.
const HIGHEST: u64 = 2097150;

// The 16,384ths of a semitone nearest to ten trillionths of a cent.
// Kept as a pair, one line each: a constant of a half and a step would be their parameters.
fn nearest_16384(amount: u64) -> u64
    requires { amount ≤ most }
    ensures { result ≡ nearest step_16384 amount }
{
    (amount + 30517578125) / 61035156250
}

// The 8,192nds of a semitone nearest to ten trillionths of a cent.
pub fn nearest_8192(amount: u64) -> u64
    requires { amount ≤ most }
    ensures { result ≡ nearest step_8192 amount }
{
    (amount + 61035156250) / 122070312500
}

// The entry of a pitch.
fn entry(pitch: u64) -> u64
    requires { pitch ≤ highest }
    ensures { result ≡ entry_of pitch }
{
    pitch / 16384 * 65536 + pitch % 16384
}

// The entry of a pitch, where there is such a tuning.
fn in_range(pitch: u64) -> Option<u64>
    ensures { result ≡ tuning_entry pitch }
{
    if pitch <= HIGHEST {
        return Some(entry(pitch));
    }
    None
}

// The entry of a key's tuning, told by its difference from equal temperament, where there is one.
#[tactic(auto, unfolding(crate::specs::Fractions::tuned_entry, crate::specs::Fractions::changed_entry))]
pub fn tuned(key: u64, d: Option<Decimals>) -> Option<u64>
    ensures { result ≡ tuned_entry key d }
{
    if KEYS as u64 <= key {
        return None;
    }
    match d? {
        Decimals::Above(a) => raised(key * 16384, a),
        Decimals::Below(a) => lowered(key * 16384, a),
    }
}

// The entry of a pitch that is raised.
fn raised(pitch: u64, a: u64) -> Option<u64>
    requires { pitch ≤ highest }
    ensures { result ≡ raised_entry pitch a }
{
    if a <= MOST {
        return in_range(pitch + nearest_16384(a));
    }
    None
}

// The entry of a pitch that is lowered.
#[tactic(auto, unfolding(crate::specs::Fractions::lowered_entry))]
fn lowered(pitch: u64, a: u64) -> Option<u64>
    requires { pitch ≤ highest }
    ensures { result ≡ lowered_entry pitch a }
{
    if MOST < a {
        return None;
    }
    in_range(pitch.checked_sub(nearest_16384(a))?)
}
