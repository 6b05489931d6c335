// Tunings and note changes of the fields, as entries of lent places.
// Kept as a slice and a place in it: one slice serves many places.
ghost use Rattle.std.specs.Prelude.{◌≡◌, ◌+◌, ◌^◌, ◌<◌, ◌≤◌, length};
ghost use Rattle.util.specs.Limits.{no_tuning};
ghost use Rattle.messages.specs.Fields.{tuning_named};
ghost use Rattle.messages.specs.Entries.{tuning_entry, change_entry};
ghost use Rattle.read_places.specs.Places.{tuning_at, change_at};

use util::groups;
use util::limits::NO_TUNING;

// The entry of a semitone and a fraction.
fn named(semitone: u64, fraction: u64) -> u64
    requires { (semitone < 256) × (fraction < 65536) }
    ensures { (result ≡ tuning_entry (tuning_named (semitone, fraction))) × (result ≤ no_tuning) }
{
    let entry = semitone * 65536 + fraction;
    if entry == 8339455 { NO_TUNING } else { entry }
}

// The entry of the tuning at i, of which the third byte or more is missing.
fn cut_tuning_at(f: &[u8], i: usize) -> u64
    requires { length f.now < i + 3 }
    ensures { (result ≡ tuning_entry (tuning_at f.now i)) × (result ≤ no_tuning) }
{
    if f.len() <= i {
        return named(0, 0);
    }
    let semitone = f[i] as u64;
    let fraction = groups::at(f, i + 1) as u64;
    named(semitone, fraction)
}

// The entry of the tuning at i.
pub fn tuning_at(f: &[u8], i: usize) -> u64
    ensures { (result ≡ tuning_entry (tuning_at f.now i)) × (result ≤ no_tuning) }
{
    if f.len() < 3 {
        return cut_tuning_at(f, i);
    }
    if f.len() - 3 < i {
        return cut_tuning_at(f, i);
    }
    let semitone = f[i] as u64;
    let fraction = f[i + 1] as u64 * 128 + f[i + 2] as u64;
    named(semitone, fraction)
}

// The entry of the note change at i.
pub fn change_at(f: &[u8], i: usize) -> u64
    requires { i + 1 < 2 ^ 64 }
    ensures { result ≡ change_entry (change_at f.now i) }
{
    let key = groups::u7_at(f, i) as u64;
    key * 33554432 + tuning_at(f, i + 1)
}
