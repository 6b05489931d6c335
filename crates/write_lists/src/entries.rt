// Entries: tunings of keys, and note changes.
ghost use Rattle.std.specs.Prelude.{◌≡◌, ◌+◌, ◌*◌, ◌≤◌, ◌<◌, List, ℕ, min, length, get_or, refl};
ghost use Rattle.util.specs.Splice.{overwritten};
ghost use Rattle.messages.specs.format.Core.{written};
ghost use Rattle.messages.specs.Fields.{tuning};
ghost use Rattle.messages.specs.Structures.{key_tuning};
ghost use Rattle.messages.specs.Entries.{tuning_of, change_of};
ghost use Rattle.write_lists.specs.Parts.{part_keys, part_changes};

use crate::format::{Format, put_counted};
use util::limits::{KEYS, NO_TUNING};
use util::{fields, groups};

// The tuning of an entry: from 2^24 on there is none.
// Kept beside `tuning_of` of messages: a value between the entry and its bytes would be made to be taken apart.
pub struct TuningEntry;

impl Format for TuningEntry {
    type Value = u64;

    const SIZE: usize = 3;

    ghost SIZE = { 3 };

    ghost bytes = { λ e. written tuning (tuning_of e) };

    fn put(out: &mut [u8], e: u64) {
        if e < NO_TUNING {
            fields::put_tuning(out, (e / 65536) as u8, (e % 65536) as u16);
        } else {
            fields::put_no_tuning(out);
        }
    }

    ghost sized = { λ e. refl };
}

// The note change of an entry: a key and a tuning.
// Kept beside `KeyTuning::from_entry` of messages: a value between the entry and its bytes would be made to be taken apart.
pub struct ChangeEntry;

impl Format for ChangeEntry {
    type Value = u64;

    const SIZE: usize = 4;

    ghost SIZE = { 4 };

    ghost bytes = { λ e. written key_tuning (change_of e) };

    fn put(out: &mut [u8], e: u64) {
        groups::put_u7(out, (e / 33554432).min(255));
        TuningEntry::put(&mut out[1..], e % 33554432);
    }

    ghost sized = { λ e. refl };
}

// The entry at i; past the end that of the key i itself.
fn key_at(s: &[u64], i: usize) -> u64
    requires { i < 128 }
    ensures { result ≡ get_or s.now i (i * 65536) }
{
    match s.get(i) {
        Some(e) => *e,
        None => i as u64 * 65536,
    }
}

// Writes the tunings of 128 keys.
pub fn put_keys(out: &mut [u8], s: &[u64])
    requires { 384 ≤ length out.old }
    ensures { out.new ≡ overwritten (part_keys s.now) out.old }
{
    // Kept as a loop over keys: a key behind the given tunings has an entry too.
    for i in 0..KEYS {
        TuningEntry::put(&mut out[3 * i..], key_at(s, i));
    }
}

// Writes the number of note changes, at most 127, and so many of them.
pub fn put_changes(out: &mut [u8], s: &[u64])
    requires { 1 + 4 * min (length s.now) 127 ≤ length out.old }
    ensures { out.new ≡ overwritten (part_changes s.now) out.old }
{
    put_counted::<ChangeEntry>(out, s);
}
