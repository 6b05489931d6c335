// Words as keys: a number, or a name such as C#4.
ghost use Rattle.std.specs.Prelude.{◌≡◌, ◌+◌, ◌*◌};
ghost use Rattle.desk_text.specs.Keys.{semitone, shift, octave, key_at, named_of, octave_part, name_of, within_keys, key_of};

use super::spans::is_digit;
use util::groups::at;
use util::limits::KEYS;

// The semitones of the letters from A to G above C.
const SEMITONES: [u8; 7] = [9, 11, 0, 2, 4, 5, 7];

// The semitones of a letter above C; nothing for a byte that is no letter of a name.
#[tactic(auto, unfolding(crate::specs::Keys::semitone, crate::specs::Keys::capital))]
fn semitone_of(b: u8) -> Option<u64>
    ensures { result ≡ semitone b }
{
    let i = b.to_ascii_uppercase().checked_sub(b'A')?;
    let n = SEMITONES.get(i as usize)?;
    Some(*n as u64)
}

// One more than the semitones that a byte raises a letter by: 2 for a sharp, 0 for a flat, 1 for another byte.
#[tactic(auto, unfolding(crate::specs::Keys::shift))]
fn shift_of(b: u8) -> u64
    ensures { result ≡ shift b }
{
    match b {
        b'#' => 2,
        b'b' => 0,
        _ => 1,
    }
}

// One more than the octave of a word, from -1 to 9.
#[tactic(auto, unfolding(crate::specs::Keys::octave))]
fn octave_of(s: &[u8]) -> Option<u64>
    ensures { result ≡ octave s.now }
{
    match s {
        [b] if is_digit(*b) => Some(*b as u64 - 47),
        [b'-', b'1'] => Some(0),
        _ => None,
    }
}

// The key whose number is one less, where there is one.
#[tactic(auto, unfolding(crate::specs::Keys::key_at))]
fn key_below(n: u64) -> Option<u64>
    ensures { result ≡ key_at n }
{
    in_keys(n.checked_sub(1)?)
}

// The key of an octave, a letter's semitones and a shift.
fn key_sum(octave: u64, letter: u64, shift: u64) -> Option<u64>
    ensures { result ≡ key_at (octave * 12 + letter + shift) }
{
    key_below(
        octave
            .checked_mul(12)?
            .checked_add(letter)?
            .checked_add(shift)?,
    )
}

// The key of a letter, a shift and an octave.
#[tactic(auto, unfolding(crate::specs::Keys::named_of))]
fn named(letter: Option<u64>, shift: u64, octave: Option<u64>) -> Option<u64>
    ensures { result ≡ named_of letter shift octave }
{
    let letter = letter?;
    key_sum(octave?, letter, shift)
}

// The bytes behind a letter and its sharp or flat.
#[tactic(auto, unfolding(crate::specs::Keys::octave_part, crate::specs::Keys::shift))]
fn behind_letter(s: &[u8]) -> &[u8]
    ensures { result.now ≡ octave_part s.now }
{
    match s {
        [_, b'#' | b'b', rest @ ..] => rest,
        [_, rest @ ..] => rest,
        [] => s,
    }
}

// The key of a name: a letter, # or b or neither, and an octave.
#[tactic(auto, unfolding(crate::specs::Keys::name_of))]
fn name(s: &[u8]) -> Option<u64>
    ensures { result ≡ name_of s.now }
{
    named(
        semitone_of(at(s, 0)),
        shift_of(at(s, 1)),
        octave_of(behind_letter(s)),
    )
}

// A key up to the highest.
#[tactic(auto, unfolding(crate::specs::Keys::within_keys))]
fn in_keys(n: u64) -> Option<u64>
    ensures { result ≡ within_keys n }
{
    if n < KEYS as u64 { Some(n) } else { None }
}

// The key of a word: a number from 0 to 127, or a name from C-1 to G9.
#[tactic(auto, unfolding(crate::specs::Keys::key_of, crate::specs::Keys::key_or_name))]
pub fn parse_key(s: &[u8]) -> Option<u64>
    ensures { result ≡ key_of s.now }
{
    match super::parse(s) {
        Some(n) => in_keys(n),
        None => name(s),
    }
}
