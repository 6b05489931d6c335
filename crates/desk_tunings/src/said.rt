// What a line of a tuning says: KEY CENTS, or KEY -.
ghost use Rattle.std.specs.Prelude.{◌≡◌};
ghost use Rattle.desk_tunings.specs.Lines.{is_no_tuning, said_word, said_words, said_line};

use desk_text::keys::parse_key;
use desk_text::{cents, fractions, lines};
use util::limits::NO_TUNING;

// What is wrong with a line: not two words, no key, no cents behind it, a pitch outside all of them, or a key that an earlier line named.
#[derive(Clone, Copy)]
pub enum LineError {
    NotTwo,
    NoKey,
    NoCents,
    Outside,
    Twice,
}

// Whether a word is the one that says no tuning.
// Kept beside that of desk_io, which is of a file's name: one line, of another meaning.
#[tactic(auto, unfolding(crate::specs::Lines::is_no_tuning))]
fn is_dash(s: &[u8]) -> bool
    ensures { result ≡ is_no_tuning s.now }
{
    matches!(s, [b'-'])
}

// What a word says of a key's tuning: the key and its entry.
#[tactic(auto, unfolding(crate::specs::Lines::said_word, crate::specs::Lines::said_cents, crate::specs::Lines::said_entry))]
fn said_word(key: u64, word: &[u8]) -> Result<Option<(usize, u64)>, LineError>
    ensures { result ≡ said_word key word.now }
{
    if is_dash(word) {
        return Ok(Some((key as usize, NO_TUNING)));
    }
    let Some(d) = cents::parse_cents(word) else {
        return Err(LineError::NoCents);
    };
    match fractions::tuned(key, Some(d)) {
        Some(entry) => Ok(Some((key as usize, entry))),
        None => Err(LineError::Outside),
    }
}

// What words say, from the first on.
#[tactic(auto, unfolding(crate::specs::Lines::said_words, crate::specs::Lines::said_key))]
fn said_words(first: &[u8]) -> Result<Option<(usize, u64)>, LineError>
    ensures { result ≡ said_words first.now }
{
    if first.is_empty() {
        return Ok(None);
    }
    let second = lines::behind_word(first);
    if second.is_empty() || !lines::behind_word(second).is_empty() {
        return Err(LineError::NotTwo);
    }
    match parse_key(lines::word(first)) {
        Some(key) => said_word(key, lines::word(second)),
        None => Err(LineError::NoKey),
    }
}

// What a line says: a key and its entry, or nothing.
#[tactic(auto, unfolding(crate::specs::Lines::said_line))]
pub fn said_in(line: &[u8]) -> Result<Option<(usize, u64)>, LineError>
    ensures { result ≡ said_line line.now }
{
    said_words(lines::from_word(lines::said(line)))
}
