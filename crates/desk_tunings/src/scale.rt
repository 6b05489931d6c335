// Twelve values in cents, C first.
ghost use Rattle.std.specs.Prelude.{◌≡◌, true, false, ◌+◌, ◌<◌, ◌≤◌, length, get_or};
ghost use Rattle.desk_text.specs.Cents.{cents_of};
ghost use Rattle.desk_text.specs.Spans.{is_blank};
ghost use Rattle.desk_text.specs.Lines.{begins_comment};
ghost use Rattle.desk_tunings.specs.Scale.{value_of, value_or, refused_as, counted_as, words_of, read_values, is_whole_value, are_whole_values};

use desk_text::cents::Decimals;
use desk_text::{cents, fractions, lines};
use util::signed;

// Zero among the values: a value stands as many ten trillionths of a cent above or below it.
pub const ZERO: u64 = 2000000000000000;

// The highest value above zero, 99.99 cents, and the lowest below it, -100 cents.
const HIGHEST: u64 = 999900000000000;

const LOWEST: u64 = 1000000000000000;

// A cent, and -64 cents and 63 cents, the lowest and the highest of the short form.
const CENT: u64 = 10000000000000;

const LOWEST_WHOLE: u64 = 1360000000000000;

const HIGHEST_WHOLE: u64 = 2630000000000000;

// What is wrong with values: there is none, one, whose number is told, is no number or outside the range, or there are not twelve.
#[derive(Clone, Copy)]
pub enum ValuesError {
    NoValue,
    NoNumber(u64),
    Outside(u64),
    TooFew(u64),
    TooMany,
}

// The value of cents, from -100 to 99.99.
#[tactic(auto, unfolding(crate::specs::Scale::value_of))]
fn value_in(d: Option<Decimals>) -> Option<u64>
    ensures { result ≡ value_of d }
{
    match d? {
        Decimals::Above(a) => { if a <= HIGHEST { Some(ZERO + a) } else { None } }
        Decimals::Below(a) => { if a <= LOWEST { Some(ZERO - a) } else { None } }
    }
}

// The value of a word at place n.
#[tactic(auto, unfolding(crate::specs::Scale::value_or, crate::specs::Scale::refused_as, crate::specs::Scale::value_of))]
fn value_at(word: &[u8], n: usize) -> Result<u64, ValuesError>
    requires { n < 18446744073709551615 }
    ensures { result ≡ value_or (value_of (cents_of word.now)) (refused_as (cents_of word.now) (n + 1)) }
{
    let d = cents::parse_cents(word);
    if d.is_none() {
        return Err(ValuesError::NoNumber(n as u64 + 1));
    }
    value_in(d).ok_or(ValuesError::Outside(n as u64 + 1))
}

// Whether there are twelve values.
#[tactic(auto, unfolding(crate::specs::Scale::counted_as))]
fn counted(n: usize) -> Result<(), ValuesError>
    ensures { result ≡ counted_as n }
{
    if n == 0 {
        return Err(ValuesError::NoValue);
    }
    if n < 12 {
        return Err(ValuesError::TooFew(n as u64));
    }
    Ok(())
}

// The bytes from the first word on that is no comment.
fn from_value(s: &[u8]) -> &[u8]
    ensures words { words_of result.now ≡ words_of s.now }
    ensures first { 0 < length result.now → (is_blank (get_or result.now 0 0) ≡ false) × (begins_comment true (get_or result.now 0 0) ≡ false) }
    ensures bound { length result.now ≤ length s.now }
{
    let mut rest = lines::from_word(s);
    // Kept as a loop: each turn goes on at the first word behind the comment before it, which `from_fn` would do in a closure, no plainer.
    while let [b, ..] = rest {
        if !lines::is_comment(true, *b) {
            return rest;
        }
        rest = lines::from_word(lines::from_line_end(rest));
    }
    rest
}

// Puts the values of all words, up to the first that is wrong.
pub fn read(s: &[u8], values: &mut [u64]) -> Result<(), ValuesError>
    ensures { (result, values.new) ≡ read_values s.now values.old }
{
    let mut n = 0;
    let mut rest = from_value(lines::behind_mark(s));
    // Kept as a loop: each turn goes on at the first value behind the word before it, which `from_fn` would do in a closure, no plainer.
    while !rest.is_empty() {
        if values.len() <= n {
            return Err(ValuesError::TooMany);
        }
        let (word, behind) = lines::split_word(rest);
        let value = value_at(word, n)?;
        values[n] = value;
        n += 1;
        rest = from_value(behind);
    }
    counted(n)
}

// Whether a value is a whole number of cents from -64 to 63.
#[tactic(auto, unfolding(crate::specs::Scale::is_whole_value))]
fn is_whole(v: u64) -> bool
    ensures { result ≡ is_whole_value v }
{
    LOWEST_WHOLE <= v && v <= HIGHEST_WHOLE && v % CENT == 0
}

// Whether all values are whole numbers of cents from -64 to 63.
pub fn are_whole(values: &[u64]) -> bool
    ensures { result ≡ are_whole_values values.now }
{
    values.iter().all(|v| is_whole(*v))
}

// A value in whole cents, held to -64..63.
fn cents_of(v: u64) -> i8 {
    signed::u7_to_i((v.saturating_sub(LOWEST_WHOLE) / CENT).min(127) as u8)
}

// A value in 8,192nds of a semitone, held to -8,192..8,191.
fn parts_of(v: u64) -> i16 {
    if v < ZERO {
        return below(fractions::nearest_8192(ZERO - v));
    }
    above(fractions::nearest_8192((v - ZERO).min(LOWEST)))
}

// So many parts above zero.
fn above(n: u64) -> i16 {
    signed::u14_to_i(8192 + n.min(8191) as u16)
}

// So many parts below zero.
fn below(n: u64) -> i16 {
    signed::u14_to_i(8192 - n.min(8192) as u16)
}

// The scale of whole cents.
pub fn in_cents(v: &[u64; 12]) -> [i8; 12] {
    v.map(cents_of)
}

// The scale in parts of a cent.
pub fn in_parts(v: &[u64; 12]) -> [i16; 12] {
    v.map(parts_of)
}
