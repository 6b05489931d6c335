// Signed numbers of cents, in ten trillionths of a cent.
ghost use Rattle.std.specs.Prelude.{◌≡◌, ◌+◌, ◌*◌, ◌-◌, min, drop};
ghost use Rattle.desk_text.specs.Cents.{most, value_after, padded, are_digits, whole_of, decimals_of, joined_of, unsigned_of, sign_length, is_minus, with_sign_of, cents_of};

use super::spans::{is_digit, is_point, span_of};

// A signed number of ten trillionths.
#[derive(Clone, Copy)]
pub enum Decimals {
    Above(u64),
    Below(u64),
}

// The most that a number is read as: 100,000 cents.
pub const MOST: u64 = 1000000000000000000;

// A number with one more digit, or the most.
fn with_digit(n: u64, b: u8) -> u64
    ensures { result ≡ min (n * 10 + (b - 48)) most }
{
    (n.min(MOST) * 10 + b.saturating_sub(b'0') as u64).min(MOST)
}

// A number with so many digits more, those of bytes with zeros behind them, or the most.
// Kept as a loop over places: each digit behind the last byte is a zero, which a chain of iterators would say no plainer.
fn with_digits(n: u64, s: &[u8], count: usize) -> u64
    ensures { result ≡ min (value_after n (padded count s.now)) most }
{
    let mut v = n.min(MOST);
    for i in 0..count {
        v = with_digit(v, s.get(i).copied().unwrap_or(b'0'));
    }
    v
}

// Whether all bytes are digits.
#[tactic(auto, unfolding(crate::specs::Cents::are_digits))]
fn are_digits(s: &[u8]) -> bool
    ensures { result ≡ are_digits s.now }
{
    span_of(s, |b| !is_digit(b)) == s.len()
}

// The bytes before the first point or comma, and those behind it.
#[tactic(auto, unfolding(crate::specs::Cents::whole_of, crate::specs::Cents::decimals_of))]
fn split_point(s: &[u8]) -> (&[u8], &[u8])
    ensures whole { result.0.now ≡ whole_of s.now }
    ensures decimals { result.1.now ≡ decimals_of s.now }
{
    let (whole, rest) = s.split_at(span_of(s, is_point));
    match rest {
        [_, decimals @ ..] => (whole, decimals),
        [] => (whole, rest),
    }
}

// The ten trillionths of digits and decimals.
#[tactic(auto, unfolding(crate::specs::Cents::joined_of))]
fn joined(whole: &[u8], decimals: &[u8]) -> Option<u64>
    ensures { result ≡ joined_of whole.now decimals.now }
{
    if !are_digits(whole) || !are_digits(decimals) || (whole.is_empty() && decimals.is_empty()) {
        return None;
    }
    Some(with_digits(with_digits(0, whole, whole.len()), decimals, 13))
}

// The ten trillionths of a word without a sign.
#[tactic(auto, unfolding(crate::specs::Cents::unsigned_of))]
fn unsigned(s: &[u8]) -> Option<u64>
    ensures { result ≡ unsigned_of s.now }
{
    let (whole, decimals) = split_point(s);
    joined(whole, decimals)
}

// Whether a word begins with a sign of numbers below zero, - or U+2212, and the bytes behind its sign, where it has one.
#[tactic(auto, unfolding(crate::specs::Cents::is_minus, crate::specs::Cents::sign_length, crate::specs::Spans::is_three))]
fn split_sign(s: &[u8]) -> (bool, &[u8])
    ensures sign { result.0 ≡ is_minus s.now }
    ensures rest { result.1.now ≡ drop (sign_length s.now) s.now }
{
    match s {
        [b'+', rest @ ..] => (false, rest),
        [b'-', rest @ ..] => (true, rest),
        [0xE2, 0x88, 0x92, rest @ ..] => (true, rest),
        _ => (false, s),
    }
}

// A number above zero, or below it.
#[tactic(auto, unfolding(crate::specs::Cents::with_sign_of))]
fn with_sign(n: Option<u64>, is_below: bool) -> Option<Decimals>
    ensures { result ≡ with_sign_of n is_below }
{
    let a = n?;
    Some(if is_below {
        Decimals::Below(a)
    } else {
        Decimals::Above(a)
    })
}

// The ten trillionths of a word: a sign or none, digits, and decimals behind a point or a comma; those behind the thirteenth are cut off.
#[tactic(auto, unfolding(crate::specs::Cents::cents_of))]
pub fn parse_cents(s: &[u8]) -> Option<Decimals>
    ensures { result ≡ cents_of s.now }
{
    let (is_below, rest) = split_sign(s);
    with_sign(unsigned(rest), is_below)
}
