// Text: lines and words, and words as numbers, cents and keys.
#![tactic(auto)]

pub mod cents;
pub mod fractions;
pub mod keys;
pub mod lines;
pub mod spans;

ghost use Rattle.std.specs.Prelude.{◌≡◌};
ghost use Rattle.desk_text.specs.Decimal.{after, number_of};

// The number of a word's digits to the base ten; nothing for an empty word, another byte, or more than 10^16.
#[tactic(auto, unfolding(crate::specs::Decimal::number_of))]
pub fn parse(s: &[u8]) -> Option<u64>
    ensures { result ≡ number_of s.now }
{
    if s.is_empty() {
        return None;
    }
    digits(s)
}

// The number of digits.
fn digits(s: &[u8]) -> Option<u64>
    ensures { result ≡ after 0 s.now }
{
    let mut n: u64 = 0;
    for b in s {
        if !spans::is_digit(*b) || 1000000000000000 < n {
            return None;
        }
        n = n * 10 + (*b - b'0') as u64;
    }
    Some(n)
}
