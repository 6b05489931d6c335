// Rates and cents (01, "Beside the walk"): numbers of a frame that are worked out from a float, and a rate from its two numbers.
// Each contract equates the answer with a definition of specs/, for every input.
#![tactic(auto)]

ghost use Rattle.std.specs.Prelude.{◌≡◌, ◌+◌, ◌/◌};
ghost use Rattle.rates.specs.Digits.{digits_of};
ghost use Rattle.rates.specs.Rate.{split_of, join_of};
ghost use Rattle.rates.specs.Cents.{hold_of, scaled_of, cents_of};

use util::refusal::Refusal;

// A rate as the extended header has it: the whole part, and the rest in 2^28ths.
#[derive(Clone, Copy, Debug, PartialEq, Eq)]
pub struct RatePair {
    pub whole: u32,
    pub fraction: u32,
}

// The place of whole numbers, 2^0.
const WHOLES: u64 = 1075;

// The place of halves, 2^-1.
const HALVES: u64 = 1074;

// The place of 2^28ths, 2^-28.
const PARTS: u64 = 1047;

// The digits, down to the place 2^(unit - 1075), of the float that is not negative and has these bits.
fn digits_above(bits: u64, unit: u64) -> u64
    ensures { result ≡ digits_of bits unit }
{
    let exponent: u64 = bits >> 52;
    let digits: u64 = 0x10_0000_0000_0000 + bits % 0x10_0000_0000_0000;
    if exponent < unit {
        if unit - exponent < 64 {
            digits >> (unit - exponent)
        } else {
            0
        }
    } else {
        digits
    }
}

// The whole number nearest to the float that has these bits, from the floor of twice it: a half goes up.
fn nearest(bits: u64) -> u64
    ensures { result ≡ (digits_of bits 1074 + 1) / 2 }
{
    let halves: u64 = digits_above(bits, HALVES);
    halves / 2 + halves % 2
}

// A rate's whole part and the floor of the rest in 2^28ths. Below zero counts as 0; NaN, and 2^28 and up, is refused.
pub fn split_rate(rate: f64) -> Result<RatePair, Refusal>
    ensures { result ≡ split_of rate }
{
    if rate < 268435456.0 {
        if rate > 0.0 {
            let whole: u64 = digits_above(f64::to_bits(rate), WHOLES);
            let rest: f64 = rate - (whole as f64);
            let fraction: u64 = digits_above(f64::to_bits(rest), PARTS);
            Ok(RatePair {
                whole: whole as u32,
                fraction: fraction as u32,
            })
        } else {
            Ok(RatePair {
                whole: 0,
                fraction: 0,
            })
        }
    } else {
        Err(Refusal::Value)
    }
}

// The rate of a pair: one sum of two exact terms, rounded once.
// Kept as two numbers: they are fields of a frame, and C has them so.
pub fn join_rate(whole: u32, fraction: u32) -> f64
    ensures { result ≡ join_of whole fraction }
{
    (whole as f64) + (fraction as f64) * 0.0000000037252902984619140625
}

// Cents held to 0..100; NaN gives 0.
fn hold_cents(cents: f32) -> f32
    ensures { result ≡ hold_of cents }
{
    if cents > 0.0 {
        if cents < 100.0 { cents } else { 100.0 }
    } else {
        0.0
    }
}

// The held cents, divided by 100, times 16,383, each rounded.
fn scaled_cents(cents: f32) -> f32
    ensures { result ≡ scaled_of cents }
{
    hold_cents(cents) / 100.0 * 16383.0
}

// Cents as a 14-bit fraction of a semitone.
pub fn cents_to_u14(cents: f32) -> u16
    ensures { result ≡ cents_of cents }
{
    nearest(f64::to_bits(scaled_cents(cents) as f64)) as u16
}
