// Op 5: cents. Op 6: a rate split. Op 7: a rate joined.
// Kept as two numbers, whole part and fraction: a case has them so.
#![tactic(auto)]

ghost use Rattle.std.specs.Prelude.{◌≡◌, true, false, from_bits};
ghost use Rattle.std.specs.Float.{binary32, binary64};
ghost use Rattle.rates.specs.Rate.{split_of, join_of};
ghost use Rattle.replay_vectors.specs.Verdicts.{Finds};
ghost use Rattle.replay_rates.specs.Replays.{Formed, CentsCase, CentsRight, SplitCase, SplitRight, Splits, JoinCase, JoinRight, HasBits};

use replay_vectors::cases::Case;
use replay_vectors::numbers::number_at;
use replay_vectors::verdicts::{Fault, judged};

// Kept as a pair, `double` and `single`: each is a test and a call, and a trait over f32 and f64 would have an item for each.

// The f64 of these bits. Every pattern of a NaN stands for one NaN.
fn double(bits: u64) -> f64
    ensures { result ≡ from_bits binary64 bits }
{
    if 0x7FF0_0000_0000_0000 < bits % 0x8000_0000_0000_0000 {
        return f64::NAN;
    }
    f64::from_bits(bits)
}

// The f32 of these bits. Every pattern of a NaN stands for one NaN.
fn single(bits: u32) -> f32
    ensures { result ≡ from_bits binary32 bits }
{
    if 0x7F80_0000 < bits % 0x8000_0000 {
        return f32::NAN;
    }
    f32::from_bits(bits)
}

// Whether a rate splits into the pair, or is refused by the number.
fn is_split(rate: f64, refusal: u8, whole: u64, fraction: u64) -> bool
    ensures right { result ≡ true → Splits (split_of rate) refusal whole fraction }
    ensures wrong { result ≡ false → Splits (split_of rate) refusal whole fraction → ⊥ }
{
    match rates::split_rate(rate) {
        Ok(pair) => refusal == 0
            && u64::from(pair.whole) == whole
            && u64::from(pair.fraction) == fraction,
        Err(r) => r.number() == refusal,
    }
}

// Whether the pair joins to the f64 of these bits.
fn is_joined(whole: u32, fraction: u32, bits: u64) -> bool
    ensures right { result ≡ true → HasBits (join_of whole fraction) bits }
    ensures wrong { result ≡ false → HasBits (join_of whole fraction) bits → ⊥ }
{
    let rate: f64 = rates::join_rate(whole, fraction);
    rate < 18446744073709551616.0 && f64::to_bits(rate) == bits
}

// A case without so many numbers and out numbers, and nothing else, is malformed.
fn formed(case: Case, count: usize, out_count: usize) -> Result<(), Fault>
    ensures { Finds result (Formed case.entry count out_count) (Unit {0}) }
{
    let is_formed = case.numbers.len() == count
        && case.out_numbers.len() == out_count
        && case.text.is_empty()
        && case.bytes.is_empty()
        && case.entries.is_empty()
        && case.out_entries.is_empty();
    if is_formed {
        Ok(())
    } else {
        Err(Fault::Malformed)
    }
}

// Replays a case of op 5.
pub fn replay_cents(case: Case) -> Result<(), Fault>
    ensures { Finds result (CentsCase case.entry) (CentsRight case.entry) }
{
    formed(case, 1, 0)?;
    let a = number_at(case.numbers, 0);
    if 4294967295 < a {
        return Err(Fault::Malformed);
    }
    judged(u64::from(rates::cents_to_u14(single(a as u32))) == case.value)
}

// Replays a case of op 6.
pub fn replay_split(case: Case) -> Result<(), Fault>
    ensures { Finds result (SplitCase case.entry) (SplitRight case.entry) }
{
    formed(case, 1, if case.refusal == 0 { 2 } else { 0 })?;
    let rate = double(number_at(case.numbers, 0));
    let whole = number_at(case.out_numbers, 0);
    let fraction = number_at(case.out_numbers, 1);
    judged(is_split(rate, case.refusal, whole, fraction))
}

// Replays a case of op 7.
pub fn replay_join(case: Case) -> Result<(), Fault>
    ensures { Finds result (JoinCase case.entry) (JoinRight case.entry) }
{
    formed(case, 2, 0)?;
    let a = number_at(case.numbers, 0);
    let b = number_at(case.numbers, 1);
    if 4294967295 < a || 4294967295 < b {
        return Err(Fault::Malformed);
    }
    judged(is_joined(a as u32, b as u32, case.value))
}
