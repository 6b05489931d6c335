// Signed values in cents.
// Kept as two parameters: an output and an amount. One output serves all that is put, so that a struct of both would be made for each.
ghost use Rattle.std.specs.Prelude.{◌≡◌, ◌+◌, ◌-◌, ◌*◌, ◌/◌, ◌≤◌, ltb};
ghost use Rattle.desk_print.specs.Output.{Put};
ghost use Rattle.desk_print.specs.Text.{sign_of, signed, signed_decimals};

use super::output::Output;
use super::{four, number, put};

// A signed amount: below zero or not, and how much.
// Kept as a flag beside a number: an enum of both signs, as `Decimals` of desk_text is, would be matched where the amount alone is divided or put.
#[derive(Clone, Copy)]
pub struct Signed {
    pub is_below: bool,
    pub amount: u64,
}

// Puts the sign of an amount.
fn put_sign(out: &mut Output, is_below: bool)
    ensures { Put out.old (sign_of is_below) out.new }
{
    if is_below {
        put(out, b"-");
    } else {
        put(out, b"+");
    }
}

// Puts a signed whole number.
#[tactic(auto, using(crate::proofs::Laws::put_put))]
pub fn whole(out: &mut Output, v: Signed)
    ensures { Put out.old (signed v.is_below v.amount) out.new }
{
    put_sign(out, v.is_below);
    number(out, v.amount);
}

// Puts a signed number of ten thousandths.
pub fn decimals(out: &mut Output, v: Signed)
    ensures { Put out.old (signed_decimals v.is_below v.amount) out.new }
{
    put_sign(out, v.is_below);
    number(out, v.amount / 10000);
    put(out, b".");
    four(out, v.amount);
}

// How far one number is from another.
pub fn difference(from: u64, to: u64) -> Signed
    ensures { (result.is_below ≡ ltb to from) × (result.amount ≡ (from - to) + (to - from)) }
{
    Signed {
        is_below: to < from,
        amount: from.abs_diff(to),
    }
}

// The nearest ten thousandths of a cent to an amount in parts of which so many are 100 cents.
pub fn ten_thousandths(amount: u64, parts: u64) -> u64
    requires { (amount ≤ 8388608) × (1 ≤ parts) × (parts ≤ 65536) }
    ensures { result ≡ (amount * 1000000 + parts / 2) / parts }
{
    (amount * 1000000 + parts / 2) / parts
}

// A signed amount in parts, in ten thousandths of a cent.
pub fn in_cents(v: Signed, parts: u64) -> Signed
    requires { (v.amount ≤ 8388608) × (1 ≤ parts) × (parts ≤ 65536) }
    ensures { (result.is_below ≡ v.is_below) × (result.amount ≡ (v.amount * 1000000 + parts / 2) / parts) }
{
    Signed {
        is_below: v.is_below,
        amount: ten_thousandths(v.amount, parts),
    }
}
