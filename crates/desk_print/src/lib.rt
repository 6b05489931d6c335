// Text and numbers on standard output; lines that say what went wrong.
// Kept as two parameters: an output and a number or a text. One output serves all that is put, so that a struct of both would be made for each.
#![tactic(auto)]

pub mod cents;
pub mod fields;
pub mod names;
pub mod output;

ghost use Rattle.std.specs.Prelude.{◌≡◌, ◌∷◌, ◌+◌, ◌<◌};
ghost use Rattle.desk_print.specs.Output.{Put};
ghost use Rattle.desk_print.specs.Text.{last_digits, decimal, with_commas, hex_digit_of, hex_of, hex_all_of};

use output::Output;

// Puts bytes on standard output.
pub fn put(out: &mut Output, text: &[u8])
    ensures { Put out.old text.now out.new }
{
    output::add(out, text);
}

// Puts words on standard output: as put, for callers whose contracts say nothing of them, which are checked faster without what put ensures.
pub fn say(out: &mut Output, text: &[u8]) {
    put(out, text);
}

// Puts a number, without marks between its digits.
pub fn number(out: &mut Output, n: u64)
    ensures { Put out.old (decimal n) out.new }
{
    // Kept in place of write!, which is no plainer: it answers a Result, and a text that is put cannot fail.
    let mut text = [0u8; 20];
    let k = io::decimal(n, &mut text);
    put(out, &text[..k]);
}

// The digit of a number below ten.
fn digit(n: u64) -> u8
    requires { n < 10 }
    ensures { result ≡ 48 + n }
{
    b'0' + n as u8
}

// Puts the last three digits of a number.
#[tactic(auto, using(crate::proofs::Laws::put_as, crate::proofs::Texts::three_as))]
fn three(out: &mut Output, n: u64)
    ensures { Put out.old (last_digits 3 n) out.new }
{
    put(
        out,
        &[digit(n / 100 % 10), digit(n / 10 % 10), digit(n % 10)],
    );
}

// Puts the last four digits of a number.
pub fn four(out: &mut Output, n: u64)
    ensures { Put out.old (last_digits 4 n) out.new }
{
    put(out, &[digit(n / 1000 % 10)]);
    three(out, n);
}

// Puts a comma and the last three digits of a number.
fn comma_three(out: &mut Output, n: u64)
    ensures { Put out.old (44 ∷ last_digits 3 n) out.new }
{
    put(out, b",");
    three(out, n);
}

// Puts a number with a comma before each three of its digits.
pub fn grouped(out: &mut Output, n: u64)
    ensures { Put out.old (with_commas n) out.new }
{
    if n < 1000 {
        return number(out, n);
    }
    grouped(out, n / 1000);
    comma_three(out, n);
}

// Puts a number with its unit, in the plural but for 1.
pub fn units(out: &mut Output, n: u64, unit: &[u8]) {
    grouped(out, n);
    say(out, b" ");
    say(out, unit);
    if n != 1 {
        say(out, b"s");
    }
}

// The hexadecimal digit of a number below sixteen.
fn hex_digit(n: u8) -> u8
    requires { n < 16 }
    ensures { result ≡ hex_digit_of n }
{
    if n < 10 { b'0' + n } else { b'A' + (n - 10) }
}

// Puts a byte as two hexadecimal digits.
#[tactic(auto, using(crate::proofs::Laws::put_as))]
pub fn hex(out: &mut Output, b: u8)
    ensures { Put out.old (hex_of b) out.new }
{
    put(out, &[hex_digit(b / 16), hex_digit(b % 16)]);
}

// Puts bytes as hexadecimal digits, a space before each byte.
pub fn hex_all(out: &mut Output, s: &[u8])
    ensures { Put out.old (hex_all_of s.now) out.new }
{
    for b in s {
        put(out, b" ");
        hex(out, *b);
    }
}
