// What is wrong with the lines of a tuning, the values of a scale, and the words of a command, told in error lines.
// Kept as parameters side by side, an output beside a name or a number: texts take the output alone, which a struct of both would have to lend on.
ghost use Rattle.desk_print.specs.Output.{Flushed};

use super::keys::LinesError;
use super::said::LineError;
use super::scale::ValuesError;
use desk_print::output::{Output, complain, complain_number};
use util::bytes::is_seven;
use util::limits::LARGEST_U7;

// What error lines call a value.
fn complain_value(out: &mut Output, n: u64, why: &[u8])
    ensures { Flushed out.old out.new }
{
    complain_number(out, b"standard input", b"value ", n, why);
}

// What is said of a line that is wrong.
fn why(e: LineError) -> &'static [u8] {
    match e {
        LineError::NotTwo => b" is not KEY CENTS or KEY -, such as 61 -24.5 or C#4 -24.5",
        LineError::NoKey => {
            b" begins with no key: a number from 0 to 127, or a name from C-1 to G9"
        }
        LineError::NoCents => {
            b" has no number of cents behind its key, such as -24.5, or - for no tuning"
        }
        LineError::Outside => b" goes below key 0 or above the highest pitch",
        LineError::Twice => b" names a key that an earlier line named",
    }
}

// Says what is wrong with the lines of a tuning.
pub fn complain_lines(out: &mut Output, e: LinesError)
    ensures { Flushed out.old out.new }
{
    match e {
        LinesError::NoLine => complain(
            out,
            b"standard input",
            b"has no line of a tuning; nothing is written",
        ),
        LinesError::Line(n, e) => complain_number(out, b"standard input", b"line ", n, why(e)),
    }
}

// Says what is wrong with the values of a scale.
pub fn complain_values(out: &mut Output, e: ValuesError)
    ensures { Flushed out.old out.new }
{
    match e {
        ValuesError::NoValue => complain(
            out,
            b"standard input",
            b"has no value of a scale; nothing is written",
        ),
        ValuesError::NoNumber(n) => complain_value(
            out,
            n,
            b" is no number of cents, such as -24.5; spaces part the values",
        ),
        ValuesError::Outside(n) => complain_value(out, n, b" is not from -100 to 99.99 cents"),
        ValuesError::TooFew(n) => complain_number(
            out,
            b"standard input",
            b"a scale has twelve values, and here are ",
            n,
            b"",
        ),
        ValuesError::TooMany => complain(
            out,
            b"standard input",
            b"a scale has twelve values, and here are more",
        ),
    }
}

// A number from 0 to 127, or a line that says that a word is none.
pub fn seven(out: &mut Output, word: &[u8]) -> Option<u8> {
    match desk_text::parse(word) {
        Some(n) if n <= LARGEST_U7 as u64 => Some(n as u8),
        _ => {
            complain(out, word, b"is no number from 0 to 127");
            None
        }
    }
}

// Whether a name has at most 16 characters, none above 7F.
pub fn is_name(out: &mut Output, name: &[u8]) -> bool {
    if 16 < name.len() {
        complain(out, name, b"has more than 16 characters");
        return false;
    }
    if is_seven(name) {
        return true;
    }
    complain(out, name, b"has a character that MIDI names cannot have");
    false
}
