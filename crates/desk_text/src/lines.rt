// Lines and words of text.
ghost use Rattle.std.specs.Prelude.{◌≡◌, ◌≤◌, true, length, drop};
ghost use Rattle.desk_text.specs.Spans.{is_line_end, is_blank, span};
ghost use Rattle.desk_text.specs.Lines.{mark_length, end_length, begins_comment, said_length, said_part, from_word, word_of, behind_word, line_of, behind_line};

use super::spans::{is_blank, is_line_end, span_of};

// The byte order mark of UTF-8.
const MARK: [u8; 3] = [0xEF, 0xBB, 0xBF];

// The bytes behind a byte order mark at the start.
#[tactic(auto, unfolding(crate::specs::Lines::mark_length, crate::specs::Spans::is_three))]
pub fn behind_mark(s: &[u8]) -> &[u8]
    ensures { result.now ≡ drop (mark_length s.now) s.now }
{
    match s.strip_prefix(&MARK) {
        Some(rest) => rest,
        None => s,
    }
}

// The bytes behind a line end at the start: CR LF, another byte, or none at the end of the text.
#[tactic(auto, unfolding(crate::specs::Lines::end_length))]
fn behind_end(s: &[u8]) -> &[u8]
    ensures { result.now ≡ drop (end_length s.now) s.now }
{
    match s {
        [b'\r', b'\n', rest @ ..] => rest,
        [_, rest @ ..] => rest,
        [] => s,
    }
}

// The line that a text begins with, and the text behind its end.
#[tactic(auto, unfolding(crate::specs::Lines::line_of, crate::specs::Lines::behind_line))]
pub fn split_line(s: &[u8]) -> (&[u8], &[u8])
    ensures line { result.0.now ≡ line_of s.now }
    ensures rest { result.1.now ≡ behind_line s.now }
{
    let (line, rest) = s.split_at(span_of(s, is_line_end));
    (line, behind_end(rest))
}

// Whether a byte begins a comment, where a word may begin.
#[tactic(auto, unfolding(crate::specs::Lines::begins_comment))]
pub fn is_comment(may_begin: bool, b: u8) -> bool
    ensures { result ≡ begins_comment may_begin b }
{
    may_begin && (b == b'#' || b == b'!')
}

// How many bytes of a line stand before its comment.
pub fn said_end(line: &[u8]) -> usize
    ensures value { result ≡ said_length true line.now }
    ensures bound { result ≤ length line.now }
{
    let mut may_begin = true;
    for (i, b) in line.iter().enumerate() {
        if is_comment(may_begin, *b) {
            return i;
        }
        may_begin = is_blank(*b);
    }
    line.len()
}

// What a line says before its comment.
#[tactic(auto, unfolding(crate::specs::Lines::said_part))]
pub fn said(line: &[u8]) -> &[u8]
    ensures { result.now ≡ said_part line.now }
{
    &line[..said_end(line)]
}

// The bytes from the first word on.
#[tactic(auto, unfolding(crate::specs::Lines::from_word))]
pub fn from_word(s: &[u8]) -> &[u8]
    ensures { result.now ≡ from_word s.now }
{
    &s[span_of(s, |b| !is_blank(b))..]
}

// The word that bytes begin with, and the bytes behind it.
#[tactic(auto, unfolding(crate::specs::Lines::word_of))]
pub fn split_word(s: &[u8]) -> (&[u8], &[u8])
    ensures word { result.0.now ≡ word_of s.now }
    ensures rest { result.1.now ≡ drop (span is_blank s.now) s.now }
{
    s.split_at(span_of(s, is_blank))
}

// The word that bytes begin with.
pub fn word(s: &[u8]) -> &[u8]
    ensures { result.now ≡ word_of s.now }
{
    split_word(s).0
}

// The bytes from the word behind the first on.
#[tactic(auto, unfolding(crate::specs::Lines::behind_word))]
pub fn behind_word(s: &[u8]) -> &[u8]
    ensures { result.now ≡ behind_word s.now }
{
    from_word(split_word(s).1)
}

// The bytes from the end of the line on.
pub fn from_line_end(s: &[u8]) -> &[u8]
    ensures { result.now ≡ drop (span is_line_end s.now) s.now }
{
    &s[span_of(s, is_line_end)..]
}
