// The lines of a tuning, as the entries of its keys.
ghost use Rattle.std.specs.Prelude.{◌≡◌, Ok, Some, ◌<◌, ◌+◌, length, drop};
ghost use Rattle.desk_text.specs.Lines.{mark_length, lines_of};
ghost use Rattle.desk_tunings.specs.Lines.{said_line};
ghost use Rattle.desk_tunings.specs.Keys.{put_answer, put_entries, read_lines, equal_entry, filled_entry, filled_from, counted_of, read_answer, read_entries};

use super::said;
use super::said::LineError;
use desk_text::lines;
use util::limits::KEYS;

// A key that no line has named yet.
const UNTOLD: u64 = u64::MAX;

// What is wrong with lines: none sets a key, or one is wrong, and its number.
// Kept as an enum of its own: that no line sets a key is an error too, where None would say that nothing is wrong.
#[derive(Clone, Copy)]
pub enum LinesError {
    NoLine,
    Line(u64, LineError),
}

// Puts an entry at its key, which no line has named yet.
#[tactic(auto, unfolding(crate::specs::Keys::put_answer, crate::specs::Keys::put_entries))]
fn put_entry(
    entries: &mut [u64],
    key: usize,
    entry: u64,
    n: u64,
    set: u64,
) -> Result<u64, LinesError>
    requires { set < n }
    ensures value { result ≡ put_answer (Ok (Some (key, entry))) n set entries.old }
    ensures entries_after { entries.new ≡ put_entries (Ok (Some (key, entry))) entries.old }
{
    if entries.len() <= key {
        return Err(LinesError::Line(n, LineError::NoKey));
    }
    if entries[key] == UNTOLD {
        entries[key] = entry;
        return Ok(set + 1);
    }
    Err(LinesError::Line(n, LineError::Twice))
}

// Puts what line n says, where so many keys are set; how many are set then.
#[tactic(auto, unfolding(crate::specs::Keys::put_answer, crate::specs::Keys::put_entries))]
fn put_line(line: &[u8], entries: &mut [u64], n: u64, set: u64) -> Result<u64, LinesError>
    requires { set < n }
    ensures value { result ≡ put_answer (said_line line.now) n set entries.old }
    ensures entries_after { entries.new ≡ put_entries (said_line line.now) entries.old }
{
    match said::said_in(line) {
        Ok(Some((key, entry))) => put_entry(entries, key, entry, n, set),
        Ok(None) => Ok(set),
        Err(e) => Err(LinesError::Line(n, e)),
    }
}

// Puts what all lines say, up to the first that is wrong; how many keys are set.
fn put_lines(s: &[u8], entries: &mut [u64]) -> Result<u64, LinesError>
    ensures { (result, entries.new) ≡ read_lines (lines_of (drop (mark_length s.now) s.now)) 0 0 entries.old }
{
    let mut set: u64 = 0;
    let mut n: u64 = 0;
    let mut rest = lines::behind_mark(s);
    // Kept as a loop: the end of a line may be two bytes, CR LF, where `split` of the library would find a line between them.
    while !rest.is_empty() {
        n += 1;
        let (line, behind) = lines::split_line(rest);
        set = put_line(line, entries, n, set)?;
        rest = behind;
    }
    Ok(set)
}

// The entry of a key in equal temperament.
#[tactic(auto, unfolding(crate::specs::Keys::equal_entry))]
fn tempered(key: usize) -> u64
    ensures { result ≡ equal_entry key }
{
    if key < KEYS { key as u64 * 65536 } else { 0 }
}

// The entry of a key: what a line says, or equal temperament.
#[tactic(auto, unfolding(crate::specs::Keys::filled_entry))]
fn filled(entry: u64, key: usize) -> u64
    ensures { result ≡ filled_entry entry key }
{
    if entry == UNTOLD {
        tempered(key)
    } else {
        entry
    }
}

// Gives every key that no line has named its pitch of equal temperament.
fn fill(entries: &mut [u64])
    ensures { entries.new ≡ filled_from 0 entries.old }
{
    for (key, entry) in entries.iter_mut().enumerate() {
        *entry = filled(*entry, key);
    }
}

// Lines that set no key are none.
#[tactic(auto, unfolding(crate::specs::Keys::counted_of, crate::specs::Keys::good_lines, crate::specs::Keys::set_by))]
fn counted(l: Result<u64, LinesError>) -> Result<u64, LinesError>
    ensures { result ≡ counted_of l }
{
    match l {
        Ok(0) => Err(LinesError::NoLine),
        _ => l,
    }
}

// The entries that lines say; how many keys they set, or what is wrong with them.
pub fn read(s: &[u8], entries: &mut [u64]) -> Result<u64, LinesError>
    ensures value { result ≡ read_answer s.now (length entries.old) }
    ensures entries_after { entries.new ≡ read_entries s.now (length entries.old) }
{
    // Kept as a number that no line can say, not an Option: the lent entries are of any length, and there is no memory for as many Options.
    entries.fill(UNTOLD);
    let l = put_lines(s, entries);
    fill(entries);
    counted(l)
}
