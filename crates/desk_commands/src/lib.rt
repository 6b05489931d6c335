// The commands of the desk: their words, and what each runs.
// Kept as two parameters: an output and a line. Help, files and tunings take the output and no line, so that a struct of both would lend it on.
#![tactic(auto)]

pub mod help;
pub mod words;

ghost use Rattle.std.specs.Prelude.{◌≤◌};

use desk_extract::extract;
use desk_files::list::{Scope, Tally, Wanted};
use desk_files::show::Place;
use desk_files::{list, show};
use desk_io::pieces::Source;
use desk_print::output;
use desk_print::output::{Output, complain};
use desk_tunings::save;
use messages::file_reference::Kind;

// The commands.
#[derive(Clone, Copy, Debug, PartialEq, Eq)]
pub enum Command {
    List,
    Show,
    Extract,
    Tune,
    Scale,
    Help,
    Version,
}

// The words of a command, and how many there are.
#[derive(Clone, Copy)]
struct Line<'a> {
    words: &'a [u8],
    count: usize,
}

impl<'a> Line<'a> {
    // The word of a number; nothing where there is none.
    fn word(self, number: usize) -> &'a [u8] {
        words::word(self.words, number)
    }
}

// Whether a word asks how the desk is used.
fn is_help(text: &[u8]) -> bool {
    matches!(text, b"--help" | b"-h")
}

// The command of a word, if it is one.
fn command_of(text: &[u8]) -> Option<Command> {
    match text {
        b"list" => Some(Command::List),
        b"show" => Some(Command::Show),
        b"extract" => Some(Command::Extract),
        b"tune" => Some(Command::Tune),
        b"scale" => Some(Command::Scale),
        b"--help" | b"-h" | b"help" => Some(Command::Help),
        b"--version" => Some(Command::Version),
        _ => None,
    }
}

// The kind that a word names, if it is one.
fn kind_named(text: &[u8]) -> Option<Kind> {
    match text {
        b"bank" => Some(Kind::Bank),
        b"wav" => Some(Kind::WAV),
        _ => None,
    }
}

// The kind of a word in the place of one; a line that says so where it is none.
// Kept as a pair with the next: they differ in the reading and the words, and a function of both would take two closures.
fn kind_of(out: &mut Output, text: &[u8]) -> Option<Kind> {
    let kind = kind_named(text);
    if kind.is_none() {
        complain(out, text, b"is no kind of sound file: bank or wav");
    }
    kind
}

// The offset of a word; a line that says so where it is none.
fn offset_of(out: &mut Output, text: &[u8]) -> Option<u64> {
    let offset = desk_text::parse(text);
    if offset.is_none() {
        complain(out, text, b"is no offset: a number of bytes from 0 on");
    }
    offset
}

// The place of the words [KIND] FILE OFFSET behind the first; a line that says what is wrong where they name none.
fn place_of<'a>(out: &mut Output, line: Line<'a>, has_kind: bool) -> Option<Place<'a>> {
    let mut kind = Kind::Bank;
    let mut file = 1;
    if has_kind {
        kind = kind_of(out, line.word(1))?;
        file = 2;
    }
    let offset = offset_of(out, line.word(file + 1))?;
    Some(Place {
        path: line.word(file),
        kind,
        offset,
    })
}

// Lists the files of words, and says how many there are where they are several.
fn list_files(out: &mut Output, words: &[u8], wanted: Wanted, is_named: bool) {
    let mut total = Tally::default();
    for word in words.split_inclusive(|b| *b == 0) {
        if output::is_failed(out) {
            return;
        }
        let path = word.strip_suffix(&[0]).unwrap_or(word);
        list::list(out, path, wanted, is_named, &mut total);
    }
    if is_named {
        list::put_sum(out, total, wanted.scope);
    }
}

// Lists the files of the words from a number on.
fn list_from(out: &mut Output, line: Line, from: usize, wanted: Wanted) {
    if line.count <= from {
        return complain(
            out,
            b"list",
            b"wants [--all] [KIND] FILE..; see desk --help",
        );
    }
    let start = words::start_of(line.words, from);
    list_files(out, &line.words[start..], wanted, 1 < line.count - from);
}

// Lists the files behind a kind, where the word of a number is one and another follows, else from that word on.
fn list_kind(out: &mut Output, line: Line, from: usize, scope: Scope)
    requires { from ≤ 2 }
{
    match kind_named(line.word(from)) {
        Some(kind) if from + 1 < line.count => {
            list_from(out, line, from + 1, Wanted { kind, scope })
        }
        _ => {
            let kind = Kind::Bank;
            list_from(out, line, from, Wanted { kind, scope })
        }
    }
}

// Lists frames, or all stretches.
fn run_list(out: &mut Output, line: Line) {
    if matches!(line.word(1), b"--all") {
        return list_kind(out, line, 2, Scope::All);
    }
    list_kind(out, line, 1, Scope::Frames);
}

// Shows one message.
fn run_show(out: &mut Output, line: Line) {
    match line.count {
        3 | 4 => {
            if let Some(place) = place_of(out, line, line.count == 4) {
                show::show(out, place);
            }
        }
        _ => complain(out, b"show", b"wants [KIND] FILE OFFSET; see desk --help"),
    }
}

// Extracts a file or a frame.
fn run_extract(out: &mut Output, line: Line) {
    match line.count {
        4 | 5 => {
            if let Some(place) = place_of(out, line, line.count == 5) {
                extract::extract(out, place, line.word(line.count - 1));
            }
        }
        _ => complain(
            out,
            b"extract",
            b"wants [KIND] FILE OFFSET OUT; see desk --help",
        ),
    }
}

// Makes a tuning of the lines of an open file.
fn run_tune(out: &mut Output, line: Line, input: &mut Source) {
    if line.count != 4 {
        return complain(out, b"tune", b"wants OUT PROGRAM NAME; see desk --help");
    }
    save::tune(out, line.word(1), line.word(2), line.word(3), input);
}

// Makes a scale of the values of an open file.
fn run_scale(out: &mut Output, line: Line, input: &mut Source) {
    if line.count != 5 {
        return complain(
            out,
            b"scale",
            b"wants OUT BANK PROGRAM NAME; see desk --help",
        );
    }
    save::make_scale(
        out,
        line.word(1),
        line.word(2),
        line.word(3),
        line.word(4),
        input,
    );
}

// Runs the command of words.
fn run_command(out: &mut Output, line: Line, input: &mut Source) {
    let first = line.word(0);
    match command_of(first) {
        Some(Command::List) => run_list(out, line),
        Some(Command::Show) => run_show(out, line),
        Some(Command::Extract) => run_extract(out, line),
        Some(Command::Tune) => run_tune(out, line, input),
        Some(Command::Scale) => run_scale(out, line, input),
        Some(Command::Help) => help::help(out),
        Some(Command::Version) => help::version(out),
        None => help::unknown(out, first),
    }
}

// Runs the command of words, each ended by a 0; lines are read from an open file.
pub fn run(out: &mut Output, words: &[u8], input: &mut Source) {
    let count = words::count(words);
    let line = Line { words, count };
    if count == 0 {
        return help::no_command(out);
    }
    if count == 2 && is_help(line.word(1)) {
        return help::help(out);
    }
    run_command(out, line, input);
}
