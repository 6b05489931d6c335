// Runs a batch of commands, a line each on standard input, as the desk runs its arguments; error lines go to standard output.
// A line may end in `< FILE`, from which the command reads its lines. What stands in double quotes is one word.
#![tactic(auto)]

mod split;

ghost use Rattle.std.specs.Prelude.{◌≤◌, length};

use desk_commands::words;
use desk_io::pieces;
use desk_io::pieces::Source;
use desk_print::output::{Output, Stream, runtime};
use desk_print::{output, say};
use split::{Words, split};

// Runs the first n words; lines are read from a file.
fn run_with(out: &mut Output, w: &[u8], n: usize, path: &[u8]) {
    let mut input = match pieces::open_file(runtime(out), path) {
        Ok(file) => Source::File(file),
        Err(_) => Source::Nothing,
    };
    let end = words::start_of(w, n);
    desk_commands::run(out, &w[..end], &mut input);
    pieces::close(input);
}

// Runs words, of which the last two may name a file of lines.
fn run_words(out: &mut Output, w: &[u8]) {
    let n = words::count(w);
    if 2 <= n && matches!(words::word(w, n - 2), b"<") {
        return run_with(out, w, n - 2, words::word(w, n - 1));
    }
    desk_commands::run(out, w, &mut Source::Nothing);
}

// Writes a line, and runs it.
fn run_line(out: &mut Output, line: &[u8]) {
    say(out, b"$ desk ");
    say(out, line);
    say(out, b"\n");
    let mut words = Words::new();
    split(line, &mut words);
    run_words(out, words.as_slice());
}

// The end of the line that begins at a place.
fn line_end(s: &[u8], from: usize) -> usize
    requires { from ≤ length s.now }
    ensures { (from ≤ result) × (result ≤ length s.now) }
{
    from + s[from..].iter().take_while(|b| **b != b'\n').count()
}

// Runs all lines, which each have a line end.
fn run_lines(out: &mut Output, s: &[u8]) {
    let mut at = 0;
    // Kept as a loop: the must-fail edit of a line's start is of the place of a line, which a piece of `split_inclusive` has not.
    while at < s.len() {
        let end = line_end(s, at);
        run_line(out, &s[at..end]);
        at = end + 1;
    }
}

// Reads a source up to its end, the buffer's or a failure; how many bytes there are.
fn read_full(source: &mut Source, room: &mut [u8]) -> usize
    ensures { result ≤ length room.old }
{
    let mut n = 0;
    // Kept as a loop: each turn goes on behind as many bytes as the read before it gave, which `from_fn` would do in a closure, no plainer.
    while n < room.len() {
        match pieces::read_once(source, &mut room[n..]) {
            Ok(0) | Err(_) => break,
            Ok(count) => n += count,
        }
    }
    n
}

fn main(rt: HostRuntime) {
    let mut room = io::large_buffer();
    let n = read_full(&mut Source::Stdin(rt.stdin()), &mut room);
    let mut out = output::new(rt, Stream::Stdout as u8);
    run_lines(&mut out, &room[..n]);
    output::flush(&mut out);
}
