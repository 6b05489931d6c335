// The name - stands for standard input or standard output; error lines about input files.
// Kept as an output and a name of a file beside one another: one output serves the files of a whole command, so that a struct of both would be made for each file.
ghost use Rattle.std.specs.Prelude.{◌≡◌};
ghost use Rattle.desk_io.specs.Names.{is_dash};

use desk_print::output;
use desk_print::output::Output;

// Whether a name is -.
#[tactic(auto, unfolding(crate::specs::Names::is_dash))]
pub fn is_dash(path: &[u8]) -> bool
    ensures { result ≡ is_dash path.now }
{
    matches!(path, [b'-'])
}

// What error lines call an input file.
fn input_name(path: &[u8]) -> &[u8] {
    if is_dash(path) {
        b"standard input"
    } else {
        path
    }
}

// Begins an error line about an input file.
pub fn begin_line(out: &mut Output, path: &[u8]) {
    output::begin_line(out, input_name(path));
}

// Writes an error line about an input file.
pub fn complain(out: &mut Output, path: &[u8], why: &[u8]) {
    output::complain(out, input_name(path), why);
}

// The same with a number between two texts.
pub fn complain_number(out: &mut Output, path: &[u8], before: &[u8], n: u64, after: &[u8]) {
    output::complain_number(out, input_name(path), before, n, after);
}
