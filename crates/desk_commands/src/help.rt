// How the desk is used.
use desk_print::output::{Output, complain};
use desk_print::say;

// Puts how the desk is used: the commands.
fn put_commands(out: &mut Output) {
    say(
        out,
        b"desk list [--all] [KIND] FILE..          the frames of captures; --all: also what is no frame, and why\n",
    );
    say(
        out,
        b"desk show [KIND] FILE OFFSET             one message, every field\n",
    );
    say(
        out,
        b"desk extract [KIND] FILE OFFSET OUT      the file of a file dump, or a frame as it stands\n",
    );
    say(
        out,
        b"desk tune OUT PROGRAM NAME               a tuning of the lines KEY CENTS or KEY - on standard input\n",
    );
    say(
        out,
        b"desk scale OUT BANK PROGRAM NAME         a scale of twelve numbers of cents on standard input\n",
    );
    say(
        out,
        b"desk --help                              these lines\n",
    );
    say(
        out,
        b"desk --version                           the version\n",
    );
}

// Puts how the desk is used.
pub fn help(out: &mut Output) {
    put_commands(out);
    say(
        out,
        b"KIND is bank or wav, the kind of sound file that is open on the instrument; left out, it is bank.\n",
    );
    say(
        out,
        b"FILE or OUT may be -, for standard input or output. A line may end in a comment, # or !.\n",
    );
    say(
        out,
        b"Nothing on standard error means success: there is no exit status. Progress is told on a terminal only.\n",
    );
}

// Puts the version.
pub fn version(out: &mut Output) {
    say(out, b"desk 0.1.0\n");
}

// Says that there is no command.
pub fn no_command(out: &mut Output) {
    complain(out, b"desk", b"no command; desk --help lists them");
}

// Says that a word is no command.
pub fn unknown(out: &mut Output, word: &[u8]) {
    complain(out, word, b"is no command; desk --help lists them");
}
