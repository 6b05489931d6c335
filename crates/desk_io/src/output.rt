// Output files: made where there is none, whole or not left. The name - is standard output.
// Kept as two parameters, an output and a name of a file or a number of bytes: texts take the output alone.
use super::names::is_dash;
use desk_print::output::{Output, complain, runtime};
use desk_print::{names, number, output, say};
use std::fs;
use std::fs::{File, OpenOptions};
use std::io::{Error, ErrorKind, Write};
use std::str::from_utf8;

// What is written: standard output, or a file that was made.
// Kept as an enum of its own: standard output is written too, where None would say that nothing is.
#[derive(Drop)]
pub enum Target {
    Stdout,
    File(File),
}

// Makes the file of a name.
fn create_file(rt: HostRuntime, path: &[u8]) -> std::io::Result<File> {
    match from_utf8(path) {
        Ok(name) => OpenOptions::new()
            .write(true)
            .create_new(true)
            .open(&rt, name),
        Err(_) => Err(Error::from(ErrorKind::InvalidInput)),
    }
}

// Makes a file for writing; nothing, and a line that says why, where that fails.
pub fn create(out: &mut Output, path: &[u8]) -> Option<Target> {
    if is_dash(path) {
        return Some(Target::Stdout);
    }
    match create_file(runtime(out), path) {
        Ok(file) => Some(Target::File(file)),
        Err(e) => {
            if e.kind() == ErrorKind::AlreadyExists {
                complain(out, path, b"is there already, and is left as it is");
            } else {
                complain(out, path, b"cannot be made");
            }
            None
        }
    }
}

// Writes bytes to a file that was made; whether they are written.
pub fn write(out: &mut Output, to: &mut Target, bytes: &[u8]) -> bool {
    match to {
        Target::Stdout => {
            say(out, bytes);
            !output::is_failed(out)
        }
        Target::File(file) => file.write_all(bytes).is_ok(),
    }
}

// Removes the file of a name.
fn remove(rt: HostRuntime, path: &[u8]) {
    if let Ok(name) = from_utf8(path) {
        let _ = fs::remove_file(&rt, name);
    }
}

// Closes a file, and removes it where it is not whole; whether it is there and whole. Closing tells of no error, so that what was written is
// brought to the disk first.
pub fn finish(out: &mut Output, to: Target, path: &[u8], is_whole: bool) -> bool {
    match to {
        Target::Stdout => {
            output::flush(out);
            is_whole && !output::is_failed(out)
        }
        Target::File(file) => {
            if is_whole && file.sync_data().is_ok() {
                return true;
            }
            remove(runtime(out), path);
            false
        }
    }
}

// Says that a file could not be written; of standard output that is told already.
pub fn unwritten(out: &mut Output, path: &[u8]) {
    if !is_dash(path) {
        complain(
            out,
            path,
            b"could not be written (is the disk full?), and is not left",
        );
    }
}

// Puts bytes or a byte, behind their number.
fn put_bytes(out: &mut Output, n: u64) {
    if n == 1 {
        return say(out, b" byte written");
    }
    say(out, b" bytes written");
}

// Says how many bytes a file got, without a line end; nothing of standard output. Whether it is said.
pub fn written(out: &mut Output, path: &[u8], count: u64) -> bool {
    if is_dash(path) {
        return false;
    }
    names::path(out, path);
    say(out, b": ");
    number(out, count);
    put_bytes(out, count);
    true
}

// Writes bytes as a new file, and says so without a line end; whether it is said.
pub fn save(out: &mut Output, path: &[u8], bytes: &[u8]) -> bool {
    let Some(mut to) = create(out, path) else {
        return false;
    };
    let is_whole = write(out, &mut to, bytes);
    if finish(out, to, path, is_whole) {
        return written(out, path, bytes.len() as u64);
    }
    unwritten(out, path);
    false
}
