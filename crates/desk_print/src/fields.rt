// The fields of a message: the main ones in one line, or every field a line.
// Kept as an output and a style beside one another: a struct that lends the output is no plainer, since between fields lists and names are put on it.
use super::output::Output;
use super::{grouped, names, say, units};

// One line with the main fields, or a line for each field.
#[derive(Clone, Copy)]
pub enum Style {
    Line,
    Lines,
}

// Begins a message.
pub fn title(out: &mut Output, style: Style, name: &[u8]) {
    match style {
        Style::Line => say(out, name),
        Style::Lines => {
            say(out, b"message: ");
            say(out, name);
            say(out, b"\n");
        }
    }
}

// Begins a field: in a line behind a mark, with its name or without, and else a line with its name.
fn begin_behind(out: &mut Output, style: Style, mark: &[u8], label: &[u8], is_named: bool) {
    match style {
        Style::Line => {
            say(out, mark);
            if is_named {
                say(out, label);
                say(out, b" ");
            }
        }
        Style::Lines => {
            say(out, label);
            say(out, b": ");
        }
    }
}

// Begins a field that is named in a line too.
pub fn begin(out: &mut Output, style: Style, label: &[u8]) {
    begin_behind(out, style, b", ", label, true);
}

// Begins a field that is not named in a line.
pub fn begin_plain(out: &mut Output, style: Style, label: &[u8]) {
    begin_behind(out, style, b", ", label, false);
}

// Ends a field.
pub fn end(out: &mut Output, style: Style) {
    if let Style::Lines = style {
        say(out, b"\n");
    }
}

// A number that is named in a line too.
// Kept as one function for each field, this and those below: begin, put, end are three calls, and a closure for the second would be no fewer.
pub fn named(out: &mut Output, style: Style, label: &[u8], n: u64) {
    begin(out, style, label);
    grouped(out, n);
    end(out, style);
}

// A number with its unit, not named in a line.
pub fn measure(out: &mut Output, style: Style, label: &[u8], n: u64, unit: &[u8]) {
    begin_plain(out, style, label);
    grouped(out, n);
    say(out, unit);
    end(out, style);
}

// How many there are of a unit, not named in a line.
pub fn counted(out: &mut Output, style: Style, label: &[u8], n: u64, unit: &[u8]) {
    begin_plain(out, style, label);
    units(out, n, unit);
    end(out, style);
}

// Begins a field that follows the words before it without a comma.
pub fn begin_close(out: &mut Output, style: Style, label: &[u8]) {
    begin_behind(out, style, b" ", label, false);
}

// A name in quotes.
pub fn name(out: &mut Output, style: Style, label: &[u8], text: &[u8]) {
    begin_close(out, style, label);
    names::quoted(out, text);
    end(out, style);
}

// A number that follows the words before it without a name.
pub fn close(out: &mut Output, style: Style, label: &[u8], n: u64) {
    begin_close(out, style, label);
    grouped(out, n);
    end(out, style);
}

// A number that is named behind the title.
pub fn first(out: &mut Output, style: Style, label: &[u8], n: u64) {
    begin_behind(out, style, b" ", label, true);
    grouped(out, n);
    end(out, style);
}

// A number that is no main field.
pub fn detail(out: &mut Output, style: Style, label: &[u8], n: u64) {
    if let Style::Lines = style {
        say(out, label);
        say(out, b": ");
        grouped(out, n);
        say(out, b"\n");
    }
}

// Yes or no, that is no main field.
pub fn flag(out: &mut Output, style: Style, label: &[u8], is_set: bool) {
    if let Style::Lines = style {
        say(out, label);
        if is_set {
            say(out, b": yes\n");
        } else {
            say(out, b": no\n");
        }
    }
}
