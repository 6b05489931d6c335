// File dumps in words.
// Kept as two parameters, an output and a style, as in the whole crate: texts take the output alone.
use super::{Beside, system};
use desk_print::fields::Style;
use desk_print::output::Output;
use desk_print::{fields, names, say};
use messages::file_dump::{FileDumpMsg, FileType};
use messages::system_exclusive::DeviceID;

// The name of a file type.
fn put_type(out: &mut Output, t: FileType) {
    match t {
        FileType::MIDI => say(out, b"MIDI"),
        FileType::MIEX => say(out, b"MIEX"),
        FileType::ESEQ => say(out, b"ESEQ"),
        FileType::TEXT => say(out, b"TEXT"),
        FileType::BIN => say(out, b"BIN"),
        FileType::MAC => say(out, b"MAC"),
        FileType::Custom(letters) => names::quoted(out, &letters),
    }
}

// Begins the type of a file.
fn begin_type(out: &mut Output, style: Style) {
    match style {
        Style::Line => say(out, b" of type "),
        Style::Lines => say(out, b"type: "),
    }
}

// The name and the type of a file.
fn file_name(out: &mut Output, style: Style, t: FileType, name: &[u8]) {
    fields::name(out, style, b"name", name);
    begin_type(out, style);
    put_type(out, t);
    fields::end(out, style);
}

// The device at the other end of a dump.
// Kept beside the fields of desk_print: begin, put, end are three calls.
fn other_device(out: &mut Output, style: Style, label: &[u8], d: DeviceID) {
    fields::begin(out, style, label);
    system::put_device(out, d);
    fields::end(out, style);
}

// A file dump in words; a packet holds so many bytes of the file.
pub fn file(out: &mut Output, style: Style, m: FileDumpMsg, beside: Beside) {
    match m {
        FileDumpMsg::Header {
            sender_device,
            file_type,
            length,
        } => {
            fields::title(out, style, b"file header");
            file_name(out, style, file_type, beside.text);
            fields::counted(out, style, b"length", length as u64, b"byte");
            other_device(out, style, b"from device", sender_device);
        }
        FileDumpMsg::Packet { running_count } => {
            fields::title(out, style, b"file packet");
            fields::close(out, style, b"packet", running_count as u64);
            fields::counted(out, style, b"size", beside.places as u64, b"byte");
        }
        FileDumpMsg::Request {
            requester_device,
            file_type,
        } => {
            fields::title(out, style, b"file request");
            file_name(out, style, file_type, beside.text);
            other_device(out, style, b"for device", requester_device);
        }
    }
}
