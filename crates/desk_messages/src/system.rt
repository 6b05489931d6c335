// Devices, makers and identity replies in words.
use desk_print::fields::Style;
use desk_print::output::Output;
use desk_print::{fields, hex, number, say};
use messages::system_exclusive::{DeviceID, IdentityReply, ManufacturerID};

// A device: its number, or all.
pub fn put_device(out: &mut Output, d: DeviceID) {
    match d {
        DeviceID::Device(n) => number(out, n as u64),
        DeviceID::AllCall => say(out, b"all"),
    }
}

// A byte in hexadecimal digits, marked as such.
fn put_marked(out: &mut Output, b: u8) {
    hex(out, b);
    say(out, b"h");
}

// The maker of an identity reply, in hexadecimal digits.
fn put_maker(out: &mut Output, id: ManufacturerID) {
    match id {
        ManufacturerID::OneByte(a) => put_marked(out, a),
        ManufacturerID::Extended(a, b) => {
            say(out, b"00h ");
            put_marked(out, a);
            say(out, b" ");
            put_marked(out, b);
        }
    }
}

// The four numbers of a revision.
fn put_revision(out: &mut Output, r: (u8, u8, u8, u8)) {
    number(out, r.0 as u64);
    say(out, b".");
    number(out, r.1 as u64);
    say(out, b".");
    number(out, r.2 as u64);
    say(out, b".");
    number(out, r.3 as u64);
}

// An identity reply in words.
pub fn identity(out: &mut Output, style: Style, m: IdentityReply) {
    fields::title(out, style, b"identity reply");
    fields::begin(out, style, b"maker");
    put_maker(out, m.id);
    fields::end(out, style);
    fields::named(out, style, b"family", m.family as u64);
    fields::named(out, style, b"member", m.family_member as u64);
    fields::begin(out, style, b"revision");
    put_revision(out, m.software_revision);
    fields::end(out, style);
}
