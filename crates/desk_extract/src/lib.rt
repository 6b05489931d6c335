// What begins at an offset of a file, taken out: a frame as it stands, or the file of a file dump.
#![tactic(auto)]

pub mod extract;
pub mod joined;
