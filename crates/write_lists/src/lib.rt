// What follows the front of each message.
#![tactic(auto)]

pub mod entries;
pub mod format;
pub mod maps;
pub mod packing;
pub mod part;
pub mod size;
pub mod text;
