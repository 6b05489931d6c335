// Tunings made of lines: a key dump or a scale dump as a new file.
#![tactic(auto)]

pub mod errors;
pub mod keys;
pub mod said;
pub mod save;
pub mod scale;
