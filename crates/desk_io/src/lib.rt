// Files read in pieces that overlap; output files that are whole or not there.
#![tactic(auto)]

pub mod names;
pub mod output;
pub mod pieces;
