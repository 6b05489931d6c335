// Files of captured streams: frames listed and shown.
#![tactic(auto)]

pub mod all;
pub mod frames;
pub mod list;
pub mod mend;
pub mod show;
pub mod sorts;
pub mod walks;
