// Readers of the fields of sample dumps: what stands between the head and F7, or the checksum byte.
#![tactic(auto)]

pub mod extended_sample_dump;
mod loops;
pub mod sample_dump;
