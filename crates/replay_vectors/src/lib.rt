// The format of the test vectors: little-endian numbers, the cases of a file, and what a replay of a case finds.
#![tactic(auto)]

pub mod cases;
pub mod numbers;
pub mod verdicts;
