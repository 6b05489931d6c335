// Universal Non-Real-Time System Exclusive messages: enums and structs of numbers, beside which text and entries are lent.
#![tactic(auto)]

pub mod file_dump;
pub mod file_reference;
pub mod general_midi;
pub mod head;
pub mod sample_dump;
pub mod system_exclusive;
pub mod tuning;
