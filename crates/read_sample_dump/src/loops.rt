// Loop types by their byte, and loop numbers.
ghost use Rattle.std.specs.Prelude.{◌≡◌};
ghost use Rattle.messages.specs.Structures.{loop_code, extended_loop_code, Named};
ghost use Rattle.read_sample_dump.specs.Loops.{loop_number_of};

use messages::sample_dump::{ExtendedLoopType, LoopNumber, LoopType};
use util::limits::ALL_LOOPS;

// The loop type of byte b.
// Kept as a pair: the two enums are midi-msg's, and each is one line.
pub fn loop_type(b: u8) -> Option<LoopType>
    ensures { Named loop_code b result }
{
    LoopType::try_from(b).ok()
}

// The extended loop type of byte b.
pub fn extended_loop_type(b: u8) -> Option<ExtendedLoopType>
    ensures { Named extended_loop_code b result }
{
    ExtendedLoopType::try_from(b).ok()
}

// The loop number v; 16,383 is all.
pub fn loop_number(v: u16, all: LoopNumber) -> LoopNumber
    ensures { result ≡ loop_number_of all v }
{
    match v {
        ALL_LOOPS => all,
        _ => LoopNumber::Loop(v),
    }
}
