// General MIDI, turned on or off.
// Kept as two parameters, the numbers and their head code: the code is read once, and says alone which rows are tried.
ghost use Rattle.std.specs.Prelude.{◌≡◌, []};
ghost use Rattle.numbers_to_message.specs.Table.{find, midi_rows};
ghost use Rattle.numbers_to_message.specs.Fits.{answer, first_message};

use crate::rows::{Answer, message_of, row};
use messages::general_midi::GeneralMidi;
use messages::system_exclusive::UniversalNonRealTimeMsg;

// The General MIDI message of a head code, and whether the numbers fit it.
pub fn answer(v: &[u64], code: u64) -> Answer
    ensures { result ≡ answer (find code midi_rows []) v.now }
{
    match code {
        0x0901 => row(
            v,
            &[],
            UniversalNonRealTimeMsg::GeneralMidi(GeneralMidi::GM1),
        ),
        0x0902 => row(
            v,
            &[],
            UniversalNonRealTimeMsg::GeneralMidi(GeneralMidi::Off),
        ),
        0x0903 => row(
            v,
            &[],
            UniversalNonRealTimeMsg::GeneralMidi(GeneralMidi::GM2),
        ),
        _ => Err(UniversalNonRealTimeMsg::EOF),
    }
}

// The General MIDI message of a head code.
pub fn message(v: &[u64], code: u64) -> UniversalNonRealTimeMsg
    ensures { result ≡ first_message (find code midi_rows []) v.now }
{
    message_of(answer(v, code))
}
