// General MIDI.
// Kept as two parameters, an output and the number of a device: a struct of both would be made for each message.
ghost use Rattle.numbers_of_message.specs.Put.{Put};
ghost use Rattle.numbers_of_message.specs.Numbers.{numbers, of_midi};

use crate::put::put;
use messages::general_midi::GeneralMidi;

// Puts a General MIDI message.
pub fn put_message(out: &mut [u64], d: u64, g: GeneralMidi) -> usize
    ensures { Put (numbers d (of_midi g)) out.old out.new result }
{
    match g {
        GeneralMidi::GM1 => put(out, &[0x0901, d]),
        GeneralMidi::Off => put(out, &[0x0902, d]),
        GeneralMidi::GM2 => put(out, &[0x0903, d]),
    }
}
