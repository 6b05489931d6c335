// General MIDI, turned on or off.
ghost use Rattle.std.specs.Prelude.{◌≡◌};
ghost use Rattle.messages.specs.MessageOf.{head_midi};

use super::head::Head;

#[derive(Clone, Copy, Debug, PartialEq, Eq)]
pub enum GeneralMidi {
    GM1,
    Off,
    GM2,
}

impl GeneralMidi {
    // The head of the message. Kept as a match, as the head of each message is: From would be no shorter.
    pub fn head(self) -> Head
        ensures { result ≡ head_midi self }
    {
        match self {
            GeneralMidi::GM1 => Head::GeneralMidi1,
            GeneralMidi::Off => Head::GeneralMidiOff,
            GeneralMidi::GM2 => Head::GeneralMidi2,
        }
    }
}
