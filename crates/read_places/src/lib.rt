// What the fields of a frame say, and the entries of a list by place.
#![tactic(auto)]

pub mod entries;
pub mod fields;
pub mod heads;

ghost use Rattle.std.specs.Prelude.{◌≡◌};
ghost use Rattle.read_places.specs.Found.{found};

use messages::system_exclusive::{DeviceID, UniversalNonRealTimeMsg};

// What fields say: a message, the part of them that its name, URL or sample bytes are, 0, 0 where it has none, and where the list starts that
// goes to lent space, with the number of places that it takes.
#[derive(Clone, Copy, Debug, PartialEq, Eq)]
pub struct Found {
    pub m: UniversalNonRealTimeMsg,
    pub from: usize,
    pub len: usize,
    pub at: usize,
    pub count: usize,
}

impl Found {
    // A message of numbers alone, with no text and no list.
    pub fn numbers(m: UniversalNonRealTimeMsg) -> Self
        ensures { result ≡ found m 0 0 0 0 }
    {
        Found {
            m,
            from: 0,
            len: 0,
            at: 0,
            count: 0,
        }
    }
}
