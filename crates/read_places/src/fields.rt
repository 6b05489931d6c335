// The fields of a frame, by place.
// Kept as methods that take a place: the same fields serve many places.
ghost use Rattle.std.specs.Prelude.{◌≡◌, List, ℕ, length, get_or};
ghost use Rattle.util.specs.Groups.{Seven};
ghost use Rattle.read_places.specs.Places.{value_at};

use std::marker::Model;
use util::groups;

// The bytes of a frame behind its head and before its checksum, each below 128.
#[derive(Drop)]
pub struct Fields<'a> {
    pub bytes: &'a [u8],
}

impl<'a> Model for Fields<'a> {
    ghost Value = { List ℕ };

    ghost view = { λ f. f.bytes.now };

    ghost invariant = { λ f. Seven f.bytes.now };
}

impl<'a> Fields<'a> {
    // How many bytes they have, each of which is below 128.
    pub fn len(&self) -> usize
        ensures size { result ≡ length self.now }
        ensures seven { Seven self.now }
    {
        self.bytes.len()
    }

    // The byte at i; 0 past the end.
    pub fn at(&self, i: usize) -> u8
        ensures { result ≡ get_or self.now i 0 }
    {
        groups::at(self.bytes, i)
    }

    // The number of one byte at i.
    pub fn u7_at(&self, i: usize) -> u8
        ensures { result ≡ value_at 1 self.now i }
    {
        groups::u7_at(self.bytes, i)
    }

    // The number of two bytes from i on.
    pub fn u14_at(&self, i: usize) -> u16
        ensures { result ≡ value_at 2 self.now i }
    {
        groups::u14_at(self.bytes, i)
    }

    // The number of three bytes from i on.
    pub fn u21_at(&self, i: usize) -> u32
        ensures { result ≡ value_at 3 self.now i }
    {
        groups::u21_at(self.bytes, i)
    }

    // The number of four bytes from i on.
    pub fn u28_at(&self, i: usize) -> u32
        ensures { result ≡ value_at 4 self.now i }
    {
        groups::u28_at(self.bytes, i)
    }

    // The number of five bytes from i on.
    pub fn u35_at(&self, i: usize) -> u64
        ensures { result ≡ value_at 5 self.now i }
    {
        groups::u35_at(self.bytes, i)
    }
}
