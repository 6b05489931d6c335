// The type of a file reference by place, and how long its URL is.
// Kept as `Fields` and a place in them: the same fields serve many places.
// The clause `Seven f.now` of a contract hands the invariant of `Fields` on to the proofs of the callers.
ghost use Rattle.std.specs.Prelude.{◌≡◌, ◌==◌, ◌+◌, ◌≤◌, length, drop, position};
ghost use Rattle.std.proofs.Math.Option.{some};
ghost use Rattle.util.specs.Groups.{Seven};
ghost use Rattle.util.specs.Options.{only_if};
ghost use Rattle.messages.specs.format.Sequence.{strip};
ghost use Rattle.messages.specs.format.Tags.{look};
ghost use Rattle.messages.specs.Maps.{reference_types};
ghost use Rattle.read_file_reference.specs.Texts.{type_got, Ends};

use messages::file_reference::FileReferenceType;
use read_places::fields::Fields;
use util::limits::MOST_URL;

// Whether the bytes from i on begin with these letters.
pub fn spells(f: &Fields, i: usize, letters: &[u8]) -> bool
    requires { i ≤ length f.now }
    ensures { only_if result (some (drop (i + length letters.now) f.now)) ≡ strip letters.now (drop i f.now) }
{
    f.bytes[i..].starts_with(letters)
}

// The type whose four letters stand at i.
// Kept as tests of the front of a slice: for a match over four letters an array of them would have to be made first.
pub fn type_at(f: &Fields, i: usize) -> Option<FileReferenceType>
    requires { i + 4 ≤ length f.now }
    ensures { type_got result (drop (i + 4) f.now) ≡ look reference_types (drop i f.now) }
{
    if spells(f, i, b"DLS ") {
        return Some(FileReferenceType::DLS);
    }
    if spells(f, i, b"SF2 ") {
        return Some(FileReferenceType::SF2);
    }
    if spells(f, i, b"WAV ") {
        return Some(FileReferenceType::WAV);
    }
    None
}

// The place of the first 00.
fn zero_place(bytes: &[u8]) -> Option<usize>
    ensures { result ≡ position (λ b. b == 0) bytes.now }
{
    bytes.iter().position(|b| *b == 0)
}

// How many bytes the URL from start on has, where a 00 ends it and it is no longer than a URL may be.
pub fn url_length(f: &Fields, start: usize) -> Option<usize>
    requires { start ≤ length f.now }
    ensures { Seven f.now × Ends result f.now start }
{
    let length = zero_place(&f.bytes[start..])?;
    if MOST_URL < length {
        return None;
    }
    Some(length)
}
