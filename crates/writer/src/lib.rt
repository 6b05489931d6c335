// Writes a message's frame at a place of a longer output.
// Kept as parameters side by side, a message, its text and entries, an output and a place in it: the public functions take them so. What is tested is an `Admitted`.
#![tactic(auto)]

pub mod handshake;
pub mod refusals;

ghost use Rattle.std.specs.Prelude.{◌≡◌, [], ◌++◌, ◌+◌, ◌-◌, ◌≤◌, ◌<◌, length, take, drop};
ghost use Rattle.std.proofs.Math.Option.{none};
ghost use Rattle.util.specs.Splice.{overwritten, splice};
ghost use Rattle.messages.specs.Layouts.{summed};
ghost use Rattle.messages.specs.Messages.{given, write_of};
ghost use Rattle.messages.specs.Contents.{contents};
ghost use Rattle.messages.specs.MessageOf.{head_of, fields_of, message_of, head_sample, head_file};
ghost use Rattle.write_fronts.specs.Fronts.{front_of};
ghost use Rattle.write_fronts.specs.Sizes.{front_size};
ghost use Rattle.write_lists.specs.Parts.{part_of};
ghost use Rattle.writer.specs.Write.{has_room, written_at, output_after, length_at};
ghost use Rattle.writer.specs.Frames.{sum_of, wire, frame_of, Lent, lent, SizesOf};

use messages::system_exclusive::{DeviceID, UniversalNonRealTimeMsg};
use std::marker::Model;
use util::refusal::Refusal;

// Whether n bytes fit from a place on of an output of so many bytes.
pub fn has_room(size: usize, place: usize, n: usize) -> bool
    ensures { result ≡ has_room size place n }
{
    place <= size && n <= size - place
}

// How many bytes a checksum takes.
fn sum_size(sum: bool) -> usize
    ensures { (result ≡ length (sum_of sum [])) × (result ≤ 1) }
{
    if sum { 1 } else { 0 }
}

// Writes the checksum of what lies from index 1 up to end, at end, where there is one, and answers its length.
fn put_sum(out: &mut [u8], sum: bool, end: usize) -> usize
    requires { (1 ≤ end) × (end < length out.old) }
    ensures { (result ≡ length (sum_of sum (take (end - 1) (drop 1 out.old))))
        × (out.new ≡ splice out.old end (sum_of sum (take (end - 1) (drop 1 out.old)))) }
{
    if sum {
        let s = util::checksum::checksum(&out[1..end]);
        out[end] = s;
        1
    } else {
        0
    }
}

// What a frame is made of beside F0 and F7: the bytes of its front and of its part, and whether there is a checksum.
#[derive(Clone, Copy)]
struct Sizes {
    front: usize,
    part: usize,
    sum: bool,
}

impl Sizes {
    // The length of a frame of these sizes.
    fn total(self) -> usize
        requires { (self.front ≤ 32) × (self.part ≤ 2048) }
        ensures { result ≡ 2 + self.front + self.part + length (sum_of self.sum []) }
    {
        2 + self.front + self.part + sum_size(self.sum)
    }
}

// Writes a frame of these sizes: F0, the message's front and its part, the checksum, F7.
fn put_frame(
    out: &mut [u8],
    d: u64,
    m: UniversalNonRealTimeMsg,
    text: &[u8],
    entries: &[u64],
    s: Sizes,
)
    requires { (contents (head_of m) (fields_of m text.now entries.now) ≡ none)
        × (s.front ≡ front_size m)
        × (s.part ≡ length (part_of m text.now entries.now))
        × (length (wire s.sum (front_of d m (length text.now) (length entries.now) ++ part_of m text.now entries.now)) ≤ length out.old) }
    ensures { out.new ≡ overwritten (wire s.sum (front_of d m (length text.now) (length entries.now) ++ part_of m text.now entries.now)) out.old }
{
    out[0] = 0xF0;
    write_fronts::put_front(&mut out[1..], d, m, text.len(), entries.len());
    let a = 1 + s.front;
    write_lists::part::put_part(&mut out[a..], m, text, entries);
    let e = a + s.part;
    let z = e + put_sum(out, s.sum, e);
    out[z] = 0xF7;
}

// A message with the text and the entries lent beside it, whose contents are admitted.
#[derive(Drop)]
struct Admitted<'a> {
    m: UniversalNonRealTimeMsg,
    text: &'a [u8],
    entries: &'a [u64],
}

impl<'a> Model for Admitted<'a> {
    ghost Value = { Lent };

    ghost view = { λ a. record { m = a.m; text = a.text.now; entries = a.entries.now } };

    ghost invariant = { λ a. contents (head_of a.m) (fields_of a.m a.text.now a.entries.now) ≡ none };
}

impl<'a> Admitted<'a> {
    // A message with what is lent beside it, or the refusal of its contents.
    fn of(m: UniversalNonRealTimeMsg, text: &'a [u8], entries: &'a [u64]) -> Result<Self, Refusal>
        ensures { result ≡ lent m text.now entries.now (contents (head_of m) (fields_of m text.now entries.now)) }
    {
        refusals::refused(m, text, entries)?;
        Ok(Admitted { m, text, entries })
    }

    // The sizes of the frame.
    fn sizes(&self) -> Sizes
        ensures { SizesOf result self.now.m self.now.text self.now.entries }
    {
        let part = write_lists::size::part_size(self.m, self.text.len(), self.entries.len());
        let sum = self.m.head().is_summed();
        let front = write_fronts::front_size(self.m);
        Sizes { front, part, sum }
    }

    // The length of the frame.
    fn len(&self, device: DeviceID) -> usize
        ensures { result ≡ length (frame_of device self.now.m self.now.text self.now.entries) }
    {
        self.sizes().total()
    }

    // Writes the frame, which has these sizes, where there is room.
    fn put(&self, out: &mut [u8], device: DeviceID, s: Sizes)
        requires { SizesOf s self.now.m self.now.text self.now.entries
            × (length (frame_of device self.now.m self.now.text self.now.entries) ≤ length out.old) }
        ensures { out.new ≡ overwritten (frame_of device self.now.m self.now.text self.now.entries) out.old }
    {
        let d = u8::from(device) as u64;
        put_frame(out, d, self.m, self.text, self.entries, s);
    }

    // Writes the frame at a place of the output, or refuses it for want of space.
    fn write(&self, device: DeviceID, out: &mut [u8], place: usize) -> Result<usize, Refusal>
        ensures { (result ≡ written_at (given (frame_of device self.now.m self.now.text self.now.entries)) (length out.old) place)
            × (out.new ≡ output_after (given (frame_of device self.now.m self.now.text self.now.entries)) out.old place) }
    {
        let s = self.sizes();
        let n = s.total();
        if !has_room(out.len(), place, n) {
            return Err(Refusal::Space);
        }
        self.put(&mut out[place..], device, s);
        Ok(n)
    }
}

// The length of a message's frame, before anything is written, or the refusal of its contents.
pub fn frame_length(
    device: DeviceID,
    m: UniversalNonRealTimeMsg,
    text: &[u8],
    entries: &[u64],
) -> Result<usize, Refusal>
    ensures { result ≡ length_at (write_of (message_of device m text.now entries.now)) }
{
    Ok(Admitted::of(m, text, entries)?.len(device))
}

// Tests a message's contents, and writes its frame at a place of the output.
fn write_message(
    device: DeviceID,
    m: UniversalNonRealTimeMsg,
    text: &[u8],
    entries: &[u64],
    out: &mut [u8],
    place: usize,
) -> Result<usize, Refusal>
    ensures { (result ≡ written_at (write_of (message_of device m text.now entries.now)) (length out.old) place)
        × (out.new ≡ output_after (write_of (message_of device m text.now entries.now)) out.old place) }
{
    Admitted::of(m, text, entries)?.write(device, out, place)
}

// Writes a message's frame at a place of the output.
pub fn write(
    device: DeviceID,
    m: UniversalNonRealTimeMsg,
    text: &[u8],
    entries: &[u64],
    out: &mut [u8],
    place: usize,
) -> Result<usize, Refusal>
    ensures { (result ≡ written_at (write_of (message_of device m text.now entries.now)) (length out.old) place)
        × (out.new ≡ output_after (write_of (message_of device m text.now entries.now)) out.old place) }
{
    match handshake::handshake_of(m) {
        Some((a, n)) => handshake::write_handshake(device, a, n, out, place),
        None => write_message(device, m, text, entries, out, place),
    }
}
