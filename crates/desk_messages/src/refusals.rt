// Refusals in words, for a player.
// Kept as two parameters, an output and a frame: texts take the output alone.
use super::words::Words;
use desk_print::output::Output;
use desk_print::{hex, say};
use util::groups::at;
use util::refusal::Refusal;

// Puts the sum that a frame has, and the sum that was due.
pub fn sums(out: &mut Output, frame: &[u8]) {
    let n = frame.len();
    if n < 6 {
        return;
    }
    let e = n - 2;
    say(out, b", found ");
    hex(out, at(frame, e));
    say(out, b", due ");
    hex(out, util::checksum::checksum(&frame[1..e]));
}

// Why bytes are no frame.
impl Words for Refusal {
    fn words(self) -> &'static [u8] {
        match self {
            Refusal::Shape => b"no message: too short, or a byte above 7F inside",
            Refusal::Head => b"another kind of message: not one that the desk reads",
            Refusal::Field => b"damaged: a field has a value or a length that it cannot have",
            Refusal::Sum => b"damaged: wrong sum",
            Refusal::Hold => b"too long for the desk",
            Refusal::High => b"a name has a character above 7F",
            Refusal::Long => b"a name or a list is too long",
            Refusal::Value => b"a number is too large",
            Refusal::Kind => b"a map is of the other kind of sound file",
            Refusal::Space => b"no room for the frame",
            Refusal::Stream => b"more than 65,535 bytes at once",
            Refusal::Index => b"too many frames at once",
            Refusal::UnexpectedEnd => b"the reply ends too early",
            Refusal::ByteOverflow => b"a byte above 7F in the reply",
            Refusal::NotImplemented => b"no identity reply",
        }
    }
}

// Puts why bytes are no frame.
pub fn refusal(out: &mut Output, r: Refusal) {
    say(out, r.words());
}

// Puts why a frame is refused; with its two sums where its sum is wrong.
pub fn explain(out: &mut Output, frame: &[u8], r: Refusal) {
    refusal(out, r);
    if let Refusal::Sum = r {
        sums(out, frame);
    }
}
