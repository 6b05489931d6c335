// A write is tried on outputs of several lengths, and each answer and output is held to the case.
ghost use Rattle.std.specs.Prelude.{◌≡◌, ◌+◌, ◌≤◌, true, length};
ghost use Rattle.writer.specs.Write.{written_number, written_value};
ghost use Rattle.replay_write.specs.Tries.{Tried, Answered};

use util::refusal::Refusal;

// The byte of an output before a try. No frame has it.
const BEFORE: u8 = 0xA5;

// Whether the answer is the refusal of a number, or a frame of so many bytes where the number is 0.
fn is_answer(answer: Result<usize, Refusal>, refusal: u8, len: usize) -> bool
    ensures { result ≡ true → (written_number answer ≡ refusal) × (refusal ≡ 0 → written_value answer ≡ len) }
{
    match answer {
        Ok(n) => refusal == 0 && n == len,
        Err(r) => r.number() == refusal,
    }
}

// Whether a write at a place of an output of so many bytes is refused or puts the frame there, and all else is as it was.
fn is_left<W: Fn(&mut [u8], usize) -> Result<usize, Refusal> + Copy>(
    write: W,
    size: usize,
    place: usize,
    refusal: u8,
    frame: &[u8],
) -> bool
    requires { (size ≤ 4096) × (place + length frame.now ≤ 4096) × W.IsAlwaysCallable write }
    ensures { result ≡ true → Tried (W.post write) size place refusal frame.now }
{
    let mut out = [BEFORE; 4096];
    let mut want = [BEFORE; 4096];
    util::bytes::copy(&mut want[place..], frame);
    let answer = write(&mut out[..size], place);
    is_answer(answer, refusal, frame.len()) && check::same(&out, &want)
}

// Whether a write is answered as the case says: a refusal with room, and at a place past the end; a frame with just enough room, with bytes
// around it, with a byte too few, past the end.
pub fn is_answered<W: Fn(&mut [u8], usize) -> Result<usize, Refusal> + Copy>(
    write: W,
    refusal: u8,
    frame: &[u8],
) -> bool
    requires { W.IsAlwaysCallable write }
    ensures { result ≡ true → Answered (W.post write) refusal frame.now }
{
    if refusal != 0 {
        return is_left(write, 4096, 3, refusal, b"") && is_left(write, 8, 9, refusal, b"");
    }
    let n = frame.len();
    if 4000 < n {
        return false;
    }
    let space = Refusal::Space.number();
    is_left(write, n, 0, 0, frame)
        && is_left(write, n + 5, 3, 0, frame)
        && is_left(write, n + 2, 3, space, b"")
        && is_left(write, n, n + 1, space, b"")
}
