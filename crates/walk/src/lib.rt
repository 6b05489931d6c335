// Lists the frames of a stream in an index.
#![tactic(auto)]

ghost use Rattle.std.specs.Prelude.{◌≡◌, Bool, ℕ, ◌+◌, ◌*◌, ◌-◌, ◌/◌, ◌%◌, ◌<◌, ◌≤◌, length, take, drop, get_or, MatchOption};
ghost use Rattle.util.specs.Limits.{most_stream};
ghost use Rattle.messages.specs.Walk.{frames, is_frame};
ghost use Rattle.std.specs.List.{prefix_len};
ghost use Rattle.walk.specs.Steps.{is_low, not_f0, Closed, Reached, NoneFrom, StretchFrom, put, put_all};
ghost use Rattle.walk.specs.Answer.{refusal_of, WalkMet};

use messages::file_reference::Kind;
use util::limits::{LARGEST_U7, MOST_STREAM};
use util::refusal::Refusal;

// Why a walk lists nothing: the stream is too long, or the index has fewer pairs than the stream has frames, which are counted.
#[derive(Clone, Copy, Debug, PartialEq, Eq)]
pub enum WalkError {
    Stream,
    Index(usize),
}

impl From<WalkError> for Refusal {
    ghost from_gives = { λ e r. r ≡ refusal_of e };

    // The refusal that a walk ends with.
    fn from(e: WalkError) -> Refusal {
        match e {
            WalkError::Stream => Refusal::Stream,
            WalkError::Index(_) => Refusal::Index,
        }
    }
}

// The first place from `from` on whose byte does not pass a test, or the end.
// Kept as a loop of four bytes a turn by index: `take_while` and chunks of four of the library were tried, and each misses the bar (docs/SPEED.md).
fn past<F: Fn(u8) -> bool>(s: &[u8], from: usize, passes: F) -> usize
    requires within { from ≤ length s.now }
    requires callable { F.IsAlwaysCallable passes }
    ensures { (p : ℕ → Bool) → ((b : ℕ) (r : Bool) → F.post passes b r → r ≡ p b) → result ≡ from + prefix_len p (drop from s.now) }
{
    let mut i = from;
    while i + 4 <= s.len() {
        if !passes(s[i]) {
            return i;
        }
        if !passes(s[i + 1]) {
            return i + 1;
        }
        if !passes(s[i + 2]) {
            return i + 2;
        }
        if !passes(s[i + 3]) {
            return i + 3;
        }
        i += 4;
    }
    (i..s.len()).find(|k| !passes(s[*k])).unwrap_or(s.len())
}

// Puts a pair at place n of an index that has room for it.
fn put_pair(index: &mut [u32], n: usize, offset: u32, len: u32)
    requires { n < 65536 }
    ensures { index.new ≡ put index.old n offset len }
{
    let k = n * 2;
    if k + 1 < index.len() {
        index[k] = offset;
        index[k + 1] = len;
    }
}

// The first F0 from a place on of a stream behind a second reference, or the end: a reading that holds no slice passes to the other by a jump.
fn next_f0(stream: &&[u8], from: usize) -> usize
    requires { from ≤ length stream.now.now }
    ensures { result ≡ from + prefix_len not_f0 (drop from stream.now.now) }
{
    past(*stream, from, |b| b != 0xF0)
}

// The first byte from a place on of a stream behind a second reference that is not below 128, or the end.
fn next_high(stream: &&[u8], from: usize) -> usize
    requires { from ≤ length stream.now.now }
    ensures { result ≡ from + prefix_len is_low (drop from stream.now.now) }
{
    past(*stream, from, |b| b <= LARGEST_U7)
}

// The byte of a stream behind a second reference at a place.
fn byte_at(stream: &&[u8], i: usize) -> u8
    requires { i < length stream.now.now }
    ensures { result ≡ get_or stream.now.now i 0 }
{
    let s = *stream;
    s[i]
}

// Outside a stretch: the first one from F0 to F7, of three bytes or more, from `at` on: 65,536 times its start, and its end. None: the end of the stream as its start.
// Kept as one number: a pair is handed over in memory, and a call between the two readings is then no jump, which a stack of 64 KB needs (docs/SPEED.md).
#[cycle(read_inside_read_outside)]
fn read_outside(stream: &&[u8], at: usize) -> usize
    requires { (at ≤ length stream.now.now) × (length stream.now.now ≤ most_stream) }
    ensures { Reached stream.now.now at (result / 65536) (result % 65536) }
{
    if at < stream.len() {
        if byte_at(stream, at) == 0xF0 {
            return read_inside(stream, at);
        }
    }
    let i = next_f0(stream, at);
    if i < stream.len() {
        read_inside(stream, i)
    } else {
        i * 65536
    }
}

// Inside, from the F0 at `start`: the same from there on. An F0 begins another stretch; where 7E does not follow, or another byte that is not
// below 128 ends the stretch, the reading goes on outside.
#[cycle(read_inside_read_outside)]
fn read_inside(stream: &&[u8], start: usize) -> usize
    requires { (start < length stream.now.now) × (length stream.now.now ≤ most_stream) × (get_or stream.now.now start 0 ≡ 0xF0) }
    ensures { Reached stream.now.now start (result / 65536) (result % 65536) }
{
    let next = start + 1;
    if stream.len() <= next {
        return next * 65536;
    }
    let b = byte_at(stream, next);
    if b == 0xF0 {
        return read_inside(stream, next);
    }
    if b != 0x7E {
        return read_outside(stream, next + 1);
    }
    let e = next_high(stream, next + 1);
    if e < stream.len() {
        if byte_at(stream, e) == 0xF7 {
            return start * 65536 + e;
        }
        if byte_at(stream, e) == 0xF0 {
            return read_inside(stream, e);
        }
        read_outside(stream, e + 1)
    } else {
        e * 65536
    }
}

// Whether the stretch from the F0 at `start` to the F7 at `e` is a frame.
fn frame_at(s: &[u8], kind: Kind, start: usize, e: usize) -> bool
    requires { Closed s.now start e }
    ensures { result ≡ is_frame kind (take (e + 1 - start) (drop start s.now)) }
{
    if e + 1 - start < 6 {
        return false;
    }
    reader::is_frame_shaped(&s[start..e + 1], kind)
}

// The first stretch from F0 to F7, of three bytes or more, from `at` on: the places of both. None: the stream ends first.
fn stretch_from(stream: &[u8], at: usize) -> Option<(usize, usize)>
    requires { (at ≤ length stream.now) × (length stream.now ≤ most_stream) }
    ensures { MatchOption result (NoneFrom stream.now at) (λ t. StretchFrom stream.now at t.0 t.1) }
{
    let p = read_outside(&stream, at);
    let start = p / 65536;
    if start < stream.len() {
        Some((start, p % 65536))
    } else {
        None
    }
}

// Puts the pairs of the frames, as far as the index has room, and counts the frames.
// Kept as a loop over what is found: it goes on behind each stretch, and an iterator of `from_fn` would do the same in a closure.
// Kept as a kind and an index side by side: C has them so.
fn list(stream: &[u8], kind: Kind, index: &mut [u32]) -> usize
    requires { length stream.now ≤ most_stream }
    ensures counted { result ≡ length (frames kind stream.now) }
    ensures few { result * 6 ≤ length stream.now }
    ensures listed { index.new ≡ put_all index.old 0 (frames kind stream.now) }
{
    let mut n: usize = 0;
    let mut at = 0;
    while let Some((start, e)) = stretch_from(stream, at) {
        if frame_at(stream, kind, start, e) {
            put_pair(index, n, start as u32, (e + 1 - start) as u32);
            n += 1;
        }
        at = e + 1;
    }
    n
}

// Lists the frames of a stream for a kind of sound file; counts them first where the index may have too few pairs.
pub fn walk(stream: &[u8], kind: Kind, index: &mut [u32]) -> Result<usize, WalkError>
    ensures { WalkMet result kind stream.now index.old index.new }
{
    if MOST_STREAM < stream.len() {
        return Err(WalkError::Stream);
    }
    let room = index.len() / 2;
    if stream.len() / 6 <= room {
        return Ok(list(stream, kind, index));
    }
    let n = list(stream, kind, &mut index[..0]);
    if room < n {
        return Err(WalkError::Index(n));
    }
    list(stream, kind, index);
    Ok(n)
}
