// Op 65: all streams of a length over the bytes F0, F7, 7E, 00, 7B and 80, walked and held against every stretch tested by itself.
use messages::file_reference::Kind;
use util::bytes::sub_slice;

// The most bytes of a stream.
pub const MOST: usize = 7;

// The bytes of the streams.
const BYTES: [u8; 6] = [0xF0, 0xF7, 0x7E, 0x00, 0x7B, 0x80];

// Makes the stream of a number: its digits to the base six.
fn make(number: u64) -> [u8; MOST] {
    let mut s = [0u8; MOST];
    let mut rest = number;
    for byte in &mut s {
        *byte = BYTES[(rest % 6) as usize];
        rest /= 6;
    }
    s
}

// Whether a stream has so many bytes from an offset on, and they are a frame.
fn is_frame(s: &[u8], offset: u32, len: u32) -> bool {
    let stretch = sub_slice(s, offset as usize, len as usize);
    stretch.len() == len as usize && reader::is_frame(stretch, Kind::Bank)
}

// How many stretches are frames, by rising offset and length; none where one is not the next of the pairs, an offset and a length.
fn count(s: &[u8], pairs: &[[u32; 2]]) -> Option<usize> {
    let mut n = 0;
    for offset in 0..8 {
        for len in 0..8 {
            if is_frame(s, offset, len) {
                if *pairs.get(n)? != [offset, len] {
                    return None;
                }
                n += 1;
            }
        }
    }
    Some(n)
}

// How many frames a walk lists; none where they are not the stretches that are frames.
fn frames_of(s: &[u8]) -> Option<u64> {
    let mut index = [0u32; 16];
    let n = walk::walk(s, Kind::Bank, &mut index).ok()?;
    if count(s, index.as_chunks().0)? == n {
        Some(n as u64)
    } else {
        None
    }
}

// How many frames the first so many streams of a length have; none where one is not walked right.
pub fn frames_of_all(len: usize, streams: u64) -> Option<u64> {
    let mut frames: u64 = 0;
    for i in 0..streams {
        frames = frames.saturating_add(frames_of(sub_slice(&make(i), 0, len))?);
    }
    Some(frames)
}
