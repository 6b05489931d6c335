// A frame is read, and its message is written again.
// Kept as parameters side by side, as the functions have them that are replayed.
use messages::file_reference::Kind;
use messages::system_exclusive::{DeviceID, UniversalNonRealTimeMsg};
use util::bytes::sub_slice;
use util::limits::KEYS;
use util::refusal::Refusal;

// Writes a message: whether that gives the bytes of the frame.
fn written(
    frame: &[u8],
    device: DeviceID,
    m: UniversalNonRealTimeMsg,
    text: &[u8],
    entries: &[u64],
) -> Result<bool, Refusal> {
    let mut out = [0u8; 4096];
    let n = writer::write(device, m, text, entries, &mut out, 0)?;
    Ok(check::same(sub_slice(&out, 0, n), frame))
}

// Whether the head of a frame is 07 02, whose text is file data.
fn has_data(frame: &[u8]) -> bool {
    matches!(frame, [_, _, _, 0x07, 0x02, ..])
}

// Reads a frame and writes its message again: whether that gives the same bytes.
// Kept: no equality of two values, it reads and writes one frame.
pub fn is_same(frame: &[u8], kind: Kind) -> Result<bool, Refusal> {
    let mut data = [0u8; KEYS];
    let mut entries = [0u64; KEYS];
    let r = reader::read(frame, kind, &mut data, &mut entries)?;
    if KEYS < r.places {
        return Ok(false);
    }
    let text = if has_data(frame) {
        &data[..r.places]
    } else {
        sub_slice(frame, r.from, r.len)
    };
    written(frame, r.device, r.m, text, &entries[..r.places])
}
