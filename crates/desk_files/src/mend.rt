// A frame with the sum that is due.
ghost use Rattle.desk_files.specs.Mend.{Mended};

// Copies a stretch to the start of a buffer with the sum that is due in place of its own; how many bytes that are, none where there is no room or
// no place of a sum.
// Kept as a count that is 0 for none: `Mended` counts the mended bytes, and the one caller would turn None back into no bytes.
pub fn with_sum(stretch: &[u8], room: &mut [u8]) -> usize
    ensures { Mended stretch.now room.old room.new result }
{
    let n = stretch.len();
    if room.len() < n {
        return 0;
    }
    if n < 6 {
        return 0;
    }
    util::bytes::copy(room, stretch);
    let e = n - 2;
    room[e] = util::checksum::checksum(&stretch[1..e]);
    n
}
