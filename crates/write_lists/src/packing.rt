// The data of a file packet: a count byte, and the data packed.
// Kept as an output and what is written to it side by side: parts of either are handed on.
ghost use Rattle.std.specs.Prelude.{◌≡◌, ◌∷◌, ◌+◌, ◌/◌, ◌≤◌, ◌<◌, length, get_or};
ghost use Rattle.util.specs.Packing.{tops, pack};
ghost use Rattle.util.specs.Splice.{overwritten};
ghost use Rattle.messages.specs.format.Packed.{count_byte};

// The top bits of at most seven bytes, the first highest.
fn top_bits(group: &[u8]) -> u8
    requires { length group.now ≤ 7 }
    ensures { result ≡ tops 7 group.now }
{
    let mut t = 0;
    // Kept as a loop over seven places: a byte that is missing counts as 0.
    for i in 0..7 {
        t = 2 * t + util::groups::at(group, i) / 128;
    }
    t
}

// Writes one group packed: its top bits, and its bytes less these.
fn put_group(out: &mut [u8], group: &[u8])
    requires { (0 < length group.now) × (length group.now ≤ 7) × (1 + length group.now ≤ length out.old) }
    ensures { out.new ≡ overwritten (pack 0 group.now) out.old }
{
    out[0] = top_bits(group);
    for (i, b) in group.iter().enumerate() {
        out[i + 1] = b % 128;
    }
}

// Writes the data packed, seven bytes a group.
fn put_packed(out: &mut [u8], s: &[u8])
    requires { (length s.now ≤ 111) × (length (pack 0 s.now) ≤ length out.old) }
    ensures { out.new ≡ overwritten (pack 0 s.now) out.old }
{
    for (i, group) in s.chunks(7).enumerate() {
        put_group(&mut out[8 * i..], group);
    }
}

// Writes the count byte and the data packed.
pub fn put_file_data(out: &mut [u8], s: &[u8])
    requires { (length s.now ≤ 111) × (1 + length s.now + (length s.now + 6) / 7 ≤ length out.old) }
    ensures { out.new ≡ overwritten (count_byte s.now ∷ pack 0 s.now) out.old }
{
    let n = s.len();
    out[0] = (n + n / 7) as u8;
    put_packed(&mut out[1..], s);
}
