// Texts: sample bytes, names and URLs.
// Kept as an output and what is written to it side by side: parts of either are handed on.
ghost use Rattle.std.specs.Prelude.{◌≡◌, ◌+◌, ◌≤◌, min, length};
ghost use Rattle.util.specs.Splice.{overwritten};
ghost use Rattle.messages.specs.format.Core.{written};
ghost use Rattle.messages.specs.Fields.{name_of_16, sample_name, url};
ghost use Rattle.messages.specs.Structures.{samples};
ghost use Rattle.write_lists.specs.Writing.{fill_to};

use crate::format::{U7, put_counted, put_each};
use util::bytes;
use util::limits::MOST_URL;

// Writes n bytes of a text, each held to 127, filled with f.
fn put_filled(out: &mut [u8], s: &[u8], n: usize, f: u8)
    requires { n ≤ length out.old }
    ensures { out.new ≡ overwritten (fill_to f n s.now) out.old }
{
    let k = s.len().min(n);
    put_each::<U7>(out, &s[..k]);
    bytes::fill(&mut out[k..], n - k, f.min(127));
}

// Writes 120 sample bytes, filled with 00.
pub fn put_samples(out: &mut [u8], s: &[u8])
    requires { 120 ≤ length out.old }
    ensures { out.new ≡ overwritten (written samples s.now) out.old }
{
    put_filled(out, s, 120, 0);
}

// Writes a name of 16 bytes, filled with spaces.
pub fn put_name_16(out: &mut [u8], s: &[u8])
    requires { 16 ≤ length out.old }
    ensures { out.new ≡ overwritten (written name_of_16 s.now) out.old }
{
    put_filled(out, s, 16, 0x20);
}

// Writes a name's length, at most 127, and so many bytes of it.
pub fn put_sample_name(out: &mut [u8], s: &[u8])
    requires { 1 + min (length s.now) 127 ≤ length out.old }
    ensures { out.new ≡ overwritten (written sample_name s.now) out.old }
{
    put_counted::<U7>(out, s);
}

// Writes the first 260 bytes of a URL, and 00.
pub fn put_url(out: &mut [u8], s: &[u8])
    requires { min (length s.now) 260 + 1 ≤ length out.old }
    ensures { out.new ≡ overwritten (written url s.now) out.old }
{
    let n = s.len().min(MOST_URL);
    bytes::copy(out, &s[..n]);
    out[n] = 0;
}
