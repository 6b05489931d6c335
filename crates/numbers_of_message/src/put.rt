// Numbers put at the start of a slice, where there is room for all; how many they are.
ghost use Rattle.std.specs.Prelude.{◌≡◌, [], ◌∷◌, ◌++◌, ◌+◌, ◌≤◌, length};
ghost use Rattle.util.specs.Splice.{overwritten};
ghost use Rattle.numbers_of_message.specs.Put.{Put};

// Writes the numbers of another slice.
// Kept beside util's copy of bytes: its body is one call of the library.
fn copy(out: &mut [u64], s: &[u64])
    requires { length s.now ≤ length out.old }
    ensures { out.new ≡ overwritten s.now out.old }
{
    out[..s.len()].copy_from_slice(s);
}

// Puts the numbers of a slice.
pub fn put(out: &mut [u64], s: &[u64]) -> usize
    ensures { Put s.now out.old out.new result }
{
    let count = s.len();
    if out.len() < count {
        return count;
    }
    copy(out, s);
    count
}

// Puts the numbers of two slices, one after the other.
pub fn put_both(out: &mut [u64], s: &[u64], t: &[u64]) -> usize
    requires { length s.now + length t.now ≤ 16 }
    ensures { Put (s.now ++ t.now) out.old out.new result }
{
    let k = s.len();
    let n = k + t.len();
    if out.len() < n {
        return n;
    }
    copy(out, s);
    copy(&mut out[k..], t);
    n
}
