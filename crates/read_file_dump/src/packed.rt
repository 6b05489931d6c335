// Packed data: the number of data bytes, what is left over, and the data bytes.
// Kept as slices with a `requires`: these functions take parts of the packed bytes, and a struct of fields would have to be made for each part.
ghost use Rattle.std.specs.Prelude.{◌≡◌, ◌+◌, ◌-◌, ◌/◌, ◌%◌, ◌^◌, ◌≤◌, ◌<◌, length};
ghost use Rattle.util.specs.Groups.{Seven};
ghost use Rattle.util.specs.Splice.{overwritten};
ghost use Rattle.read_places.specs.Places.{next_k, next_tops, data_byte, data_from, none_over};

// How many data bytes n packed bytes hold.
pub fn data_size(n: usize) -> usize
    ensures { (result ≡ n - (n + 7) / 8) × (result ≤ n) }
{
    n - n.div_ceil(8)
}

// The lowest k bits of t.
fn low_bits(t: u8, k: usize) -> u8
    requires { k ≤ 6 }
    ensures { result ≡ t % 2 ^ k }
{
    t % (1 << k)
}

// Whether packed bytes leave no bit over and no byte of top bits alone: the last group tells.
pub fn is_none_over(s: &[u8]) -> bool
    requires { Seven s.now }
    ensures { result ≡ none_over 0 0 s.now }
{
    match s.len() % 8 {
        0 => true,
        1 => false,
        n => low_bits(s[s.len() - n], 8 - n) == 0,
    }
}

// Writes the seven data bytes of a whole group.
pub fn put_group(out: &mut [u8], g: &[u8])
    requires { Seven g.now × (length g.now ≡ 8) × (7 ≤ length out.old) }
    ensures { out.new ≡ overwritten (data_from 0 0 g.now) out.old }
{
    let t = g[0];
    out[0] = t / 64 * 128 + g[1];
    out[1] = t / 32 % 2 * 128 + g[2];
    out[2] = t / 16 % 2 * 128 + g[3];
    out[3] = t / 8 % 2 * 128 + g[4];
    out[4] = t / 4 % 2 * 128 + g[5];
    out[5] = t / 2 % 2 * 128 + g[6];
    out[6] = t % 2 * 128 + g[7];
}

// How many bytes of a group are still to come after one more.
fn next_k(k: usize) -> usize
    ensures { result ≡ next_k k }
{
    if k == 0 { 7 } else { k - 1 }
}

// The top bits of the bytes still to come after b.
fn next_tops(k: usize, t: u8, b: u8) -> u8
    requires { k ≤ 7 }
    ensures { result ≡ next_tops k t b }
{
    if k == 0 { b } else { low_bits(t, k - 1) }
}

// Writes the data byte that b gives, and tells how many that are; a byte of top bits gives none.
fn put_data_byte(out: &mut [u8], k: usize, t: u8, b: u8) -> usize
    requires { (k ≤ 7) × (t < 2 ^ k) × (b < 128) × (length (data_byte k t b) ≤ length out.old) }
    ensures { (result ≡ length (data_byte k t b)) × (out.new ≡ overwritten (data_byte k t b) out.old) }
{
    if k == 0 {
        0
    } else {
        let j = k - 1;
        out[0] = (t >> j) * 128 + b;
        1
    }
}

// Writes the data of packed bytes, byte by byte.
pub fn put_rest(out: &mut [u8], s: &[u8])
    requires { Seven s.now × (length (data_from 0 0 s.now) ≤ length out.old) }
    ensures { out.new ≡ overwritten (data_from 0 0 s.now) out.old }
{
    let mut at = 0;
    let mut k = 0;
    let mut t: u8 = 0;
    for b in s {
        at += put_data_byte(&mut out[at..], k, t, *b);
        t = next_tops(k, t, *b);
        k = next_k(k);
    }
}
