// The adjustments of twelve semitones, read from a place on.
// Kept as `Fields` and a place in them: the same fields serve many places.
ghost use Rattle.std.specs.Prelude.{◌≡◌, ◌+◌, ◌≤◌, length};
ghost use Rattle.util.specs.Signed.{unbiased};
ghost use Rattle.read_places.specs.Places.{value_at};
ghost use Rattle.read_tuning.specs.Scales.{scale_1_at, scale_2_at};

use read_places::fields::Fields;
use util::{groups, signed};

// Kept as pairs: they differ in the type, the bytes of a value and its bias, and a trait for functions of a line each is no plainer.

// The signed value of one group at i.
fn i7_at(f: &Fields, i: usize) -> i8
    requires { i + 1 ≤ length f.now }
    ensures { result ≡ unbiased 64 (value_at 1 f.now i) }
{
    let v = groups::u7_at(f.bytes, i);
    signed::u7_to_i(v)
}

// The signed value of two groups from i on.
fn i14_at(f: &Fields, i: usize) -> i16
    requires { i + 2 ≤ length f.now }
    ensures { result ≡ unbiased 8192 (value_at 2 f.now i) }
{
    let v = groups::u14_at(f.bytes, i);
    signed::u14_to_i(v)
}

// Inlined, both: where the length of the fields is known no place is tested again (docs/SPEED.md).
// Kept as loops: by `std::array::from_fn`, which is proved too, a scale dump of two bytes took 2.05 times plain C in place of 1.33; its bar is 1.50.

// Twelve signed values of one group each, from i on.
#[inline(always)]
pub fn scale_1_at(f: &Fields, i: usize) -> [i8; 12]
    requires { (i ≤ 18) × (i + 12 ≤ length f.now) }
    ensures { result ≡ scale_1_at f.now i }
{
    let mut scale = [0; 12];
    for k in 0..12 {
        scale[k] = i7_at(f, i + k);
    }
    scale
}

// Twelve signed values of two groups each, from i on.
#[inline(always)]
pub fn scale_2_at(f: &Fields, i: usize) -> [i16; 12]
    requires { (i ≤ 18) × (i + 24 ≤ length f.now) }
    ensures { result ≡ scale_2_at f.now i }
{
    let mut scale = [0; 12];
    for k in 0..12 {
        scale[k] = i14_at(f, i + 2 * k);
    }
    scale
}
