// Values of one format, each written in the same number of bytes, one after another.
ghost use Rattle.std.specs.Prelude.{◌≡◌, [], ◌∷◌, List, ℕ, ◌+◌, ◌*◌, ◌≤◌, min, length, take, refl};
ghost use Rattle.util.specs.Splice.{overwritten};
ghost use Rattle.messages.specs.format.Core.{written};
ghost use Rattle.messages.specs.Fields.{u7, s7, s14};
ghost use Rattle.write_lists.specs.Writing.{each};

use util::limits::MOST_COUNTED;
use util::signed;

// A format of one size: what is written of a value.
pub trait Format {
    type Value: Copy;

    const SIZE: usize;

    ghost SIZE: { ℕ };

    ghost bytes: { Self.Value → List ℕ };

    // Writes a value.
    fn put(out: &mut [u8], v: Self::Value)
        requires { SIZE ≤ length out.old }
        ensures { out.new ≡ overwritten (bytes v) out.old };

    ghost sized: { (v : Self.Value) → length (bytes v) ≡ SIZE };
}

// Writes values, one after another.
pub fn put_each<F: Format>(out: &mut [u8], values: &[F::Value])
    requires { F.SIZE * length values.now ≤ length out.old }
    ensures { out.new ≡ overwritten (each F.bytes values.now) out.old }
{
    for (i, v) in values.iter().enumerate() {
        F::put(&mut out[F::SIZE * i..], *v);
    }
}

// Writes the number of some values, at most 127, and so many of them.
pub fn put_counted<F: Format>(out: &mut [u8], values: &[F::Value])
    requires { 1 + F.SIZE * min (length values.now) 127 ≤ length out.old }
    ensures { out.new ≡ overwritten (min (length values.now) 127 ∷ each F.bytes (take (min (length values.now) 127) values.now)) out.old }
{
    let n = values.len().min(MOST_COUNTED);
    out[0] = n as u8;
    put_each::<F>(&mut out[1..], &values[..n]);
}

// A byte held to one group.
pub struct U7;

impl Format for U7 {
    type Value = u8;

    const SIZE: usize = 1;

    ghost SIZE = { 1 };

    ghost bytes = { λ v. written u7 v };

    fn put(out: &mut [u8], v: u8) {
        out[0] = v.min(127);
    }

    ghost sized = { λ v. refl };
}

// A signed value in one group.
pub struct S7;

impl Format for S7 {
    type Value = i8;

    const SIZE: usize = 1;

    ghost SIZE = { 1 };

    ghost bytes = { λ v. written s7 v };

    fn put(out: &mut [u8], v: i8) {
        signed::put_i7(out, v);
    }

    ghost sized = { λ v. refl };
}

// A signed value in two groups.
pub struct S14;

impl Format for S14 {
    type Value = i16;

    const SIZE: usize = 2;

    ghost SIZE = { 2 };

    ghost bytes = { λ v. written s14 v };

    fn put(out: &mut [u8], v: i16) {
        signed::put_i14(out, v);
    }

    ghost sized = { λ v. refl };
}
