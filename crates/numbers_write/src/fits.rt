// Whether numbers of a head code are a message: the device and the fields fit their types, and there are no more.
ghost use Rattle.std.specs.Prelude.{◌≡◌, length, get_or, replicate};
ghost use Rattle.numbers_to_message.specs.Fits.{fits};
ghost use Rattle.numbers_to_message.specs.declared.fit.NumberType.TheVariants as type;
ghost use Rattle.numbers_write.specs.Whole.{is_message, OneByte};

use numbers_to_message::fit::{is_i16, is_loop_type};

// Whether the numbers of a sample dump header are a message.
// Kept as a test for each number: by a row of types they took 17 ns of a header's 27 (docs/SPEED.md).
pub fn is_header(v: &[u64]) -> bool
    requires { get_or v.now 0 0 ≡ 0x0100 }
    ensures { result ≡ is_message v.now }
{
    if v.len() != 9 {
        return false;
    }
    if 256 < v[1] {
        return false;
    }
    if 65535 < v[2] {
        return false;
    }
    if 255 < v[3] {
        return false;
    }
    if 4294967295 < v[4] {
        return false;
    }
    if 4294967295 < v[5] {
        return false;
    }
    if 4294967295 < v[6] {
        return false;
    }
    if 4294967295 < v[7] {
        return false;
    }
    is_loop_type(v[8])
}

// Whether numbers whose head has one field, of one byte, are a message.
pub fn is_one_byte(v: &[u64]) -> bool
    requires { OneByte v.now }
    ensures { result ≡ is_message v.now }
{
    if v.len() != 3 {
        return false;
    }
    if 256 < v[1] {
        return false;
    }
    v[2] < 256
}

// Whether the numbers from the fifth to the sixteenth are from -2^15 to below 2^15.
fn are_i16(v: &[u64]) -> bool
    requires { length v.now ≡ 16 }
    ensures { result ≡ fits (replicate 12 type.I16) v.now 4 }
{
    v[4..].iter().all(|x| is_i16(*x))
}

// Whether the numbers of a scale tuning dump of two bytes are a message.
pub fn is_scale_dump_2(v: &[u64]) -> bool
    requires { get_or v.now 0 0 ≡ 0x0806 }
    ensures { result ≡ is_message v.now }
{
    if v.len() != 16 {
        return false;
    }
    if 256 < v[1] {
        return false;
    }
    if 255 < v[2] {
        return false;
    }
    if 255 < v[3] {
        return false;
    }
    are_i16(v)
}
