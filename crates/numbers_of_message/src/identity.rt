// Identity replies.
// Kept as two parameters, an output and the number of a device: a struct of both would be made for each message.
ghost use Rattle.std.specs.Prelude.{◌∷◌};
ghost use Rattle.numbers_of_message.specs.Put.{Put};
ghost use Rattle.numbers_of_message.specs.Numbers.{numbers, field_numbers, after_maker, of_identity};

use crate::put::put;
use messages::system_exclusive::{IdentityReply, ManufacturerID};

// Puts a reply; form, m1 and m2 are the numbers of its maker.
fn put_maker(out: &mut [u64], d: u64, form: u64, m1: u8, m2: u8, r: IdentityReply) -> usize
    ensures { Put (0x0602 ∷ d ∷ form ∷ m1 ∷ m2 ∷ field_numbers (after_maker r)) out.old out.new result }
{
    let v = r.software_revision;
    let row = [
        0x0602,
        d,
        form,
        m1 as u64,
        m2 as u64,
        r.family as u64,
        r.family_member as u64,
        v.0 as u64,
        v.1 as u64,
        v.2 as u64,
        v.3 as u64,
    ];
    put(out, &row)
}

// Puts an identity reply.
pub fn put_reply(out: &mut [u64], d: u64, r: IdentityReply) -> usize
    ensures { Put (numbers d (of_identity r)) out.old out.new result }
{
    match r.id {
        ManufacturerID::OneByte(m) => put_maker(out, d, 0, m, 0, r),
        ManufacturerID::Extended(m, n) => put_maker(out, d, 1, m, n, r),
    }
}
