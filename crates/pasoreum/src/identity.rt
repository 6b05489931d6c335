// The numbers of an identity reply.
ghost use Rattle.std.specs.Prelude.{◌++◌};
ghost use Rattle.numbers_of_message.specs.Put.{Put};
ghost use Rattle.numbers_of_message.specs.Numbers.{field_numbers, maker, after_maker};

use messages::system_exclusive::IdentityReply;

// Puts a reply at the start of the answer: its numbers behind head code and device.
pub fn put_reply(answer: &mut [u64], r: IdentityReply) -> usize
    ensures { Put (field_numbers (maker r.id ++ after_maker r)) answer.old answer.new result }
{
    let mut row: [u64; 11] = [0; 11];
    numbers_of_message::identity::put_reply(&mut row, 0, r);
    numbers_of_message::put::put(answer, &row[2..])
}
