// Scale tuning dumps of two bytes, written from their fields.
// Kept as an output and a place in it, and as fields in wire order, as the public function has them.
ghost use Rattle.std.specs.Prelude.{◌≡◌, true, ◌∷◌, [], ◌++◌, ◌≤◌, length};
ghost use Rattle.util.specs.Splice.{overwritten};
ghost use Rattle.messages.specs.format.Core.{written};
ghost use Rattle.messages.specs.Fields.{name_of_16};
ghost use Rattle.messages.specs.Structures.{scale_2};
ghost use Rattle.messages.specs.Messages.{write_of};
ghost use Rattle.write_fronts.specs.Fronts.{start_2};
ghost use Rattle.writer.specs.Write.{written_at, output_after};
ghost use Rattle.writer.specs.Frames.{wire};
ghost use Rattle.numbers_write.specs.Messages.{scale_message};

use messages::system_exclusive::DeviceID;
use util::refusal::Refusal;
use writer::has_room;

// Writes the frame of a scale tuning dump of two bytes at a place of the output.
pub fn write_scale_dump_2(
    device: DeviceID,
    bank: u8,
    program: u8,
    s: [i16; 12],
    text: &[u8],
    out: &mut [u8],
    place: usize,
) -> Result<usize, Refusal>
    ensures { (result ≡ written_at (write_of (scale_message device bank program s text.now)) (length out.old) place)
        × (out.new ≡ output_after (write_of (scale_message device bank program s text.now)) out.old place) }
{
    if !util::bytes::is_seven(text) {
        return Err(Refusal::High);
    }
    if !has_room(out.len(), place, 49) {
        return Err(Refusal::Space);
    }
    let d = u8::from(device) as u64;
    put_scale_dump_2(&mut out[place..], d, bank, program, s, text);
    Ok(49)
}

// Writes the frame of a scale tuning dump of two bytes.
fn put_scale_dump_2(out: &mut [u8], d: u64, bank: u8, program: u8, s: [i16; 12], text: &[u8])
    requires { 49 ≤ length out.old }
    ensures { out.new ≡ overwritten (wire true (start_2 d 0x08 0x06 ((1, bank) ∷ (1, program) ∷ []) ++ (written name_of_16 text.now ++ written scale_2 s))) out.old }
{
    out[0] = 0xF0;
    write_fronts::tuning::put_bank_program(&mut out[1..], d, 6, bank, program);
    write_lists::part::put_scale_dump_2(&mut out[7..], text, s);
    let x = util::checksum::checksum(&out[1..47]);
    out[47] = x;
    out[48] = 0xF7;
}
