// File references.
// Kept as two parameters, an output and the number of a device: a struct of both would be made for each message.
ghost use Rattle.std.specs.Prelude.{◌≡◌, ◌∷◌};
ghost use Rattle.numbers_of_message.specs.Put.{Put};
ghost use Rattle.numbers_of_message.specs.Numbers.{numbers, field_numbers, wav, of_select, of_reference};

use crate::put::{put, put_both};
use crate::values::{reference_number, signed_16};
use messages::file_reference::{FileReferenceMsg, FileReferenceType, SelectMap, WAVMap};

// The ten numbers of a map with a WAV map.
fn wav_map(form: u64, offset: u64, drum: u64, m: WAVMap) -> [u64; 10]
    ensures { result ≡ form ∷ offset ∷ drum ∷ field_numbers (wav m) }
{
    [
        form,
        offset,
        drum,
        m.dst_bank as u64,
        m.dst_prog as u64,
        m.base as u64,
        m.lokey as u64,
        m.hikey as u64,
        signed_16(m.fine),
        m.volume as u64,
    ]
}

// The ten numbers of a map.
fn select_map(m: SelectMap) -> [u64; 10]
    ensures { result ≡ field_numbers (of_select m) }
{
    match m {
        SelectMap::SoundFile => [0, 0, 0, 0, 0, 0, 0, 0, 0, 0],
        SelectMap::WAV(w) => wav_map(2, 0, 0, w),
        SelectMap::SoundFileBankOffset {
            bank_offset,
            src_drum,
        } => {
            let f = u64::from(src_drum);
            [1, bank_offset as u64, f, 0, 0, 0, 0, 0, 0, 0]
        }
        SelectMap::WAVBankOffset {
            map,
            bank_offset,
            src_drum,
        } => {
            let f = u64::from(src_drum);
            wav_map(3, bank_offset as u64, f, map)
        }
    }
}

// Puts a select.
fn put_select(out: &mut [u64], d: u64, ctx: u16, m: SelectMap) -> usize
    ensures { Put (numbers d (of_reference (FileReferenceMsg.SelectContents ctx m))) out.old out.new result }
{
    let head = [0x0B02, d, ctx as u64];
    let v = select_map(m);
    put_both(out, &head, &v)
}

// Puts an open with a select.
fn put_open_select(
    out: &mut [u64],
    d: u64,
    ctx: u16,
    file_type: FileReferenceType,
    m: SelectMap,
) -> usize
    ensures { Put (numbers d (of_reference (FileReferenceMsg.OpenSelectContents ctx file_type m))) out.old out.new result }
{
    let t = reference_number(file_type);
    let head = [0x0B03, d, ctx as u64, t];
    let v = select_map(m);
    put_both(out, &head, &v)
}

// Puts a file reference message.
pub fn put_message(out: &mut [u64], d: u64, m: FileReferenceMsg) -> usize
    ensures { Put (numbers d (of_reference m)) out.old out.new result }
{
    match m {
        FileReferenceMsg::Open { ctx, file_type } => {
            let t = reference_number(file_type);
            put(out, &[0x0B01, d, ctx as u64, t])
        }
        FileReferenceMsg::SelectContents { ctx, map } => put_select(out, d, ctx, map),
        FileReferenceMsg::OpenSelectContents {
            ctx,
            file_type,
            map,
        } => put_open_select(out, d, ctx, file_type, map),
        FileReferenceMsg::Close { ctx } => put(out, &[0x0B04, d, ctx as u64]),
    }
}
