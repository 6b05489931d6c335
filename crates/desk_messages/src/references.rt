// File references in words.
// Kept as two parameters, an output and a style, as in the whole crate: texts take the output alone.
use super::words::Words;
use super::{Beside, lists, words};
use desk_print::fields;
use desk_print::fields::Style;
use desk_print::output::Output;
use messages::file_reference::{FileReferenceMsg, FileReferenceType, SelectMap, WAVMap};

// The map of a WAV file.
fn wav_map(out: &mut Output, style: Style, m: WAVMap) {
    fields::named(out, style, b"to bank", m.dst_bank as u64);
    fields::named(out, style, b"program", m.dst_prog as u64);
    fields::detail(out, style, b"base key", m.base as u64);
    fields::detail(out, style, b"lowest key", m.lokey as u64);
    fields::detail(out, style, b"highest key", m.hikey as u64);
    lists::fine(out, style, m.fine);
    fields::detail(out, style, b"volume", m.volume as u64);
}

// An offset of banks.
fn bank_offset(out: &mut Output, style: Style, offset: u16, is_drum: bool) {
    fields::named(out, style, b"bank offset", offset as u64);
    fields::flag(out, style, b"source is drums", is_drum);
}

// The map of a select.
fn select_map(out: &mut Output, style: Style, m: SelectMap, places: usize) {
    match m {
        SelectMap::SoundFile => fields::counted(out, style, b"maps", places as u64, b"map"),
        SelectMap::WAV(map) => wav_map(out, style, map),
        SelectMap::SoundFileBankOffset {
            bank_offset: offset,
            src_drum,
        } => bank_offset(out, style, offset, src_drum),
        SelectMap::WAVBankOffset {
            map,
            bank_offset: offset,
            src_drum,
        } => {
            wav_map(out, style, map);
            bank_offset(out, style, offset, src_drum);
        }
    }
}

// A context, and the file that is opened in it.
fn opened(
    out: &mut Output,
    style: Style,
    title: &[u8],
    ctx: u16,
    t: FileReferenceType,
    url: &[u8],
) {
    fields::title(out, style, title);
    fields::named(out, style, b"context", ctx as u64);
    words::field(out, style, b"type", t.words());
    fields::name(out, style, b"URL", url);
}

// A file reference in words.
pub fn reference(out: &mut Output, style: Style, m: FileReferenceMsg, beside: Beside) {
    match m {
        FileReferenceMsg::Open { ctx, file_type } => opened(
            out,
            style,
            b"sound file open",
            ctx,
            file_type,
            beside.text,
        ),
        FileReferenceMsg::SelectContents { ctx, map } => {
            fields::title(out, style, b"sound file select");
            fields::named(out, style, b"context", ctx as u64);
            select_map(out, style, map, beside.places);
        }
        FileReferenceMsg::OpenSelectContents {
            ctx,
            file_type,
            map,
        } => {
            opened(
                out,
                style,
                b"sound file open and select",
                ctx,
                file_type,
                beside.text,
            );
            select_map(out, style, map, beside.places);
        }
        FileReferenceMsg::Close { ctx } => {
            fields::title(out, style, b"sound file close");
            fields::named(out, style, b"context", ctx as u64);
        }
    }
}
