// Reads the fields of file references: open, select, open and select, close.
// The clause `Seven f.now` of a contract hands the invariant of `Fields` on to the proofs of the callers.
#![tactic(auto)]

ghost use Rattle.std.specs.Prelude.{◌≡◌, ◌+◌, ◌≤◌, length, drop};
ghost use Rattle.util.specs.Groups.{Seven};
ghost use Rattle.messages.specs.declared.head.Head.TheVariants as head;
ghost use Rattle.messages.specs.Maps.{bank_only, wav_only, select_for};
ghost use Rattle.read_places.specs.Places.{value_at};
ghost use Rattle.read_places.specs.Found.{Reads};
ghost use Rattle.read_file_reference.specs.Picked.{Picks};
ghost use Rattle.read_file_reference.specs.Files.{Names};

use crate::maps::Picked;
pub use crate::maps::put_maps;
use messages::file_reference::{FileReferenceMsg, FileReferenceType};
use messages::system_exclusive::UniversalNonRealTimeMsg;
use read_places::Found;
use read_places::fields::Fields;
use util::groups::u14_at;

mod maps;
mod texts;

// 0B 04 close.
pub fn close(f: &Fields) -> Option<Found>
    ensures { Reads head.FileReferenceClose result f.now }
{
    if f.len() != 4 {
        return None;
    }
    if f.at(2) != 0 {
        return None;
    }
    if f.at(3) != 0 {
        return None;
    }
    let m = UniversalNonRealTimeMsg::FileReference(FileReferenceMsg::Close { ctx: f.u14_at(0) });
    Some(Found::numbers(m))
}

// The file that 0B 01 and 0B 03 name: its type at 4, and how many bytes its URL from 8 on has.
fn file_of(f: &Fields) -> Option<(FileReferenceType, usize)>
    ensures { Seven f.now × Names result f.now }
{
    if f.len() < 9 {
        return None;
    }
    let file_type = texts::type_at(f, 4)?;
    let url = texts::url_length(f, 8)?;
    Some((file_type, url))
}

// 0B 01 open: the URL ends the fields, and their length counts it.
pub fn open(f: &Fields) -> Option<Found>
    ensures { Reads head.FileReferenceOpen result f.now }
{
    let (file_type, url) = file_of(f)?;
    if f.len() != 9 + url {
        return None;
    }
    if said(f) != 5 + url {
        return None;
    }
    Some(Found {
        m: UniversalNonRealTimeMsg::FileReference(FileReferenceMsg::Open {
            ctx: f.u14_at(0),
            file_type,
        }),
        from: 8,
        len: url,
        at: 0,
        count: 0,
    })
}

// The length that the fields say.
fn said(f: &Fields) -> usize
    ensures { Seven f.now × (result ≡ value_at 2 f.now 2) }
{
    u14_at(f.bytes, 2) as usize
}

// Kept as a pair: each select has a head of its own, which its clause names, and what they share is `select_of`.

// 0B 02 select, of a bank file.
pub fn select_bank(f: &Fields) -> Option<Found>
    ensures { Reads head.SelectSoundFile result f.now }
{
    if f.len() < 4 {
        return None;
    }
    select_of(f, maps::bank_map_at(f, 4))
}

// 0B 02 select, of a WAV file.
pub fn select_wav(f: &Fields) -> Option<Found>
    ensures { Reads head.SelectWAV result f.now }
{
    if f.len() < 4 {
        return None;
    }
    select_of(f, maps::wav_map_at(f, 4))
}

// The select whose map was found, if the length counts it.
fn select_of(f: &Fields, found: Option<Picked>) -> Option<Found>
    requires { 4 ≤ length f.now }
    ensures { (Picks bank_only found f.now 4 → Reads head.SelectSoundFile result f.now) × (Picks wav_only found f.now 4 → Reads head.SelectWAV result f.now) }
{
    let length = said(f);
    let picked = found?;
    if length != picked.length {
        return None;
    }
    Some(Found {
        m: UniversalNonRealTimeMsg::FileReference(FileReferenceMsg::SelectContents {
            ctx: f.u14_at(0),
            map: picked.map,
        }),
        from: 0,
        len: 0,
        at: picked.at,
        count: picked.count,
    })
}

// 0B 03 open and select: the map follows the URL, and the type names its kind.
pub fn open_select(f: &Fields) -> Option<Found>
    ensures { Reads head.FileReferenceOpenSelect result f.now }
{
    let (file_type, url) = file_of(f)?;
    let picked = map_for(f, file_type, 9 + url)?;
    if said(f) != 5 + url + picked.length {
        return None;
    }
    Some(Found {
        m: UniversalNonRealTimeMsg::FileReference(FileReferenceMsg::OpenSelectContents {
            ctx: f.u14_at(0),
            file_type,
            map: picked.map,
        }),
        from: 8,
        len: url,
        at: picked.at,
        count: picked.count,
    })
}

// What is selected of a file of a type, from i to the end.
fn map_for(f: &Fields, t: FileReferenceType, i: usize) -> Option<Picked>
    requires { i ≤ length f.now }
    ensures { Picks (select_for t) result f.now i }
{
    match t {
        FileReferenceType::DLS => maps::bank_map_at(f, i),
        FileReferenceType::SF2 => maps::bank_map_at(f, i),
        FileReferenceType::WAV => maps::wav_map_at(f, i),
    }
}
