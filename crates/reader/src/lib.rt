// Reads a frame: what it is, without writing; then its file data and entries into lent space.
#![tactic(auto)]

pub mod lent;
pub mod opening;
mod test;

ghost use Rattle.std.specs.Prelude.{◌≡◌, get_or, Ok};
ghost use Rattle.std.proofs.Math.Option.{some};
ghost use Rattle.messages.specs.Messages.{read_of, inside};
ghost use Rattle.messages.specs.Walk.{is_frame};
ghost use Rattle.reader.specs.Opening.{inner, opens_as, placed, Opens};
ghost use Rattle.reader.specs.Reading.{Tells, ReadMet};

use lent::Reading;
use messages::file_reference::Kind;
use messages::system_exclusive::DeviceID;
use opening::Opening;
use read_places::fields::Fields;
use util::groups::at;
use util::refusal::Refusal;

// Kept as two, a frame and a kind: the public functions take them so, and a struct of both would be taken apart in each.

// The opening of a frame of the right shape, for a kind of sound file.
fn opening_shaped(frame: &[u8], kind: Kind) -> Result<Opening, Refusal>
    requires { inside frame.now ≡ some (inner frame.now) }
    ensures { Opens result (inner frame.now) (read_of kind frame.now) }
{
    let e = frame.len() - 1;
    opening::opening_of(&frame[1..e], kind)
}

// The opening of a frame, for a kind of sound file.
pub fn opening_in(frame: &[u8], kind: Kind) -> Result<Opening, Refusal>
    ensures { Opens result (inner frame.now) (read_of kind frame.now) }
{
    if frame.len() < 6 {
        return Err(Refusal::Shape);
    }
    let e = frame.len() - 1;
    if frame[0] != 0xF0 {
        return Err(Refusal::Shape);
    }
    if frame[e] != 0xF7 {
        return Err(Refusal::Shape);
    }
    if util::bytes::is_seven(&frame[1..e]) {
        opening_shaped(frame, kind)
    } else {
        Err(Refusal::Shape)
    }
}

// What the fields of a frame say where its opening has them.
// Kept beside `lent::read_fields`: a reading that the one hands to the other is copied, which takes most of the time of a short frame (docs/SPEED.md).
fn examine_fields(frame: &[u8], o: Opening) -> Result<Reading, Refusal>
    requires { placed (Ok o) (inner frame.now) }
    ensures { Tells result (opens_as (Ok o) (inner frame.now)) frame.now }
{
    let start = 1 + o.start;
    let e = 1 + o.end;
    let bytes = &frame[start..e];
    let f = Fields { bytes };
    match read_heads::fields_of(o.h, &f) {
        Some(found) => {
            if o.sum {
                Ok(Reading {
                    device: DeviceID::from(at(frame, 2)),
                    m: found.m,
                    from: lent::text_start(frame, start, found.from),
                    len: found.len,
                    places: found.count,
                })
            } else {
                Err(Refusal::Sum)
            }
        }
        None => Err(Refusal::Field),
    }
}

// What reading a frame for a kind of sound file would answer with as many lent places as it takes; nothing is written.
pub fn examine(frame: &[u8], kind: Kind) -> Result<Reading, Refusal>
    ensures { Tells result (read_of kind frame.now) frame.now }
{
    let o = opening_in(frame, kind)?;
    examine_fields(frame, o)
}

// Whether a stretch of the right shape, 7E after its F0, is a frame for a kind of sound file.
pub fn is_frame_shaped(stretch: &[u8], kind: Kind) -> bool
    requires { (inside stretch.now ≡ some (inner stretch.now)) × (get_or stretch.now 1 0 ≡ 0x7E) }
    ensures { result ≡ is_frame kind stretch.now }
{
    let e = stretch.len() - 1;
    test::is_body(&stretch[1..e], kind)
}

// Whether a stretch is a frame for a kind of sound file.
pub fn is_frame(stretch: &[u8], kind: Kind) -> bool
    ensures { result ≡ is_frame kind stretch.now }
{
    examine(stretch, kind).is_ok()
}

// Reads a frame for a kind of sound file, its file data and entries into lent places.
pub fn read(
    frame: &[u8],
    kind: Kind,
    data: &mut [u8],
    entries: &mut [u64],
) -> Result<Reading, Refusal>
    ensures { ReadMet result (read_of kind frame.now) frame.now «data».old «data».new entries.old entries.new }
{
    let o = opening_in(frame, kind)?;
    lent::read_fields(frame, o, data, entries)
}
