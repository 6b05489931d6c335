// The walk, its answer in numbers.
// Kept as a kind and an index side by side: C has them so.
ghost use Rattle.std.specs.Prelude.{◌≡◌, Err};
ghost use Rattle.walk.specs.Answer.{walked_number, walked_value, answer, after};

use messages::file_reference::Kind;
use util::refusal::Refusal;
use walk::WalkError;

// How many frames there are under an error.
fn frames_under(e: WalkError) -> u64
    ensures { result ≡ walked_value (Err e) }
{
    match e {
        WalkError::Stream => 0,
        WalkError::Index(n) => n as u64,
    }
}

// Lists the frames of a stream in an index; the value is the number of frames. Kept as numbers: C gets them.
pub fn walk_for(stream: &[u8], kind: Kind, index: &mut [u32], value: &mut u64) -> u32
    ensures number { result ≡ walked_number (answer kind stream.now index.old) }
    ensures value { value.new ≡ walked_value (answer kind stream.now index.old) }
    ensures output { index.new ≡ after kind stream.now index.old }
{
    match walk::walk(stream, kind, index) {
        Ok(n) => {
            *value = n as u64;
            0
        }
        Err(e) => {
            *value = frames_under(e);
            u32::from(Refusal::from(e).number())
        }
    }
}
