// The type of a file dump.
ghost use Rattle.std.specs.Prelude.{◌≡◌};
ghost use Rattle.read_file_dump.specs.Places.{type_at};

use messages::file_dump::FileType;
use util::groups::u7_at;

// The type whose four letters stand at 1.
pub fn type_at(f: &[u8]) -> FileType
    ensures { result ≡ type_at f.now 1 }
{
    FileType::from([u7_at(f, 1), u7_at(f, 2), u7_at(f, 3), u7_at(f, 4)])
}
