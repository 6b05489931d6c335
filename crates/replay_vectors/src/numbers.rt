// Lists of numbers of eight bytes each, the low byte first.
ghost use Rattle.std.specs.Prelude.{◌≡◌, ℕ, ◌<◌, ◌≤◌, length, get_or, take, map, []};
ghost use Rattle.replay_vectors.specs.Little.{little8};
ghost use Rattle.replay_vectors.specs.Verdicts.{number_at};

// The number of a place that was lent, before a call.
pub const BEFORE: u64 = 4294967295;

// The number of eight bytes.
pub fn number(bytes: &[u8; 8]) -> u64
    ensures { result ≡ little8 bytes.now 0 }
{
    u64::from_le_bytes(*bytes)
}

// Number i of a list; past its end that of a place that was lent, before a call.
pub fn number_at(list: &[[u8; 8]], i: usize) -> u64
    ensures { result ≡ number_at list.now i }
{
    list.get(i).map_or(BEFORE, number)
}

// Reads as many numbers of a list as the output has places.
pub fn read(list: &[[u8; 8]], out: &mut [u64])
    requires { length out.old ≤ length list.now }
    ensures each { (k : ℕ) → k < length out.old → get_or out.new k 0 ≡ little8 (get_or list.now k []) 0 }
    ensures all { out.new ≡ map (λ b. little8 b 0) (take (length out.old) list.now) }
{
    for (i, place) in out.iter_mut().enumerate() {
        *place = number(&list[i]);
    }
}

// Whether lent numbers begin with those of a list, and behind them are as they were.
pub fn are_left<T: Copy + Into<u64>>(lent: &[T], list: &[[u8; 8]]) -> bool {
    list.len() <= lent.len()
        && lent
            .iter()
            .enumerate()
            .all(|(i, x)| (*x).into() == number_at(list, i))
}
