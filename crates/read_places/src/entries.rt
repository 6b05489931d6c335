// Entries of a list, put into lent places.
ghost use Rattle.std.specs.Prelude.{◌≡◌, ℕ, ◌<◌, ◌≤◌, length, slice_index};

// Kept with n beside the places: lent places may be more than the entries, and those behind them stay, which the contract tells.
// Puts n entries, which `entry` gives of their places in the list, into the front of lent places.
pub fn put_each<E: Fn(usize) -> u64>(out: &mut [u64], n: usize, entry: E)
    requires room { n ≤ length out.old }
    requires callable { (i : ℕ) → i < n → E.pre entry i }
    ensures long { length out.new ≡ length out.old }
    ensures put { (i : ℕ) → i < n → E.post entry i (slice_index out.new i) }
    ensures rest { (i : ℕ) → n ≤ i → slice_index out.new i ≡ slice_index out.old i }
{
    for (i, place) in out[..n].iter_mut().enumerate() {
        *place = entry(i);
    }
}
