// Stretches of bytes, by the byte that ends them.
ghost use Rattle.std.specs.Prelude.{◌≡◌, Bool, ℕ, ◌≤◌, IsTrue, length};
ghost use Rattle.desk_text.specs.Spans.{is_line_end, is_blank, is_point, is_digit, span};

// Whether a byte ends a line.
#[tactic(auto, unfolding(crate::specs::Spans::is_line_end))]
pub fn is_line_end(b: u8) -> bool
    ensures { result ≡ is_line_end b }
{
    b == b'\n' || b == b'\r'
}

// Whether a byte parts words.
#[tactic(auto, unfolding(crate::specs::Spans::is_blank))]
pub fn is_blank(b: u8) -> bool
    ensures { result ≡ is_blank b }
{
    b == b' ' || b == b'\t' || is_line_end(b)
}

// Whether a byte stands before decimals.
#[tactic(auto, unfolding(crate::specs::Spans::is_point))]
pub fn is_point(b: u8) -> bool
    ensures { result ≡ is_point b }
{
    b == b'.' || b == b','
}

// Whether a byte is a digit.
#[tactic(auto, unfolding(crate::specs::Spans::is_digit))]
pub fn is_digit(b: u8) -> bool
    ensures value { result ≡ is_digit b }
    ensures range { IsTrue result → (48 ≤ b) × (b ≤ 57) }
{
    b'0' <= b && b <= b'9'
}

// How many leading bytes do not pass a test.
pub fn span_of<F: Fn(u8) -> bool>(s: &[u8], is_stop: F) -> usize
    requires { F.IsAlwaysCallable is_stop }
    ensures bound { result ≤ length s.now }
    ensures value { (p : ℕ → Bool) → ((b : ℕ) (r : Bool) → F.post is_stop b r → r ≡ p b) → result ≡ span p s.now }
{
    s.iter().position(|b| is_stop(*b)).unwrap_or(s.len())
}
