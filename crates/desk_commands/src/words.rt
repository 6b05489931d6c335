// The words of a command: bytes, each word ended by a 0.
ghost use Rattle.std.specs.Prelude.{◌≡◌, ◌+◌, ◌≤◌, eqb, not, length, drop};
ghost use Rattle.std.specs.List.{prefix_len};
ghost use Rattle.desk_commands.specs.Words.{word_count, first_length, start_at, word_at};

// How many words there are.
pub fn count(words: &[u8]) -> usize
    ensures { result ≡ word_count words.now }
{
    words.iter().filter(|b| **b == 0).count()
}

// Where the word of a number begins, the first of which has the number 0; the end where there is none.
pub fn start_of(words: &[u8], number: usize) -> usize
    ensures { (result ≤ length words.now) × (result ≡ start_at words.now number) }
{
    let mut left = number;
    for (i, b) in words.iter().enumerate() {
        if left == 0 {
            return i;
        }
        if *b == 0 {
            left -= 1;
        }
    }
    words.len()
}

// How many bytes of a slice stand before its first 0.
fn before_end(s: &[u8]) -> usize
    ensures counted { result ≡ prefix_len (λ b. not (eqb b 0)) s.now }
    ensures within { result ≤ length s.now }
{
    s.iter().take_while(|b| **b != 0).count()
}

// Where the word that begins at a place ends.
pub fn end_of(words: &[u8], start: usize) -> usize
    requires { start ≤ length words.now }
    ensures { (start ≤ result) × (result ≤ length words.now) × (result ≡ start + first_length (drop start words.now)) }
{
    start + before_end(&words[start..])
}

// The word of a number; nothing where there is none.
#[tactic(auto, using(crate::proofs::Laws::Words::word_part))]
pub fn word(words: &[u8], number: usize) -> &[u8]
    ensures { result.now ≡ word_at words.now number }
{
    let start = start_of(words, number);
    let end = end_of(words, start);
    &words[start..end]
}
