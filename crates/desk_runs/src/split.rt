// A line as words, each ended by a 0.
use arrayvec::ArrayVec;

// The bytes of the words of a line.
pub type Words = ArrayVec<u8, 4096>;

// Puts a byte behind the words that are there, where there is room.
fn put(words: &mut Words, b: u8) {
    let _ = words.try_push(b);
}

// Puts the words of a line: a space ends one, but between double quotes. They go to words that the caller has: handed back, they were copied for each line.
pub fn split(line: &[u8], words: &mut Words) {
    let mut is_word = false;
    let mut is_quoted = false;
    for b in line {
        if *b == b'"' {
            is_word = true;
            is_quoted = !is_quoted;
        } else if *b != b' ' || is_quoted {
            is_word = true;
            put(words, *b);
        } else if is_word {
            is_word = false;
            put(words, 0);
        }
    }
    if is_word {
        put(words, 0);
    }
}
