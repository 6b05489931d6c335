// The cases of a file: each part of one is a part of the file's bytes.
ghost use Rattle.std.specs.Prelude.{◌^◌, ◌<◌, IfSome, length};
ghost use Rattle.replay_vectors.specs.Parts.{NumbersIn, TextIn, CaseIn};

// What a case asks, and its answer: a refusal number, a value, and the out parts.
#[derive(Clone, Copy)]
pub struct Case<'a> {
    pub op: u8,
    pub numbers: &'a [[u8; 8]],
    pub text: &'a [u8],
    pub entries: &'a [[u8; 8]],
    pub refusal: u8,
    pub value: u64,
    pub out_numbers: &'a [[u8; 8]],
    pub bytes: &'a [u8],
    pub out_entries: &'a [[u8; 8]],
}

// So many numbers of eight bytes, and what is behind them.
fn numbers_of(s: &[u8], count: usize) -> Option<(&[[u8; 8]], &[u8])>
    requires { count < 2 ^ 32 }
    ensures { IfSome result (λ p. NumbersIn p.0.now s.now p.1.now) }
{
    let (part, rest) = s.split_at_checked(8 * count)?;
    Some((part.as_chunks().0, rest))
}

// The bytes behind a count of four bytes, and what is behind them.
fn text_of(s: &[u8]) -> Option<(&[u8], &[u8])>
    ensures { IfSome result (λ p. TextIn p.0.now s.now p.1.now) }
{
    let (count, rest) = s.split_first_chunk()?;
    rest.split_at_checked(u32::from_le_bytes(*count) as usize)
}

// The case at the front of a slice, and what is behind it; none where the slice ends before the end of the case.
pub fn read(s: &[u8]) -> Option<(Case, &[u8])>
    ensures parts { IfSome result (λ p. CaseIn p.0 s.now p.1.now) }
    ensures shorter { IfSome result (λ p. length p.1.now < length s.now) }
{
    let (op, rest) = s.split_first()?;
    let (count, rest) = rest.split_first()?;
    let (numbers, rest) = numbers_of(rest, *count as usize)?;
    let (text, rest) = text_of(rest)?;
    let (count, rest) = rest.split_first_chunk()?;
    let (entries, rest) = numbers_of(rest, u16::from_le_bytes(*count) as usize)?;
    let (refusal, rest) = rest.split_first()?;
    let (value, rest) = rest.split_first_chunk()?;
    let (count, rest) = rest.split_first()?;
    let (out_numbers, rest) = numbers_of(rest, *count as usize)?;
    let (bytes, rest) = text_of(rest)?;
    let (count, rest) = rest.split_first_chunk()?;
    let (out_entries, rest) = numbers_of(rest, u32::from_le_bytes(*count) as usize)?;
    Some((
        Case {
            op: *op,
            numbers,
            text,
            entries,
            refusal: *refusal,
            value: u64::from_le_bytes(*value),
            out_numbers,
            bytes,
            out_entries,
        },
        rest,
    ))
}
