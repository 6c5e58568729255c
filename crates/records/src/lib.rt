// The fields of a record, the lines of an input, and room for both.
#![tactic(auto)]

ghost use Rattle.std.specs.Prelude.{◌≡◌, ◌≤◌, ◌<◌, ◌^◌, min, length, take, drop};
ghost use Rattle.std.proofs.lemmas.List.Edits.{sets};
ghost use Rattle.wire.specs.Search.{first_at};
ghost use Rattle.records.specs.Fields.{field_of, words_in, ten_in, ends, line_end};

// ---- fields

// So many bytes from a place on, as far as there are.
fn part(s: &[u8], at: usize, size: usize) -> &[u8]
    ensures bytes { result.now ≡ take size (drop at s.now) }
    ensures most { length result.now ≤ size }
{
    let rest = s.get(at..).unwrap_or(&[]);
    &rest[..size.min(rest.len())]
}

/// The number of `SIZE` bytes from a place on, high byte first, as far as there are; of more than eight bytes the first eight count.
pub fn field_at<const SIZE: usize>(s: &[u8], at: usize) -> u64
    ensures number { result ≡ field_of (min 8 SIZE) s.now at }
    ensures fits { result < 256 ^ SIZE }
{
    wire::number(part(s, at, SIZE))
}

/// The first ten bytes, 00 where there are fewer.
pub fn ten_in(s: &[u8]) -> [u8; 10]
    ensures { result ≡ ten_in s.now }
{
    let mut ten = [0u8; 10];
    wire::copy(&mut ten, s);
    ten
}

/// Puts the numbers of four bytes each that s has at the start of out, as far as there is room for them.
pub fn words_in(s: &[u8], out: &mut [u32])
    ensures { out.new ≡ sets out.old 0 (words_in s.now) }
{
    for i in 0..out.len().min(s.len() / 4) {
        out[i] = field_at::<4>(s, 4 * i) as u32;
    }
}

// ---- lines

// The place of the first line end, or the end of the bytes.
fn first_end(s: &[u8]) -> usize
    ensures place { result ≡ first_at ends s.now }
    ensures within { result ≤ length s.now }
{
    match s.iter().position(|c| *c == b'\n') {
        Some(n) => n,
        None => s.len(),
    }
}

/// The place of the first line end from a place on, or the end of the bytes.
pub fn line_end(s: &[u8], at: usize) -> usize
    ensures found { result ≡ line_end s.now at }
    ensures low { at ≤ length s.now → at ≤ result }
    ensures high { result ≤ length s.now }
{
    let from = at.min(s.len());
    from + first_end(&s[from..])
}

// ---- room, two sizes of `[byte; N]`

/// Zeros for all lines that a program takes, for the bytes that they say, and for the digits of those.
pub fn room() -> [u8; 1048576]
    ensures { (result ≡ Rattle.records.specs.Fields.room) × (1048576 ≡ length result) }
{
    [0; 1048576]
}

/// An output to write into, EE throughout.
pub fn blank() -> [u8; 65536]
    ensures { (result ≡ Rattle.records.specs.Fields.blank) × (65536 ≡ length result) }
{
    [0xEE; 65536]
}
