// Bytes in hex, both ways: the bytes that a line's characters say, and the digits that bytes are printed as.
#![tactic(auto)]

ghost use Rattle.std.specs.Prelude.{true, cond, ◌≡◌, ◌*◌, ◌+◌, ◌≤◌, ◌<◌, ltb, length, set, Some, Ok, Err, IfOk};
ghost use Rattle.std.proofs.lemmas.List.Edits.{sets};
ghost use Rattle.refusal.specs.Answer.{counted_in};
ghost use Rattle.wire.specs.Lent.{out_after};
ghost use Rattle.hexes.specs.Hex.{digit_of, some_digit, place_on, number_of, IsPlace, is_hex, bytes_in, said_of, said_after, glyph_of, hex_of, printed_of};
ghost use Rattle.hexes.specs.Words.{words_of};

use refusal::Refusal;
use std::error::Error;
use std::fmt;

/// Why a line's characters say no bytes.
#[derive(Clone, Copy, Debug, PartialEq, Eq)]
pub enum HexError {
    /// A character is wrong, or a byte is half there.
    Wrong,
    /// There are more bytes than the output holds.
    Long,
}

impl fmt::Display for HexError {
    ghost output = { λ e. Some (words_of e) };

    fn fmt<W: fmt::Write>(&self, f: &mut fmt::Formatter<W>) -> fmt::Result {
        f.write_str(match self {
            HexError::Wrong => "a character is wrong, or a byte is half there",
            HexError::Long => "there are more bytes than the output holds",
        })
    }
}

impl Error for HexError {}

// The value of a hex digit, in upper or lower case.
#[tactic(auto, unfolding(crate::specs::Hex::digit_of), using(std::proofs::lemmas::Bool::Decides::nat_tests))]
fn digit(c: u8) -> Option<u8>
    ensures { result ≡ some_digit (digit_of c) }
{
    match c {
        b'0'..=b'9' => Some(c - b'0'),
        b'A'..=b'F' => Some(c - b'A' + 10),
        b'a'..=b'f' => Some(c - b'a' + 10),
        _ => None,
    }
}

// Where a character stands: between bytes, behind the first digit of a byte, which has this value, or behind something wrong.
// That the value is a digit's (`IsPlace`) stays a clause: an enum has no ghost field, and a struct in it would only hold this byte.
#[derive(Clone, Copy)]
enum Place {
    Between,
    Behind(u8),
    Broken,
}

// The place behind one character more.
fn place_on(place: Place, c: u8) -> Place
    requires { IsPlace place }
    ensures number { number_of result ≡ place_on (number_of place) c }
    ensures within { IsPlace result }
{
    match place {
        Place::Between => match digit(c) {
            Some(d) => Place::Behind(d),
            None => if c == b' ' {
                Place::Between
            } else {
                Place::Broken
            },
        },
        Place::Behind(_) => match digit(c) {
            Some(_) => Place::Between,
            None => Place::Broken,
        },
        Place::Broken => Place::Broken,
    }
}

// How many bytes a digit ends at this place.
fn ended(place: Place) -> usize
    requires { IsPlace place }
    ensures count { result ≡ cond (ltb (number_of place) 16) 1 0 }
    ensures within { result ≤ 1 }
{
    match place {
        Place::Behind(_) => 1,
        _ => 0,
    }
}

// How many bytes the characters of s say.
fn measure(s: &[u8]) -> Result<usize, HexError>
    ensures { result ≡ cond (is_hex s.now) (Ok (length (bytes_in s.now))) (Err HexError.Wrong) }
{
    let mut place = Place::Between;
    let mut n: usize = 0;
    for c in s {
        n += ended(place);
        place = place_on(place, *c);
    }
    match place {
        Place::Between => Ok(n),
        _ => Err(HexError::Wrong),
    }
}

// Stores the byte that the digit c ends, if it ends one.
fn put_ended(out: &mut [u8], n: usize, place: Place, c: u8)
    requires is_place { IsPlace place }
    requires place_in_bounds { n + cond (ltb (number_of place) 16) 1 0 ≤ length out.old }
    requires c_bound { cond (ltb (number_of place) 16) (digit_of c) 0 < 16 }
    ensures { out.new ≡ cond (ltb (number_of place) 16) (set out.old n (number_of place * 16 + digit_of c)) out.old }
{
    if let Place::Behind(high) = place
        && let Some(low) = digit(c)
    {
        out[n] = high * 16 + low;
    }
}

// Stores the bytes that the characters of s say, from place 0 on.
fn put_bytes(s: &[u8], out: &mut [u8])
    requires s_value { is_hex s.now ≡ true }
    requires s_in_bounds { length (bytes_in s.now) ≤ length out.old }
    ensures { out.new ≡ sets out.old 0 (bytes_in s.now) }
{
    let mut place = Place::Between;
    let mut n: usize = 0;
    for c in s {
        put_ended(out, n, place, *c);
        n += ended(place);
        place = place_on(place, *c);
    }
}

/// Puts the bytes that the hex digits of s say at the start of out, and answers how many they are. Spaces may stand between bytes.
pub fn bytes_in(s: &[u8], out: &mut [u8]) -> Result<usize, HexError>
    ensures said { result ≡ said_of s.now (length out.old) }
    ensures output { out.new ≡ said_after result (bytes_in s.now) out.old }
    ensures within { IfOk result (λ n. n ≤ length out.new) }
{
    let n = measure(s)?;
    if out.len() < n {
        return Err(HexError::Long);
    }
    put_bytes(s, out);
    Ok(n)
}

#[tactic(auto, unfolding(crate::specs::Hex::glyph_of), using(std::proofs::lemmas::Bool::Decides::nat_tests))]
fn glyph(d: u8) -> u8
    requires { d < 16 }
    ensures { result ≡ glyph_of d }
{
    if d < 10 { b'0' + d } else { b'a' + (d - 10) }
}

// Stores the digits of the bytes of s, from place 0 on.
fn put_digits(s: &[u8], out: &mut [u8])
    requires { 2 * length s.now ≤ length out.old }
    ensures { out.new ≡ sets out.old 0 (hex_of s.now) }
{
    for (i, b) in s.iter().enumerate() {
        out[2 * i] = glyph(*b / 16);
        out[2 * i + 1] = glyph(*b % 16);
    }
}

/// Puts the hex digits of s, two a byte and in lower case, at the start of out, and answers how many they are.
pub fn hex_of(s: &[u8], out: &mut [u8]) -> Result<usize, Refusal>
    ensures number { counted_in result ≡ printed_of (length s.now) (length out.old) }
    ensures output { out.new ≡ out_after (counted_in result) (hex_of s.now) out.old }
    ensures within { IfOk result (λ n. n ≤ length out.new) }
{
    let n = s.len();
    if out.len() / 2 < n {
        return Err(Refusal::ShortOutput);
    }
    put_digits(s, out);
    Ok(2 * n)
}
