#![tactic(auto)]

ghost use Rattle.std.specs.Prelude.{◌≡◌, ◌<◌, ◌≤◌, ◌*◌, ◌^◌, min, length, take, ltb};
ghost use Rattle.wire.specs.Number.{number_of, bytes_of};
ghost use Rattle.wire.specs.Lent.{copied};
ghost use Rattle.wire.specs.Twos.{half_of, signed_of, unsigned_of};

// The most bytes that a text may have.
pub const LONGEST: usize = 32_000;

// The number that at most eight bytes stand for, high byte first.
fn number_of_few(s: &[u8]) -> u64
    requires { length s.now ≤ 8 }
    ensures { (result ≡ number_of s.now) × (result < 256 ^ length s.now) }
{
    let mut n: u64 = 0;
    for byte in s {
        n = n * 256 + u64::from(*byte);
    }
    n
}

// The number that the bytes of s stand for, high byte first; of more than eight bytes the first eight count.
pub fn number(s: &[u8]) -> u64
    ensures { (result ≡ number_of (take 8 s.now)) × (result < 256 ^ length s.now) }
{
    number_of_few(&s[..s.len().min(8)])
}

// Fills s with the last bytes of n, high byte first; 00 where n has no more.
pub fn put(s: &mut [u8], n: u64)
    ensures { s.new ≡ bytes_of (length s.old) n }
{
    let mut left = n;
    for i in (0..s.len()).rev() {
        s[i] = (left % 256) as u8;
        left /= 256;
    }
}

// Copies src over dst, as far as dst goes.
pub fn copy(dst: &mut [u8], src: &[u8])
    ensures { dst.new ≡ copied dst.old src.now }
{
    let n = dst.len().min(src.len());
    dst[..n].copy_from_slice(&src[..n]);
}

// The widths of a number on the wire, in bytes.
#[derive(Clone, Copy, Debug, PartialEq, Eq)]
pub enum Width {
    One,
    Two,
    Four,
    Eight,
}

// Half of the numbers that a width holds.
fn half_of(w: Width) -> u64
    ensures { result ≡ half_of w }
{
    match w {
        Width::One => 0x80,
        Width::Two => 0x8000,
        Width::Four => 0x8000_0000,
        Width::Eight => 0x8000_0000_0000_0000,
    }
}

// Whether a width holds n.
pub fn holds(w: Width, n: u64) -> bool
    ensures { result ≡ ltb n (2 * half_of w) }
{
    n / half_of(w) < 2
}

// The signed number that n stands for in two's complement; of a wider n the last bytes count.
pub fn signed(w: Width, n: u64) -> i64
    ensures { result ≡ signed_of w n }
{
    let half = half_of(w);
    let low = n % half;
    if n / half % 2 == 0 {
        low as i64
    } else {
        !((half - 1 - low) as i64)
    }
}

// The number that stands for x in two's complement, if the width has one.
pub fn unsigned(w: Width, x: i64) -> Option<u64>
    ensures { result ≡ unsigned_of w x }
{
    let half = half_of(w);
    if x >= 0 {
        let n = x as u64;
        if n < half { Some(n) } else { None }
    } else {
        let m = (!x) as u64;
        if m < half {
            Some(half + (half - 1 - m))
        } else {
            None
        }
    }
}
