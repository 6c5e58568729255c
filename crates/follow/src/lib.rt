// What may still follow in a good or a lean text: the tests that tell whether anything may.
#![tactic(auto)]

ghost use Rattle.std.specs.Prelude.{◌≡◌, ◌+◌, ◌*◌, ◌/◌, ◌^◌, leb};
ghost use Rattle.levels.specs.Levels.{stack};
ghost use Rattle.follow.specs.Fits.{alone_at16, gap, fits_items, leads, lowest, holds_members, fits_list, fits_plain, fits_lengths};

use item::Form;
use levels::Levels;

/// A number without its last j bytes.
#[tactic(auto, using(crate::proofs::Tests::shifted, crate::proofs::Tests::none_left))]
pub fn high_part(n: usize, j: usize) -> usize
    ensures { result ≡ n / 256 ^ j }
{
    if j < 8 { n >> (8 * j) } else { 0 }
}

/// Whether length bytes that say v may have more behind them.
#[tactic(auto, unfolding(crate::specs::Fits::leads))]
pub fn may_lead(form: Form, v: usize) -> bool
    ensures { result ≡ leads form v }
{
    match form {
        Form::Good => true,
        Form::Lean => 0 < v,
    }
}

// A length: a value with so many bytes 00 behind it.
#[derive(Clone, Copy)]
struct Padded {
    value: usize,
    zeros: usize,
}

// The lowest length that j more bytes may say behind those that say v.
#[tactic(auto, unfolding(crate::specs::Fits::lowest))]
fn lowest_length(form: Form, j: usize, v: usize) -> Padded
    ensures { lowest form j v ≡ result.value * 256 ^ result.zeros }
{
    if may_lead(form, v) {
        Padded { value: v, zeros: j }
    } else if j <= 1 {
        Padded { value: 0, zeros: 1 }
    } else {
        Padded {
            value: 1,
            zeros: j - 1,
        }
    }
}

// Whether left bytes hold m items, and as many members as the length says.
#[tactic(auto, unfolding(crate::specs::Fits::holds_members), using(crate::proofs::Tests::members, crate::proofs::Tests::product_none))]
fn holds_members(left: usize, m: usize, low: Padded) -> bool
    ensures { result ≡ holds_members left m (low.value * 256 ^ low.zeros) }
{
    if m == 0 && low.value == 0 {
        left != 1
    } else {
        m <= left / 2 && low.value <= high_part(left / 2 - m, low.zeros)
    }
}

// Whether left bytes hold m items, and a content as long as the length says.
#[tactic(auto, using(crate::proofs::Tests::holds))]
fn holds_content(left: usize, m: usize, low: Padded) -> bool
    ensures { result ≡ leb (low.value * 256 ^ low.zeros + 2 * m) left }
{
    m <= left / 2 && low.value <= high_part(left - 2 * m, low.zeros)
}

// Whether one item is awaited in all, and its depth is 16.
#[tactic(auto, unfolding(crate::specs::Fits::alone_at16))]
fn is_alone_at_16(l: Levels) -> bool
    ensures { result ≡ alone_at16 (stack l) }
{
    l.sum() == 1 && l.deepest() == 1
}

/// What is left of a text of a form: so many bytes, for the items that the levels await.
#[derive(Clone, Copy)]
pub struct Rest {
    pub form: Form,
    pub bytes: usize,
    pub levels: Levels,
}

impl Rest {
    // Whether this many bytes are left for one item that in this form is never so long.
    #[tactic(auto, unfolding(crate::specs::Fits::gap))]
    fn is_gap(self) -> bool
        ensures { result ≡ gap self.form self.bytes (stack self.levels) }
    {
        match self.form {
            Form::Good => false,
            Form::Lean => self.bytes == 258 && is_alone_at_16(self.levels),
        }
    }

    /// Whether what the levels await, and nothing else, may fill exactly these bytes.
    #[tactic(auto, unfolding(crate::specs::Fits::fits_items), using(crate::proofs::Tests::halves))]
    pub fn fits_items(self) -> bool
        ensures { result ≡ fits_items self.form self.bytes (stack self.levels) }
    {
        let m = self.levels.sum();
        if m == 0 {
            self.bytes == 0
        } else {
            !self.is_gap() && m <= self.bytes / 2
        }
    }

    // The same behind j more length bytes of a list, behind those that say v.
    #[tactic(auto, unfolding(crate::specs::Fits::fits_list), using(crate::proofs::Tests::at_depth))]
    fn fits_list(self, j: usize, v: usize) -> bool
        ensures { result ≡ fits_list self.form self.bytes (stack self.levels) j v }
    {
        if self.bytes < j {
            return false;
        }
        let low = lowest_length(self.form, j, v);
        let left = self.bytes - j;
        if self.levels.level == 16 {
            let behind = Rest {
                bytes: left,
                ..self
            };
            low.value == 0 && behind.fits_items()
        } else {
            holds_members(left, self.levels.sum(), low)
        }
    }

    // The same of an item of another code, and its content.
    #[tactic(auto, unfolding(crate::specs::Fits::fits_plain), using(crate::proofs::Tests::content_room))]
    fn fits_plain(self, c: u32, j: usize, v: usize) -> bool
        ensures { result ≡ fits_plain self.form c self.bytes (stack self.levels) j v }
    {
        if self.bytes < j {
            return false;
        }
        let left = self.bytes - j;
        let m = self.levels.sum();
        holds_content(left, m, lowest_length(self.form, j, v))
            && (m != 0 || high_part(left, j) <= v && item::is_allowed(c, left))
    }

    /// Whether anything may follow with j length bytes to come, behind those that say v.
    #[inline(always)]
    #[tactic(auto, unfolding(crate::specs::Fits::fits_lengths))]
    pub fn fits_lengths(self, c: u32, j: usize, v: usize) -> bool
        ensures { result ≡ fits_lengths self.form c self.bytes (stack self.levels) j v }
    {
        if c == item::L {
            self.fits_list(j, v)
        } else {
            self.fits_plain(c, j, v)
        }
    }
}
