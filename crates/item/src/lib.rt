// The format codes, what each allows, and what a length and a content are in a text.
#![tactic(auto)]

ghost use Rattle.std.specs.Prelude.{◌≡◌};
ghost use Rattle.item.specs.Code.{kind_of, name_of, allowed_by, allowed, largest};
ghost use Rattle.item.specs.Item.{fewest, limit};

/// The code of a list.
pub const L: u32 = 0o00;

/// The width of a content's elements, and the least length of a content that is not empty.
#[derive(Clone, Copy, Debug, PartialEq, Eq)]
pub struct Sizes {
    pub width: usize,
    pub least: usize,
}

impl Sizes {
    /// Whether a content of these sizes may have this length; of width 0 only none.
    #[tactic(auto, unfolding(crate::specs::Code::allowed_by))]
    pub fn allows(self, n: usize) -> bool
        ensures { result ≡ allowed_by self n }
    {
        n.is_multiple_of(self.width) && (n == 0 || n >= self.least)
    }
}

/// What a format code stands for: a list, a content of such sizes, or nothing.
#[derive(Clone, Copy, Debug, PartialEq, Eq)]
pub enum Kind {
    List,
    Plain(Sizes),
    Unknown,
}

fn each(width: usize) -> Kind
    ensures { result ≡ Rattle.item.specs.Code.each width }
{
    Kind::Plain(Sizes {
        width,
        least: width,
    })
}

/// What a format code stands for.
#[tactic(auto, unfolding(crate::specs::Code::kind_of))]
pub fn kind_of(code: u32) -> Kind
    ensures { result ≡ kind_of code }
{
    match code {
        L => Kind::List,
        0o10 | 0o11 | 0o20 | 0o21 | 0o31 | 0o51 => each(1),
        0o22 => Kind::Plain(Sizes { width: 1, least: 2 }),
        0o32 | 0o52 => each(2),
        0o34 | 0o44 | 0o54 => each(4),
        0o30 | 0o40 | 0o50 => each(8),
        _ => Kind::Unknown,
    }
}

/// The letters of a code's name; an unknown code has none.
#[tactic(auto, using(crate::proofs::Codes::name_spelled))]
pub fn name_of(code: u32) -> &'static [u8]
    ensures { result.now ≡ name_of code }
{
    match code {
        L => b"L",
        0o10 => b"B",
        0o11 => b"BOOLEAN",
        0o20 => b"A",
        0o21 => b"J",
        0o22 => b"C2",
        0o31 => b"I1",
        0o51 => b"U1",
        0o32 => b"I2",
        0o52 => b"U2",
        0o34 => b"I4",
        0o44 => b"F4",
        0o54 => b"U4",
        0o30 => b"I8",
        0o40 => b"F8",
        0o50 => b"U8",
        _ => b"",
    }
}

/// Whether an item of this code may have this length.
#[tactic(auto, unfolding(crate::specs::Code::allowed))]
pub fn is_allowed(code: u32, n: usize) -> bool
    ensures { result ≡ allowed code n }
{
    match kind_of(code) {
        Kind::List => true,
        Kind::Plain(s) => s.allows(n),
        Kind::Unknown => false,
    }
}

/// The largest byte that a content of this code may have.
#[tactic(auto, unfolding(crate::specs::Code::largest))]
pub fn largest_byte(code: u32) -> u8
    ensures { result ≡ largest code }
{
    if code == 0o20 { 0x7F } else { 0xFF }
}

/// What is asked of a text: that it is good, or that it is lean.
#[derive(Clone, Copy, Debug, PartialEq, Eq)]
pub enum Form {
    Good,
    Lean,
}

/// The largest byte that a content of this code may have in a text of this form.
pub fn limit_byte(form: Form, code: u32) -> u8
    ensures { result ≡ limit form code }
{
    match form {
        Form::Lean if code == 0o11 => 0x01,
        _ => largest_byte(code),
    }
}

/// The fewest length bytes that hold a length, from its leading zeros.
#[tactic(auto, using(crate::proofs::Fewest::zeros_1, crate::proofs::Fewest::zeros_2, crate::proofs::Fewest::zeros_3, crate::proofs::Fewest::zeros_4,))]
pub fn length_bytes(n: u32) -> usize
    ensures { result ≡ fewest n }
{
    match n.leading_zeros() {
        24..=32 => 1,
        16..=23 => 2,
        8..=15 => 3,
        _ => 4,
    }
}
