// The elements of a content: element i answered, and set.
#![tactic(auto)]

ghost use Rattle.std.specs.Prelude.{◌≡◌, ◌<◌, cond, leb, Ok, Err};
ghost use Rattle.std.specs.Float.{binary32, binary64};
ghost use Rattle.std.specs.Float.Ieee.{to_bits};
ghost use Rattle.refusal.specs.Answer.{number_in};
ghost use Rattle.refusal.specs.declared.Refusal.TheVariants.{WrongByte};
ghost use Rattle.item.specs.Code.{largest};
ghost use Rattle.element.specs.Element.{sort_of, sort_in, wide, f4_of, f8_of, place_of, read_as, got_of, raw_of, set_of};
ghost use Rattle.element.specs.Asked.{Readable};
ghost use Rattle.element.specs.Place.{span_in};
ghost use Rattle.element.specs.Got.{got_in};
ghost use Rattle.element.specs.Raw.{raw_in};

use item::{Kind, Sizes};
use refusal::Refusal;
use wire::Width;

/// A signed number, an unsigned number, an F4, an F8 or a plain byte. The bits of an F4 or an F8 stand in for a NaN, whose pattern
/// no f32 or f64 carries.
#[derive(Clone, Copy, Debug, PartialEq)]
pub enum Element {
    Signed(i64),
    Unsigned(u64),
    F4(f32),
    F8(f64),
    Byte(u8),
    F4Bits(u32),
    F8Bits(u64),
}

// What the elements of a code are.
#[derive(Clone, Copy, PartialEq, Eq)]
enum Sort {
    Signed,
    Unsigned,
    F4,
    F8,
    Byte,
}

#[tactic(auto, unfolding(crate::specs::Element::sort_of))]
fn sort_of(code: u32) -> Sort
    ensures { result ≡ sort_of code }
{
    match code {
        0o30 | 0o31 | 0o32 | 0o34 => Sort::Signed,
        0o50 | 0o51 | 0o52 | 0o54 => Sort::Unsigned,
        0o44 => Sort::F4,
        0o40 => Sort::F8,
        _ => Sort::Byte,
    }
}

fn sort_in(e: Element) -> Sort
    ensures { result ≡ sort_in e }
{
    match e {
        Element::Signed(_) => Sort::Signed,
        Element::Unsigned(_) => Sort::Unsigned,
        Element::F4(_) | Element::F4Bits(_) => Sort::F4,
        Element::F8(_) | Element::F8Bits(_) => Sort::F8,
        Element::Byte(_) => Sort::Byte,
    }
}

// No From: any other width counts as eight, and both types are of other crates.
#[tactic(auto, unfolding(crate::specs::Element::wide))]
fn wide_of(width: usize) -> Width
    ensures { result ≡ wide width }
{
    match width {
        1 => Width::One,
        2 => Width::Two,
        4 => Width::Four,
        _ => Width::Eight,
    }
}

// The four functions of F4 and F8 stay two by two: no trait of std has f32's and f64's bits, and one of this crate's own, with the constants as
// members, is longer than they are.

#[tactic(auto, using(crate::proofs::Nan::above_4, crate::proofs::Nan::not_above_4))]
fn f4_of(bits: u32) -> Element
    ensures { result ≡ f4_of bits }
{
    // a NaN's pattern lies above the infinity's, the sign's bit apart
    if bits % 0x8000_0000 > 0x7F80_0000 {
        Element::F4Bits(bits)
    } else {
        Element::F4(f32::from_bits(bits))
    }
}

#[tactic(auto, using(crate::proofs::Nan::above_8, crate::proofs::Nan::not_above_8))]
fn f8_of(bits: u64) -> Element
    ensures { result ≡ f8_of bits }
{
    if bits % 0x8000_0000_0000_0000 > 0x7FF0_0000_0000_0000 {
        Element::F8Bits(bits)
    } else {
        Element::F8(f64::from_bits(bits))
    }
}

/// The bits of a float; of a NaN, whose pattern it does not carry, those of the quiet one.
#[tactic(auto, using(crate::proofs::Nan::quiet_4))]
pub fn f4_bits(x: f32) -> u32
    ensures { result ≡ to_bits binary32 x }
{
    if x.is_nan() { 0x7FC0_0000 } else { x.to_bits() }
}

/// The bits of a float; of a NaN, whose pattern it does not carry, those of the quiet one.
#[tactic(auto, using(crate::proofs::Nan::quiet_8))]
pub fn f8_bits(x: f64) -> u64
    ensures { result ≡ to_bits binary64 x }
{
    if x.is_nan() {
        0x7FF8_0000_0000_0000
    } else {
        x.to_bits()
    }
}

// Where an element lies in its content, and how wide it is.
#[derive(Clone, Copy)]
struct Span {
    at: usize,
    width: usize,
}

#[tactic(auto, using(crate::proofs::Places::inside), unfolding(crate::specs::Element::plain_place))]
fn plain_place(s: Sizes, size: usize, i: usize) -> Result<Span, Refusal>
    requires { 0 < s.width }
    ensures { span_in result ≡ Rattle.element.specs.Element.plain_place s size i }
{
    if !s.allows(size) {
        return Err(Refusal::WrongLength);
    }
    if i >= size / s.width {
        return Err(Refusal::NoElement);
    }
    Ok(Span {
        at: i * s.width,
        width: s.width,
    })
}

#[tactic(auto, using(crate::proofs::Places::some_width), unfolding(crate::specs::Element::place_of))]
fn place_of(code: u32, size: usize, i: usize) -> Result<Span, Refusal>
    ensures { span_in result ≡ place_of code size i }
{
    match item::kind_of(code) {
        Kind::Unknown => Err(Refusal::UnknownCode),
        Kind::List => Err(Refusal::IsList),
        Kind::Plain(s) => plain_place(s, size, i),
    }
}

// A byte, if a content of this code may have it.
fn checked(code: u32, b: u8) -> Result<u8, Refusal>
    ensures { result ≡ cond (leb b (largest code)) (Ok b) (Err WrongByte) }
{
    if b <= item::largest_byte(code) {
        Ok(b)
    } else {
        Err(Refusal::WrongByte)
    }
}

// The element whose bytes are the number n.
#[tactic(auto, unfolding(crate::specs::Element::read_as, crate::specs::Element::byte_of))]
fn read_as(code: u32, width: usize, n: u64) -> Result<Element, Refusal>
    requires { Readable code width n }
    ensures { got_in result ≡ read_as code width n }
{
    Ok(match sort_of(code) {
        Sort::Signed => Element::Signed(wire::signed(wide_of(width), n)),
        Sort::Unsigned => Element::Unsigned(n),
        Sort::F4 => f4_of(n as u32),
        Sort::F8 => f8_of(n),
        Sort::Byte => Element::Byte(checked(code, n as u8)?),
    })
}

/// Element i of a content of a given code.
#[tactic(auto, unfolding(crate::specs::Element::got_of))]
pub fn get(code: u32, content: &[u8], i: usize) -> Result<Element, Refusal>
    ensures { got_in result ≡ got_of code content.now i }
{
    let place = place_of(code, content.len(), i)?;
    let n = wire::number(&content[place.at..place.at + place.width]);
    read_as(code, place.width, n)
}

// The number that the bytes of an element of the code's sort are.
#[tactic(auto, unfolding(crate::specs::Element::held_or8, crate::specs::Element::byte_raw))]
fn like_raw(code: u32, width: usize, e: Element) -> Result<u64, Refusal>
    ensures { raw_in result ≡ Rattle.element.specs.Element.like_raw code width e }
{
    match e {
        Element::Signed(x) => wire::unsigned(wide_of(width), x).ok_or(Refusal::NoElement),
        Element::Unsigned(n) if wire::holds(wide_of(width), n) => Ok(n),
        Element::Unsigned(_) => Err(Refusal::NoElement),
        Element::F4(x) => Ok(u64::from(f4_bits(x))),
        Element::F8(x) => Ok(f8_bits(x)),
        Element::Byte(b) => Ok(u64::from(checked(code, b)?)),
        Element::F4Bits(n) => Ok(u64::from(n)),
        Element::F8Bits(n) => Ok(n),
    }
}

#[tactic(auto, using(crate::proofs::Sorts::same_tag, crate::proofs::Sorts::other_tag), unfolding(crate::specs::Element::raw_of))]
fn raw_of(code: u32, width: usize, e: Element) -> Result<u64, Refusal>
    ensures { raw_in result ≡ raw_of code width e }
{
    if sort_in(e) == sort_of(code) {
        like_raw(code, width, e)
    } else {
        Err(Refusal::NoElement)
    }
}

/// Sets element i of a content of a given code, and nothing else.
#[tactic(auto, unfolding(crate::specs::Element::set_of))]
pub fn set(code: u32, content: &mut [u8], i: usize, e: Element) -> Result<(), Refusal>
    ensures answer { number_in result ≡ (set_of code content.old i e).0 }
    ensures content { content.new ≡ (set_of code content.old i e).1 }
{
    let place = place_of(code, content.len(), i)?;
    let n = raw_of(code, place.width, e)?;
    wire::put(&mut content[place.at..place.at + place.width], n);
    Ok(())
}
