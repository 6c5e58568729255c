// Elements answered and set, as lines on standard input say (docs/CALLS.md).
#![tactic(auto)]

ghost use Rattle.std.specs.Prelude.{◌≡◌, ◌++◌, IfOk, OnOk, Some};
ghost use Rattle.driver.specs.Input.{printed_of};
ghost use Rattle.elements.specs.Records.{element_text, got_line, element_of, set_line, begun, done};

use driver::{Answer, Defined, Stdout};
use element::Element;
use std::fmt;
use std::fmt::Write;
use wire::Width;

// standard input, as a file descriptor
const STDIN: i32 = 0;

// An element's sort, and behind a tab its number, or its bits in hex.
#[derive(Clone, Copy)]
struct Fields(Element);

#[tactic(auto, using(crate::proofs::Printed::hole))]
impl fmt::Display for Fields {
    ghost output = { λ fields. Some (element_text fields.0) };

    fn fmt<W: fmt::Write>(&self, f: &mut fmt::Formatter<W>) -> fmt::Result {
        match self.0 {
            Element::Signed(x) => {
                let bits = wire::unsigned(Width::Eight, x).unwrap_or(0);
                write!(f, "signed\t{bits:016x}")
            }
            Element::Unsigned(n) => write!(f, "unsigned\t{n}"),
            Element::F4(x) => write!(f, "f4\t{:08x}", element::f4_bits(x)),
            Element::F8(x) => write!(f, "f8\t{:016x}", element::f8_bits(x)),
            Element::Byte(b) => write!(f, "byte\t{b}"),
            Element::F4Bits(bits) => write!(f, "f4\t{bits:08x}"),
            Element::F8Bits(bits) => write!(f, "f8\t{bits:016x}"),
        }
    }
}

// code (4), place (4), content
fn get(stdout: &mut Stdout, b: &[u8]) -> fmt::Result
    ensures { OnOk result (stdout.new.said ≡ stdout.old.said ++ got_line b.now) }
{
    if b.len() < 8 {
        return driver::bad(stdout);
    }
    let code = records::field_at::<4>(b, 0) as u32;
    let place = records::field_at::<4>(b, 4) as usize;
    writeln!(
        stdout,
        "got{}",
        Answer(element::get(code, &b[8..], place).map(Fields))
    )
}

#[tactic(auto, unfolding(crate::specs::Records::element_of))]
fn element_in(sort: u64, n: u64) -> Element
    ensures { result ≡ element_of sort n }
{
    match sort {
        0 => Element::Signed(wire::signed(Width::Eight, n)),
        1 => Element::Unsigned(n),
        2 => Element::F4Bits((n % 0x1_0000_0000) as u32),
        3 => Element::F8Bits(n),
        _ => Element::Byte((n % 0x100) as u8),
    }
}

// code (4), place (4), sort (1), value (8), content
fn set(stdout: &mut Stdout, b: &mut [u8]) -> fmt::Result
    ensures { OnOk result (stdout.new.said ≡ stdout.old.said ++ set_line b.old) }
{
    if b.len() < 17 {
        return driver::bad(stdout);
    }
    let code = records::field_at::<4>(b, 0) as u32;
    let place = records::field_at::<4>(b, 4) as usize;
    let e = element_in(records::field_at::<1>(b, 8), records::field_at::<8>(b, 9));
    let content = &mut b[17..];
    let number = driver::number(element::set(code, content, place, e));
    write!(stdout, "set\t{number}")?;
    driver::digits(stdout, content)?;
    stdout.write_str("\n")
}

// No record leaves anything behind for the next.
#[derive(Drop)]
struct Elements;

impl Defined for Elements {
    ghost done = { done };

    fn record(&mut self, stdout: &mut Stdout, letter: u8, bytes: &mut [u8]) -> fmt::Result {
        match letter {
            b'g' => get(stdout, bytes),
            b's' => set(stdout, bytes),
            _ => driver::bad(stdout),
        }
    }
}

// What is printed of an input.
fn answered(input: &[u8]) -> Result<Stdout, fmt::Error>
    ensures { IfOk result (λ stdout. stdout.said ≡ printed_of done begun input.now) }
{
    driver::run_on(&mut Elements, input)
}

fn main() -> fmt::Result {
    let mut input = records::room();
    let n = io::read_full(STDIN, &mut input);
    answered(&input[..n])?;
    Ok(())
}
