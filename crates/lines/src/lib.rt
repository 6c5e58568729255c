// A line of the listing as bytes: a letter, fields behind tabs, numbers decimal, a line end.
#![tactic(auto)]

ghost use Rattle.std.specs.Prelude.{◌+◌, ◌*◌, ◌≤◌, ◌≡◌, length};
ghost use Rattle.std.proofs.lemmas.List.Edits.{sets};
ghost use Rattle.lines.specs.Text.{number_field, name_field, fields, line_of, message_line, item_line, line_text};

use frame::Header;

/// A line of the listing.
#[derive(Clone, Copy)]
pub enum Line {
    /// M: a header, and its text's length.
    Message(Header, usize),
    /// I: a depth, a code and a length.
    Item(usize, u32, usize),
    /// X: a refusal's number, and bytes.
    // No Refusal: `print` promises a line for any number.
    Refusal(u32, u64),
    /// E: frames and bytes.
    End(u64, u64),
}

// Puts bytes at a place, and answers the place behind them.
fn put(out: &mut [u8], at: usize, s: &[u8]) -> usize
    requires { at + length s.now ≤ length out.old }
    ensures { (result ≡ at + length s.now) × (out.new ≡ sets out.old at s.now) }
{
    let end = at + s.len();
    out[at..end].copy_from_slice(s);
    end
}

// Puts a number behind a tab.
fn put_number(out: &mut [u8], at: usize, n: u64) -> usize
    requires { at + 21 ≤ length out.old }
    ensures { (result ≡ at + length (number_field n)) × (out.new ≡ sets out.old at (number_field n)) }
{
    let mut digits = [0u8; 20];
    let k = io::decimal(n, &mut digits);
    let a = put(out, at, b"\t");
    put(out, a, &digits[..k])
}

// Puts numbers, each behind a tab.
fn put_numbers(out: &mut [u8], at: usize, ns: &[u64]) -> usize
    requires { at + length ns.now * 21 ≤ length out.old }
    ensures { (result ≡ at + length (fields ns.now)) × (out.new ≡ sets out.old at (fields ns.now)) }
{
    let mut a = at;
    for n in ns {
        a = put_number(out, a, *n);
    }
    a
}

// Puts a line of numbers behind its letter.
fn put_line(out: &mut [u8], at: usize, letter: u8, ns: &[u64]) -> usize
    requires { at + length ns.now * 21 + 2 ≤ length out.old }
    ensures { (result ≡ at + length (line_of letter ns.now)) × (out.new ≡ sets out.old at (line_of letter ns.now)) }
{
    let a = put(out, at, &[letter]);
    let b = put_numbers(out, a, ns);
    put(out, b, b"\n")
}

// The name of a code behind a tab.
fn put_name(out: &mut [u8], at: usize, code: u32) -> usize
    requires { at + 8 ≤ length out.old }
    ensures { (result ≡ at + length (name_field code)) × (out.new ≡ sets out.old at (name_field code)) }
{
    let a = put(out, at, b"\t");
    put(out, a, item::name_of(code))
}

// The line of an item.
fn put_item(out: &mut [u8], at: usize, depth: usize, code: u32, size: usize) -> usize
    requires { at + 52 ≤ length out.old }
    ensures { (result ≡ at + length (item_line depth code size)) × (out.new ≡ sets out.old at (item_line depth code size)) }
{
    let a = put(out, at, b"I");
    let b = put_number(out, a, depth as u64);
    let c = put_name(out, b, code);
    let d = put_number(out, c, size as u64);
    put(out, d, b"\n")
}

// The line of a message.
#[tactic(auto, unfolding(crate::specs::Text::message_line))]
fn put_message(out: &mut [u8], at: usize, h: Header, n: usize) -> usize
    requires { at + 149 ≤ length out.old }
    ensures { (result ≡ at + length (message_line h n)) × (out.new ≡ sets out.old at (message_line h n)) }
{
    put_line(
        out,
        at,
        b'M',
        &[
            h.session as u64,
            h.ptype as u64,
            h.stype as u64,
            h.byte2 as u64,
            h.byte3 as u64,
            h.system as u64,
            n as u64,
        ],
    )
}

/// Puts a line, or none, at the start of the output, and answers how many bytes it has.
#[tactic(auto, unfolding(crate::specs::Text::refusal_line, crate::specs::Text::end_line))]
pub fn print(line: Option<Line>, out: &mut [u8; 160]) -> usize
    ensures { (result ≡ length (line_text line)) × (out.new ≡ sets out.old 0 (line_text line)) }
{
    match line {
        None => 0,
        Some(Line::Message(h, n)) => put_message(out, 0, h, n),
        Some(Line::Item(depth, code, size)) => put_item(out, 0, depth, code, size),
        Some(Line::Refusal(number, bytes)) => put_line(out, 0, b'X', &[number as u64, bytes]),
        Some(Line::End(frames, bytes)) => put_line(out, 0, b'E', &[frames, bytes]),
    }
}
