// Whole texts judged, measured, read and written, as lines on standard input say (docs/CALLS.md).
#![tactic(auto)]

ghost use Rattle.std.specs.Prelude.{◌≡◌, ◌++◌, IfOk, OnOk};
ghost use Rattle.driver.specs.Input.{printed_of};
ghost use Rattle.texts.specs.Records.{judged_line, read_line, part_line, written_line, lean_line, begun, done};

use driver::{Answer, Defined, Stdout};
use item::Form;
use rows::Row;
use std::fmt;
use std::fmt::Write;

// standard input, as a file descriptor
const STDIN: i32 = 0;

fn judge(stdout: &mut Stdout, t: &[u8]) -> fmt::Result
    ensures { OnOk result (stdout.new.said ≡ stdout.old.said ++ judged_line t.now) }
{
    let good = driver::number(text::judge(t));
    let lean = driver::number(text::judge_as(Form::Lean, t));
    write!(stdout, "judged\t{good}\t{lean}")?;
    if let Ok(measure) = text::measure(t) {
        write!(stdout, "\t{}\t{}", measure.rows, measure.bytes)?;
    }
    stdout.write_str("\n")
}

// room (1), text
fn read(stdout: &mut Stdout, b: &[u8]) -> fmt::Result
    ensures { OnOk result (stdout.new.said ≡ stdout.old.said ++ read_line b.now) }
{
    let Some((room, t)) = b.split_first() else {
        return driver::bad(stdout);
    };
    let mut table = [7u32; 255];
    let table = &mut table[..*room as usize];
    write!(stdout, "read{}", Answer(text::read(t, table)))?;
    for number in table.iter() {
        write!(stdout, "\t{number}")?;
    }
    stdout.write_str("\n")
}

// code (4), length (4), place (4), text
fn part(stdout: &mut Stdout, b: &[u8]) -> fmt::Result
    ensures { OnOk result (stdout.new.said ≡ stdout.old.said ++ part_line b.now) }
{
    if b.len() < 12 {
        return driver::bad(stdout);
    }
    let row = Row {
        code: records::field_at::<4>(b, 0) as u32,
        length: records::field_at::<4>(b, 4) as u32,
        place: records::field_at::<4>(b, 8) as u32,
    };
    let content = text::part(&b[12..], row);
    write!(stdout, "part\t{}", driver::number(content))?;
    driver::digits(stdout, content.unwrap_or(&[]))?;
    stdout.write_str("\n")
}

// room (2), count (1), so many numbers (4 each), content
fn write(stdout: &mut Stdout, b: &[u8]) -> fmt::Result
    ensures { OnOk result (stdout.new.said ≡ stdout.old.said ++ written_line b.now) }
{
    let count = records::field_at::<1>(b, 2) as usize;
    let from = 3 + 4 * count;
    if b.len() < from {
        return driver::bad(stdout);
    }
    let mut table = [0u32; 255];
    records::words_in(&b[3..from], &mut table);
    let mut out = records::blank();
    let out = &mut out[..records::field_at::<2>(b, 0) as usize];
    write!(
        stdout,
        "written{}",
        Answer(writer::write(&table[..count], &b[from..], out))
    )?;
    driver::digits(stdout, out)?;
    stdout.write_str("\n")
}

// numbers (1), room (2), text
fn lean(stdout: &mut Stdout, b: &[u8]) -> fmt::Result
    ensures { OnOk result (stdout.new.said ≡ stdout.old.said ++ lean_line b.now) }
{
    if b.len() < 3 {
        return driver::bad(stdout);
    }
    let mut table = [7u32; 255];
    let table = &mut table[..records::field_at::<1>(b, 0) as usize];
    let mut out = records::blank();
    let out = &mut out[..records::field_at::<2>(b, 1) as usize];
    write!(
        stdout,
        "lean{}",
        Answer(writer::write_lean(&b[3..], table, out))
    )?;
    driver::digits(stdout, out)?;
    stdout.write_str("\n")
}

// No record leaves anything behind for the next.
#[derive(Drop)]
struct Texts;

impl Defined for Texts {
    ghost done = { done };

    fn record(&mut self, stdout: &mut Stdout, letter: u8, bytes: &mut [u8]) -> fmt::Result {
        match letter {
            b'j' => judge(stdout, bytes),
            b'r' => read(stdout, bytes),
            b'p' => part(stdout, bytes),
            b'w' => write(stdout, bytes),
            b'l' => lean(stdout, bytes),
            _ => driver::bad(stdout),
        }
    }
}

// What is printed of an input.
fn answered(input: &[u8]) -> Result<Stdout, fmt::Error>
    ensures { IfOk result (λ stdout. stdout.said ≡ printed_of done begun input.now) }
{
    driver::run_on(&mut Texts, input)
}

fn main() -> fmt::Result {
    let mut input = records::room();
    let n = io::read_full(STDIN, &mut input);
    answered(&input[..n])?;
    Ok(())
}
