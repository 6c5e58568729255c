// What the programs that are driven by lines share: the loop over the lines of an input, and fields as they print them.
#![tactic(auto)]

mod stdout;

ghost use Rattle.std.specs.Prelude.{◌≡◌, ◌≤◌, ℕ, List, length, map, ◌++◌, [], IfOk, OnOk};
ghost use Rattle.refusal.specs.Answer.{number_in};
ghost use Rattle.records.specs.Lines.{lines_of};
ghost use Rattle.driver.specs.Printed.{bad_record, hex_field, answer_fields};
ghost use Rattle.driver.specs.Input.{line_of, input_of, line_makes, lines_make, lines_done};

use refusal::Refusal;
use std::fmt;
use std::fmt::Write;
pub use stdout::Stdout;

// standard input, as a file descriptor
const STDIN: i32 = 0;

// A program takes so many bytes of lines at most.
const MOST: usize = 1_048_575;

/// A program that is driven by lines: what it keeps from line to line, and what it does with a record.
pub trait Program {
    // Whether a record of this letter and these bytes may make the second of the first, each a program and what standard output was handed. A program
    // that does not say it may make anything.
    ghost makes: { Self × List ℕ → ℕ → List ℕ → Self × List ℕ → Type 0 } = { λ _ _ _ _. Unit {0} };

    /// Does what a record says, and prints a line. The record's line begins with this letter, and says these bytes.
    fn record(&mut self, stdout: &mut Stdout, letter: u8, bytes: &mut [u8]) -> fmt::Result
        ensures { OnOk result (makes (self.old, stdout.old.said) letter bytes.old (self.new, stdout.new.said)) };
}

/// A program of which it is defined what a record makes.
pub trait Defined {
    // The program and what standard output was handed, both behind a record of this letter and these bytes.
    ghost done: { Self × List ℕ → ℕ → List ℕ → Self × List ℕ };

    /// Does what a record says, and prints what comes of it. The record's line begins with this letter, and says these bytes.
    fn record(&mut self, stdout: &mut Stdout, letter: u8, bytes: &mut [u8]) -> fmt::Result
        ensures { OnOk result ((self.new, stdout.new.said) ≡ done (self.old, stdout.old.said) letter bytes.old) };
}

impl<P: Defined> Program for P {
    ghost makes = { λ x letter bytes y. y ≡ P.done x letter bytes };

    fn record(&mut self, stdout: &mut Stdout, letter: u8, bytes: &mut [u8]) -> fmt::Result {
        Defined::record(self, stdout, letter, bytes)
    }
}

/// Says that a record is not one.
pub fn bad(stdout: &mut Stdout) -> fmt::Result
    ensures { OnOk result (stdout.new.said ≡ stdout.old.said ++ bad_record) }
{
    stdout.write_str("bad record\n")
}

/// Prints bytes in hex, behind a tab.
pub fn digits(stdout: &mut Stdout, bytes: &[u8]) -> fmt::Result
    ensures { OnOk result (stdout.new.said ≡ stdout.old.said ++ hex_field bytes.now 1048576) }
{
    let mut out = records::room();
    match hexes::hex_of(bytes, &mut out) {
        Ok(n) => {
            stdout.write_str("\t")?;
            stdout.bytes(&out[..n]);
            Ok(())
        }
        Err(refusal) => write!(stdout, "\t{}", u32::from(refusal)),
    }
}

/// The number of an answer: 0 where it does not refuse, or its refusal's.
pub fn number<T: Drop>(answer: std::result::Result<T, Refusal>) -> u32
    ensures { result ≡ number_in answer }
{
    match answer {
        Ok(_) => 0,
        Err(refusal) => u32::from(refusal),
    }
}

/// What a call answers, or that it refuses and its refusal's number, behind tabs.
#[derive(Drop)]
pub struct Answer<T>(pub std::result::Result<T, Refusal>);

impl<T: fmt::Display> fmt::Display for Answer<T> {
    ghost output = { λ answer. answer_fields T.output answer.0 };

    fn fmt<W: fmt::Write>(&self, f: &mut fmt::Formatter<W>) -> fmt::Result {
        match &self.0 {
            Ok(x) => write!(f, "\t{x}"),
            Err(refusal) => write!(f, "\trefused\t{}", u32::from(*refusal)),
        }
    }
}

// A line is empty, or a comment, which is printed again, or a letter and the bytes of a record in hex.
fn line<P: Program>(program: &mut P, stdout: &mut Stdout, line: &[u8]) -> fmt::Result
    requires { length line.now ≤ 1048575 }
    ensures { OnOk result (line_makes P.makes (program.old, stdout.old.said) (line_of line.now) (program.new, stdout.new.said)) }
{
    let Some((letter, hex)) = line.split_first() else {
        return Ok(());
    };
    if *letter == b'#' {
        stdout.bytes(line);
        return stdout.write_str("\n");
    }
    let mut said = records::room();
    match hexes::bytes_in(hex, &mut said) {
        Ok(n) => program.record(stdout, *letter, &mut said[..n]),
        Err(_) => bad(stdout),
    }
}

fn lines<P: Program>(program: &mut P, stdout: &mut Stdout, input: &[u8]) -> fmt::Result
    requires { length input.now ≤ 1048575 }
    ensures { OnOk result (lines_make P.makes (program.old, stdout.old.said) (map line_of (lines_of input.now)) (program.new, stdout.new.said)) }
{
    // not `split`: where a line ends is `records::line_end`, which has a promise and an edit
    let mut at: usize = 0;
    while at < input.len() {
        let end = records::line_end(input, at);
        line(program, stdout, &input[at..end])?;
        at = end + 1;
    }
    Ok(())
}

// Gives any program the records of an input, one after another, and answers standard output behind them.
fn run_any<P: Program>(program: &mut P, input: &[u8]) -> Result<Stdout, fmt::Error>
    ensures { IfOk result (λ stdout. lines_make P.makes (program.old, []) (input_of input.now) (program.new, stdout.said)) }
{
    let mut stdout = Stdout::new();
    if MOST < input.len() {
        stdout.write_str("too much input\n")?;
        return Ok(stdout);
    }
    lines(program, &mut stdout, input)?;
    Ok(stdout)
}

/// Gives a defined program the records of an input, one after another, and answers standard output behind them.
pub fn run_on<P: Defined>(program: &mut P, input: &[u8]) -> Result<Stdout, fmt::Error>
    ensures { IfOk result (λ stdout. (program.new, stdout.said) ≡ lines_done P.done (program.old, []) (input_of input.now)) }
{
    run_any(program, input)
}

/// Gives a program the records of standard input, one after another; it takes at most 1,048,575 bytes. No clause can say what standard input gives: the
/// program is as behind the lines of some input, which may be empty.
pub fn run<P: Program>(program: &mut P) -> fmt::Result
    ensures { OnOk result ((input : List ℕ) × (said : List ℕ) × lines_make P.makes (program.old, []) (input_of input) (program.new, said)) }
{
    let mut input = records::room();
    let n = io::read_full(STDIN, &mut input);
    run_any(program, &input[..n])?;
    Ok(())
}
