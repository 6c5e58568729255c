// Calls of the fed reader, as lines on standard input say (docs/CALLS.md).
#![tactic(auto)]

ghost use Rattle.std.specs.Prelude.{◌≡◌, ◌≤◌, List, ℕ, length, Some, IfOk, OnOk};
ghost use Rattle.feeds.specs.Records.{form_in, phase_in, reader_in, progress_word, fresh_done, piece_done, state_done, begun, done};
ghost use Rattle.driver.specs.Input.{printed_of};

use driver::{Answer, Defined, Stdout};
use item::Form;
use reader::{Phase, Progress, Reader};
use std::fmt;
use std::fmt::Write;

// standard input, as a file descriptor
const STDIN: i32 = 0;

// How far a reader is.
#[derive(Clone, Copy)]
struct Status(Progress);

impl fmt::Display for Status {
    ghost output = { λ s. Some (progress_word s.0) };

    fn fmt<W: fmt::Write>(&self, f: &mut fmt::Formatter<W>) -> fmt::Result {
        f.write_str(match self.0 {
            Progress::More => "more",
            Progress::Complete => "complete",
        })
    }
}

fn form_in(kind: u64) -> Form
    ensures { result ≡ form_in kind }
{
    match kind {
        0 => Form::Good,
        _ => Form::Lean,
    }
}

// kind (1), code (4), left (4), value (4)
fn phase_in(b: &[u8]) -> Phase
    ensures { result ≡ phase_in b.now }
{
    let code = records::field_at::<4>(b, 1) as u32;
    let left = records::field_at::<4>(b, 5) as usize;
    let value = records::field_at::<4>(b, 9) as usize;
    match records::field_at::<1>(b, 0) {
        0 => Phase::Format,
        1 => Phase::Length { code, left, value },
        2 => Phase::Content { code, left },
        _ => Phase::Refused(code),
    }
}

// form (1), N (4), read (4), level (4), phase (13), sixteen counts (4 each)
fn reader_in(b: &[u8]) -> Reader
    requires { 90 ≤ length b.now }
    ensures { result ≡ reader_in b.now }
{
    let mut awaited = [0u32; 16];
    records::words_in(&b[26..], &mut awaited);
    Reader {
        form: form_in(records::field_at::<1>(b, 0)),
        size: records::field_at::<4>(b, 1) as usize,
        read: records::field_at::<4>(b, 5) as usize,
        level: records::field_at::<4>(b, 9) as usize,
        awaited,
        phase: phase_in(&b[13..]),
    }
}

// The reader that the records feed.
#[derive(Drop)]
struct Feeds {
    reader: Reader,
}

impl Feeds {
    // N (4)
    fn fresh(&mut self, stdout: &mut Stdout, form: Form, b: &[u8]) -> fmt::Result
        ensures { OnOk result ((self.new, stdout.new.said) ≡ fresh_done form (self.old, stdout.old.said) b.now) }
    {
        if b.len() < 4 {
            return driver::bad(stdout);
        }
        self.reader = reader::fresh_reader(form, records::field_at::<4>(b, 0) as usize);
        writeln!(
            stdout,
            "fresh{}",
            Answer(reader::status_of(self.reader).map(Status))
        )
    }

    fn piece(&mut self, stdout: &mut Stdout, b: &[u8]) -> fmt::Result
        ensures { OnOk result ((self.new, stdout.new.said) ≡ piece_done (self.old, stdout.old.said) b.now) }
    {
        let fed = reader::feed(self.reader, b);
        self.reader = fed.reader;
        writeln!(
            stdout,
            "fed{}\t{}",
            Answer(fed.answer.map(Status)),
            fed.consumed
        )
    }

    fn state(&mut self, stdout: &mut Stdout, b: &[u8]) -> fmt::Result
        ensures { OnOk result ((self.new, stdout.new.said) ≡ state_done (self.old, stdout.old.said) b.now) }
    {
        if b.len() < 90 {
            return driver::bad(stdout);
        }
        self.reader = reader_in(b);
        let word = if reader::allows_state(self.reader) {
            "allowed"
        } else {
            "broken"
        };
        writeln!(
            stdout,
            "state\t{word}{}",
            Answer(reader::status_of(self.reader).map(Status))
        )
    }
}

impl Defined for Feeds {
    ghost done = { done };

    fn record(&mut self, stdout: &mut Stdout, letter: u8, bytes: &mut [u8]) -> fmt::Result {
        match letter {
            b'f' => self.fresh(stdout, Form::Good, bytes),
            b'l' => self.fresh(stdout, Form::Lean, bytes),
            b'p' => self.piece(stdout, bytes),
            b's' => self.state(stdout, bytes),
            _ => driver::bad(stdout),
        }
    }
}

// What is printed of an input.
fn answered(input: &[u8]) -> Result<Stdout, fmt::Error>
    ensures { IfOk result (λ stdout. stdout.said ≡ printed_of done begun input.now) }
{
    let reader = reader::fresh_reader(Form::Good, 0);
    driver::run_on(&mut Feeds { reader }, input)
}

fn main() -> fmt::Result {
    let mut input = records::room();
    let n = io::read_full(STDIN, &mut input);
    answered(&input[..n])?;
    Ok(())
}
