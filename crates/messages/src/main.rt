// Calls of the fed frame reader and of outboxes, as lines on standard input say (docs/CALLS.md).
#![tactic(auto)]

ghost use Rattle.std.specs.Prelude.{◌≡◌, ◌≤◌, ◌++◌, length, IfOk, OnOk};
ghost use Rattle.frames.specs.Event.{event_in};
ghost use Rattle.messages.specs.Records.{unused, box_in, event_line, is_last, fresh_done, piece_done, end_done, written_line, box_done};
ghost use Rattle.messages.specs.Records.{append_to, append_line, append_done, next_done, drop_done, begun, done};
ghost use Rattle.driver.specs.Input.{printed_of};

use driver::{Answer, Defined, Stdout};
use frame::Header;
use frames::{Event, FrameReader};
use outbox::Dropped;
use refusal::Refusal;
use std::fmt;
use std::fmt::Write;

// standard input, as a file descriptor
const STDIN: i32 = 0;

// ---- the frame reader

// What a feed reached, and the bytes that it consumed.
fn event_line(stdout: &mut Stdout, event: Result<Event, Refusal>, consumed: usize) -> fmt::Result
    ensures { OnOk result (stdout.new.said ≡ stdout.old.said ++ event_line (event_in event) consumed) }
{
    match event {
        Ok(Event::More) => writeln!(stdout, "more\t{consumed}"),
        Ok(Event::Header(h, n)) => {
            write!(
                stdout,
                "header\t{consumed}\t{}\t{}\t{}",
                h.session, h.ptype, h.stype
            )?;
            writeln!(stdout, "\t{}\t{}\t{}\t{n}", h.byte2, h.byte3, h.system)
        }
        Ok(Event::Text(n)) => writeln!(stdout, "text\t{consumed}\t{n}"),
        Ok(Event::End) => writeln!(stdout, "end\t{consumed}"),
        Err(refusal) => writeln!(stdout, "refused\t{consumed}\t{}", u32::from(refusal)),
    }
}

// Whether nothing of a piece is left to feed: all of it is consumed, or it is refused.
fn is_last(event: Result<Event, Refusal>) -> bool
    ensures { result ≡ is_last (event_in event) }
{
    matches!(event, Ok(Event::More) | Err(_))
}

// Feeds of a piece, at most. Each header or text that is reached consumes a byte, and at most one end follows it,
// so that a piece of 524,288 bytes needs no more, and a line says fewer.
const FEEDS: usize = 1_048_578;

// ---- a frame written

// header (10), room (2), text
fn write(stdout: &mut Stdout, b: &[u8]) -> fmt::Result
    ensures { OnOk result (stdout.new.said ≡ stdout.old.said ++ written_line b.now) }
{
    if b.len() < 12 {
        return driver::bad(stdout);
    }
    let mut out = records::blank();
    let out = &mut out[..records::field_at::<2>(b, 10) as usize];
    let header = Header::from(records::ten_in(b));
    write!(
        stdout,
        "frame{}",
        Answer(frame::write(header, &b[12..], out))
    )?;
    driver::digits(stdout, out)?;
    stdout.write_str("\n")
}

// ---- outboxes

#[derive(Clone, Copy)]
struct Outbox {
    bytes: [u8; 256],
    used: usize,
}

impl Outbox {
    #[tactic(auto, unfolding(crate::specs::Records::unused))]
    fn empty() -> Outbox
        ensures { (result.bytes ≡ unused) × (result.used ≡ 0) }
    {
        Outbox {
            bytes: [0xEE; 256],
            used: 0,
        }
    }

    fn append(&mut self, stdout: &mut Stdout, frame: &[u8]) -> fmt::Result
        ensures { OnOk result ((self.new ≡ append_to self.old frame.now) × (stdout.new.said ≡ stdout.old.said ++ append_line self.old frame.now)) }
    {
        let answer = outbox::append(&mut self.bytes, self.used, frame);
        if let Ok(used) = answer {
            self.used = used;
        }
        write!(stdout, "appended{}", Answer(answer))?;
        driver::digits(stdout, &self.bytes)?;
        stdout.write_str("\n")
    }
}

// used (4), then its bytes, EE behind them
fn outbox_in(b: &[u8]) -> Outbox
    requires { 4 ≤ length b.now }
    ensures { result ≡ box_in b.now }
{
    let mut made = Outbox::empty();
    made.used = records::field_at::<4>(b, 0) as usize;
    wire::copy(&mut made.bytes, &b[4..]);
    made
}

// ---- what is kept

#[derive(Clone, Copy)]
struct Messages {
    reader: FrameReader,
    control: Outbox,
    data: Outbox,
}

impl Messages {
    fn fresh(&mut self, stdout: &mut Stdout) -> fmt::Result
        ensures { OnOk result ((self.new, stdout.new.said) ≡ fresh_done (self.old, stdout.old.said)) }
    {
        self.reader = frames::fresh_reader();
        stdout.write_str("fresh\n")
    }

    // A piece is fed until nothing of it is left to reach.
    fn piece(&mut self, stdout: &mut Stdout, b: &[u8]) -> fmt::Result
        ensures { OnOk result ((self.new, stdout.new.said) ≡ piece_done (self.old, stdout.old.said) b.now) }
    {
        let mut rest = b;
        for _ in 0..FEEDS {
            let fed = frames::feed(self.reader, rest);
            self.reader = fed.reader;
            event_line(stdout, fed.event, fed.consumed)?;
            if is_last(fed.event) {
                break;
            }
            rest = &rest[fed.consumed.min(rest.len())..];
        }
        Ok(())
    }

    fn end(&mut self, stdout: &mut Stdout) -> fmt::Result
        ensures { OnOk result ((self.new, stdout.new.said) ≡ end_done (self.old, stdout.old.said)) }
    {
        writeln!(
            stdout,
            "stream\t{}",
            driver::number(frames::end(self.reader))
        )
    }

    // which (1), used (4), its bytes
    fn make(&mut self, stdout: &mut Stdout, b: &[u8]) -> fmt::Result
        ensures { OnOk result ((self.new, stdout.new.said) ≡ box_done (self.old, stdout.old.said) b.now) }
    {
        if b.len() < 5 {
            return driver::bad(stdout);
        }
        let which = b[0];
        let made = outbox_in(&b[1..]);
        if which == 0 {
            self.control = made;
        } else {
            self.data = made;
        }
        writeln!(stdout, "box\t{which}\t{}", made.used)
    }

    // which (1), a frame
    fn append(&mut self, stdout: &mut Stdout, b: &[u8]) -> fmt::Result
        ensures { OnOk result ((self.new, stdout.new.said) ≡ append_done (self.old, stdout.old.said) b.now) }
    {
        match b {
            [] => driver::bad(stdout),
            [0, frame @ ..] => self.control.append(stdout, frame),
            [_, frame @ ..] => self.data.append(stdout, frame),
        }
    }

    fn next(&self, stdout: &mut Stdout) -> fmt::Result
        ensures { OnOk result ((self.now, stdout.new.said) ≡ next_done (self.now, stdout.old.said)) }
    {
        let Messages { control, data, .. } = *self;
        let next = outbox::next(&control.bytes, control.used, &data.bytes, data.used);
        write!(stdout, "next\t{}", driver::number(next))?;
        driver::digits(stdout, next.unwrap_or(&[]))?;
        stdout.write_str("\n")
    }

    fn drop_message(&mut self, stdout: &mut Stdout) -> fmt::Result
        ensures { OnOk result ((self.new, stdout.new.said) ≡ drop_done (self.old, stdout.old.said)) }
    {
        let Messages {
            mut control,
            mut data,
            ..
        } = *self;
        let cused = control.used;
        let dused = data.used;
        let dropped = outbox::drop_next(&mut control.bytes, cused, &mut data.bytes, dused);
        match dropped {
            Ok(Dropped::Control(used)) => control.used = used,
            Ok(Dropped::Data(used)) => data.used = used,
            Err(_) => {}
        }
        self.control = control;
        self.data = data;
        write!(
            stdout,
            "dropped\t{}\t{}\t{}",
            driver::number(dropped),
            control.used,
            data.used
        )?;
        driver::digits(stdout, &control.bytes)?;
        driver::digits(stdout, &data.bytes)?;
        stdout.write_str("\n")
    }
}

impl Defined for Messages {
    ghost done = { done };

    fn record(&mut self, stdout: &mut Stdout, letter: u8, bytes: &mut [u8]) -> fmt::Result {
        match letter {
            b'f' => self.fresh(stdout),
            b'p' => self.piece(stdout, bytes),
            b'e' => self.end(stdout),
            b'w' => write(stdout, bytes),
            b'b' => self.make(stdout, bytes),
            b'a' => self.append(stdout, bytes),
            b'n' => self.next(stdout),
            b'd' => self.drop_message(stdout),
            _ => driver::bad(stdout),
        }
    }
}

// What is printed of an input.
fn answered(input: &[u8]) -> Result<Stdout, fmt::Error>
    ensures { IfOk result (λ stdout. stdout.said ≡ printed_of done begun input.now) }
{
    let mut kept = Messages {
        reader: frames::fresh_reader(),
        control: Outbox::empty(),
        data: Outbox::empty(),
    };
    driver::run_on(&mut kept, input)
}

fn main() -> fmt::Result {
    let mut input = records::room();
    let n = io::read_full(STDIN, &mut input);
    answered(&input[..n])?;
    Ok(())
}
