// Events and states of a session, as lines on standard input say (docs/CALLS.md).
#![tactic(auto)]

ghost use Rattle.std.specs.Prelude.{◌≡◌, ◌≤◌, ◌++◌, length, Some, IfOk, OnOk};
ghost use Rattle.message.specs.Send.{send_in};
ghost use Rattle.sessions.specs.Records.{slots_first, flags_fields, state_fields, sent_fields, wish_in, timer_in, phase_in, slot_in, changed_line};
ghost use Rattle.sessions.specs.Records.{event_done, make_done, receive_done, wish_done, timer_done};
ghost use Rattle.sessions.specs.Records.{number_done, phase_done, linktest_done, slot_done, flag_done, begun, done};
ghost use Rattle.driver.specs.Input.{printed_of};

use driver::{Defined, Stdout};
use frame::Header;
use message::Message;
use session::{Event, Phase, Received, Session, Timer, Wish};
use slots::{Linktest, Slot};
use std::fmt;
use std::fmt::Write;

// standard input, as a file descriptor
const STDIN: i32 = 0;

// ---- a state and a message

// The slots of a table that are taken, each behind a word.
#[derive(Clone, Copy)]
struct Slots<'a> {
    word: &'a str,
    slots: &'a [Slot; 32],
}

impl fmt::Display for Slots<'_> {
    ghost output = { λ s. Some (slots_first s.word.now s.slots.now 32) };

    fn fmt<W: fmt::Write>(&self, f: &mut fmt::Formatter<W>) -> fmt::Result {
        for (place, x) in self.slots.iter().enumerate() {
            if x.taken {
                write!(
                    f,
                    "\t{}\t{place}\t{}\t{}\t{}",
                    self.word, x.system, x.stream, x.function
                )?;
            }
        }
        Ok(())
    }
}

// The streams whose flags are set.
#[derive(Clone, Copy)]
struct Flags<'a>(&'a [bool; 128]);

impl fmt::Display for Flags<'_> {
    ghost output = { λ x. Some (flags_fields x.0.now) };

    fn fmt<W: fmt::Write>(&self, f: &mut fmt::Formatter<W>) -> fmt::Result {
        f.write_str("\tflags")?;
        for (stream, flag) in self.0.iter().enumerate() {
            if *flag {
                write!(f, "\t{stream}")?;
            }
        }
        Ok(())
    }
}

#[derive(Clone, Copy)]
struct State<'a>(&'a Session);

impl fmt::Display for State<'_> {
    ghost output = { λ s. Some (state_fields s.0.now) };

    fn fmt<W: fmt::Write>(&self, f: &mut fmt::Formatter<W>) -> fmt::Result {
        let link = self.0.link;
        let device = &self.0.device;
        let phase = match link.phase {
            Phase::NotConnected => "not connected",
            Phase::NotSelected => "not selected",
            Phase::Selected => "selected",
        };
        write!(f, "\t{phase}\t{}", link.next)?;
        if link.linktest.running {
            write!(f, "\tlinktest\t{}", link.linktest.system)?;
        }
        let received = Slots {
            word: "received",
            slots: &device.received,
        };
        let own = Slots {
            word: "own",
            slots: &device.own,
        };
        write!(f, "{received}{own}{}", Flags(&device.flags))
    }
}

fn sent_fields(stdout: &mut Stdout, send: Option<Message>, text: &[u8]) -> fmt::Result
    ensures { OnOk result (stdout.new.said ≡ stdout.old.said ++ sent_fields (send_in send) text.now) }
{
    let mut out = [0u8; 32768];
    match session::write_message(send, text, &mut out) {
        Ok(n) if 0 < n && n <= out.len() => {
            stdout.write_str("\tsent")?;
            driver::digits(stdout, &out[..n])
        }
        Ok(_) => Ok(()),
        Err(refusal) => write!(stdout, "\trefused\t{}", u32::from(refusal)),
    }
}

// ---- events

// wish (1), W (1), stream (1), function (1), flag (1), system bytes (4)
fn wish_in(b: &[u8]) -> Wish
    requires { 9 ≤ length b.now }
    ensures { result ≡ wish_in b.now }
{
    let stream = b[2];
    let system = records::field_at::<4>(b, 5) as u32;
    match b[0] {
        0 => Wish::Connect,
        1 => Wish::Disconnect,
        2 => Wish::Flag(stream, b[4] == 1),
        3 => Wish::Primary(b[1] == 1, stream, b[3]),
        4 => Wish::Reply(system),
        5 => Wish::Abort(system),
        6 => Wish::Linktest,
        _ => Wish::Separate,
    }
}

// timer (1), system bytes (4)
fn timer_in(b: &[u8]) -> Timer
    requires { 5 ≤ length b.now }
    ensures { result ≡ timer_in b.now }
{
    match b[0] {
        3 => Timer::T3(records::field_at::<4>(b, 1) as u32),
        6 => Timer::T6,
        7 => Timer::T7,
        _ => Timer::T8,
    }
}

fn phase_in(kind: u8) -> Phase
    ensures { result ≡ phase_in kind }
{
    match kind {
        0 => Phase::NotConnected,
        1 => Phase::NotSelected,
        _ => Phase::Selected,
    }
}

// taken (1), system bytes (4), stream (1), function (1)
fn slot_in(b: &[u8]) -> Slot
    requires { 7 ≤ length b.now }
    ensures { result ≡ slot_in b.now }
{
    Slot {
        taken: b[0] == 1,
        system: records::field_at::<4>(b, 1) as u32,
        stream: b[5],
        function: b[6],
    }
}

// ---- what is kept

#[derive(Drop)]
struct Sessions {
    session: Session,
}

impl Sessions {
    fn event(&mut self, stdout: &mut Stdout, e: Event, text: &[u8]) -> fmt::Result
        ensures { OnOk result ((self.new, stdout.new.said) ≡ event_done (self.old, stdout.old.said) e text.now) }
    {
        let stepped = session::step(self.session, e, text);
        self.session = stepped.session;
        let number = match stepped.answer {
            Ok(notice) => u32::from(notice),
            Err(refusal) => u32::from(refusal),
        };
        write!(stdout, "event\t{number}{}", State(&self.session))?;
        sent_fields(stdout, stepped.send, text)?;
        stdout.write_str("\n")
    }

    // device ID (2)
    fn make(&mut self, stdout: &mut Stdout, b: &[u8]) -> fmt::Result
        ensures { OnOk result ((self.new, stdout.new.said) ≡ make_done (self.old, stdout.old.said) b.now) }
    {
        if b.len() < 2 {
            return driver::bad(stdout);
        }
        let made = session::new_session(records::field_at::<2>(b, 0) as u16);
        self.session = made.session;
        writeln!(
            stdout,
            "made\t{}{}",
            driver::number(made.answer),
            State(&self.session)
        )
    }

    // header (10), text
    fn receive(&mut self, stdout: &mut Stdout, b: &[u8]) -> fmt::Result
        ensures { OnOk result ((self.new, stdout.new.said) ≡ receive_done (self.old, stdout.old.said) b.now) }
    {
        if b.len() < 10 {
            return driver::bad(stdout);
        }
        let header = Header::from(records::ten_in(b));
        self.event(stdout, Event::Received(Received::from(header)), &b[10..])
    }

    // a wish (9), text
    fn wish(&mut self, stdout: &mut Stdout, b: &[u8]) -> fmt::Result
        ensures { OnOk result ((self.new, stdout.new.said) ≡ wish_done (self.old, stdout.old.said) b.now) }
    {
        if b.len() < 9 {
            return driver::bad(stdout);
        }
        self.event(stdout, Event::Wish(wish_in(b)), &b[9..])
    }

    fn timer(&mut self, stdout: &mut Stdout, b: &[u8]) -> fmt::Result
        ensures { OnOk result ((self.new, stdout.new.said) ≡ timer_done (self.old, stdout.old.said) b.now) }
    {
        if b.len() < 5 {
            return driver::bad(stdout);
        }
        self.event(stdout, Event::Timer(timer_in(b)), b"")
    }

    // The state was changed by hand.
    fn changed(&self, stdout: &mut Stdout) -> fmt::Result
        ensures { OnOk result (stdout.new.said ≡ stdout.old.said ++ changed_line self.now.session) }
    {
        let word = if allowed::allows_state(self.session) {
            "allowed"
        } else {
            "broken"
        };
        writeln!(stdout, "state\t{word}{}", State(&self.session))
    }

    // number (4)
    fn number(&mut self, stdout: &mut Stdout, b: &[u8]) -> fmt::Result
        ensures { OnOk result ((self.new, stdout.new.said) ≡ number_done (self.old, stdout.old.said) b.now) }
    {
        if b.len() < 4 {
            return driver::bad(stdout);
        }
        self.session.link = self
            .session
            .link
            .with_next(records::field_at::<4>(b, 0) as u32);
        self.changed(stdout)
    }

    // phase (1)
    fn phase(&mut self, stdout: &mut Stdout, b: &[u8]) -> fmt::Result
        ensures { OnOk result ((self.new, stdout.new.said) ≡ phase_done (self.old, stdout.old.said) b.now) }
    {
        let phase = match b {
            [] => return driver::bad(stdout),
            [kind, ..] => phase_in(*kind),
        };
        self.session.link = self.session.link.with_phase(phase);
        self.changed(stdout)
    }

    // running (1), system bytes (4)
    fn linktest(&mut self, stdout: &mut Stdout, b: &[u8]) -> fmt::Result
        ensures { OnOk result ((self.new, stdout.new.said) ≡ linktest_done (self.old, stdout.old.said) b.now) }
    {
        if b.len() < 5 {
            return driver::bad(stdout);
        }
        let test = Linktest {
            running: b[0] == 1,
            system: records::field_at::<4>(b, 1) as u32,
        };
        self.session.link = self.session.link.with_test(test);
        self.changed(stdout)
    }

    // which (1), place (1), a slot (7)
    fn slot(&mut self, stdout: &mut Stdout, b: &[u8]) -> fmt::Result
        ensures { OnOk result ((self.new, stdout.new.said) ≡ slot_done (self.old, stdout.old.said) b.now) }
    {
        if b.len() < 9 {
            return driver::bad(stdout);
        }
        let place = b[1] as usize;
        let slot = slot_in(&b[2..]);
        let device = self.session.device;
        self.session.device = if b[0] == 0 {
            device.with_received(slots::with_slot(device.received, place, slot))
        } else {
            device.with_own(slots::with_slot(device.own, place, slot))
        };
        self.changed(stdout)
    }

    // stream (1), flag (1)
    fn flag(&mut self, stdout: &mut Stdout, b: &[u8]) -> fmt::Result
        ensures { OnOk result ((self.new, stdout.new.said) ≡ flag_done (self.old, stdout.old.said) b.now) }
    {
        if b.len() < 2 {
            return driver::bad(stdout);
        }
        self.session.device = self.session.device.with_flag(b[0], b[1] == 1);
        self.changed(stdout)
    }
}

impl Defined for Sessions {
    ghost done = { done };

    fn record(&mut self, stdout: &mut Stdout, letter: u8, bytes: &mut [u8]) -> fmt::Result {
        match letter {
            b'm' => self.make(stdout, bytes),
            b'r' => self.receive(stdout, bytes),
            b'w' => self.wish(stdout, bytes),
            b't' => self.timer(stdout, bytes),
            b'n' => self.number(stdout, bytes),
            b'p' => self.phase(stdout, bytes),
            b'l' => self.linktest(stdout, bytes),
            b'x' => self.slot(stdout, bytes),
            b'g' => self.flag(stdout, bytes),
            _ => driver::bad(stdout),
        }
    }
}

// What is printed of an input.
fn answered(input: &[u8]) -> Result<Stdout, fmt::Error>
    ensures { IfOk result (λ stdout. stdout.said ≡ printed_of done begun input.now) }
{
    let session = session::new_session(0).session;
    driver::run_on(&mut Sessions { session }, input)
}

fn main() -> fmt::Result {
    let mut input = records::room();
    let n = io::read_full(STDIN, &mut input);
    answered(&input[..n])?;
    Ok(())
}
