// The step: any state, any event, any text; the gates first, then a row of the link or of the device.
#![tactic(auto)]

ghost use Rattle.std.specs.Prelude.{◌≡◌, true};
ghost use Rattle.refusal.specs.Answer.{number_in};
ghost use Rattle.allowed.specs.Slots.{allows_slots};
ghost use Rattle.link.specs.Linked.{linked_in};
ghost use Rattle.device.specs.Acted.{acted_in};
ghost use Rattle.device.specs.Rows.{reply_of};
ghost use Rattle.session.specs.Stepped.{stepped_in};
ghost use Rattle.session.specs.Gates.{and_then, when_connected, when_selected, when_good, when_stream, when_primary, wish_gate, event_gate, gate_of};
ghost use Rattle.session.specs.Table.{by_link, by_device, rejected_of, data_of, came_of, wish_of, timer_of, event_of, step_of};

use device::Acted;
use link::Linked;
use slots::Query;

// What a host needs beside the step: the frame reader, what is received and sent, the session's state, the outboxes.
pub use frame::Header;
pub use frames::{Event as FrameEvent, Fed, FrameReader, end, feed, fresh_reader};
pub use message::{Message, Notice, Received, Text, write_message};
pub use outbox::{Dropped, append, drop_next, next};
pub use refusal::Refusal;
pub use slots::{Linktest, Slot};
pub use state::{Device, Link, Made, Phase, Session, new_session};

/// T3 of the own primary with these system bytes, T6 of the linktest, T7, T8.
#[derive(Clone, Copy, Debug, PartialEq, Eq)]
pub enum Timer {
    T3(u32),
    T6,
    T7,
    T8,
}

/// What is wished. A flag is of a stream; a primary has W, a stream and a function; a reply and an abort name a received primary by its system bytes.
#[derive(Clone, Copy, Debug, PartialEq, Eq)]
pub enum Wish {
    Connect,
    Disconnect,
    Flag(u8, bool),
    Primary(bool, u8, u8),
    Reply(u32),
    Abort(u32),
    Linktest,
    Separate,
}

#[derive(Clone, Copy, Debug, PartialEq, Eq)]
pub enum Event {
    Timer(Timer),
    Wish(Wish),
    Received(Received),
}

/// What an event answers, the new state, and what is sent.
#[derive(Clone, Copy, Debug, PartialEq, Eq)]
pub struct Stepped {
    pub answer: Result<Notice, Refusal>,
    pub session: Session,
    pub send: Option<Message>,
}

// ---- what a row answers, done to the session

fn by_link(s: Session, r: Linked) -> Stepped
    ensures { stepped_in result ≡ by_link s (linked_in r) }
{
    let device = if r.empties {
        s.device.emptied()
    } else {
        s.device
    };
    Stepped {
        answer: r.answer,
        session: Session {
            link: r.link,
            device,
        },
        send: r.send,
    }
}

fn by_device(s: Session, n: u32, a: Acted) -> Stepped
    ensures { stepped_in result ≡ by_device s n (acted_in a) }
{
    let link = if a.took {
        s.link.numbered_by(n)
    } else {
        s.link
    };
    Stepped {
        answer: a.answer,
        session: Session {
            link,
            device: a.device,
        },
        send: a.send,
    }
}

// ---- the gates

#[tactic(auto, using(wire::proofs::Pick::picks), unfolding(crate::specs::Gates::when_connected))]
fn connected_gate(l: Link) -> Result<(), Refusal>
    ensures { number_in result ≡ when_connected l }
{
    if l.is_connected() {
        Ok(())
    } else {
        Err(Refusal::NotConnected)
    }
}

#[tactic(auto, using(wire::proofs::Pick::picks), unfolding(crate::specs::Gates::when_selected))]
fn selected_gate(l: Link) -> Result<(), Refusal>
    ensures { number_in result ≡ when_selected l }
{
    if !l.is_connected() {
        Err(Refusal::NotConnected)
    } else if l.is_selected() {
        Ok(())
    } else {
        Err(Refusal::NotSelected)
    }
}

#[tactic(auto, using(wire::proofs::Pick::picks), unfolding(crate::specs::Gates::when_stream))]
fn stream_gate(m: u8) -> Result<(), Refusal>
    ensures { number_in result ≡ when_stream m }
{
    if (1..=127).contains(&m) {
        Ok(())
    } else {
        Err(Refusal::NoPrimary)
    }
}

#[tactic(auto, using(wire::proofs::Pick::picks), unfolding(crate::specs::Gates::when_good, crate::specs::Gates::and_then))]
fn good_gate(l: Link, text: &[u8]) -> Result<(), Refusal>
    ensures { number_in result ≡ when_good l text.now }
{
    selected_gate(l)?;
    text::judge(text)
}

#[tactic(auto, using(wire::proofs::Pick::picks), unfolding(crate::specs::Gates::when_primary, crate::specs::Gates::and_then))]
fn primary_gate(l: Link, m: u8, f: u8, text: &[u8]) -> Result<(), Refusal>
    ensures { number_in result ≡ and_then (when_good l text.now) (when_primary m f) }
{
    good_gate(l, text)?;
    if slots::is_primary(m, f) {
        Ok(())
    } else {
        Err(Refusal::NoPrimary)
    }
}

#[tactic(auto, unfolding(crate::specs::Gates::wish_gate))]
fn wish_gate(l: Link, w: Wish, text: &[u8]) -> Result<(), Refusal>
    ensures { number_in result ≡ wish_gate l w text.now }
{
    match w {
        Wish::Connect => Ok(()),
        Wish::Disconnect | Wish::Linktest => connected_gate(l),
        Wish::Flag(m, _) => stream_gate(m),
        Wish::Primary(_, m, f) => primary_gate(l, m, f, text),
        Wish::Reply(_) => good_gate(l, text),
        Wish::Abort(_) | Wish::Separate => selected_gate(l),
    }
}

#[tactic(auto, unfolding(crate::specs::Gates::event_gate))]
fn event_gate(l: Link, e: Event, text: &[u8]) -> Result<(), Refusal>
    ensures { number_in result ≡ event_gate l e text.now }
{
    match e {
        Event::Timer(_) => Ok(()),
        Event::Wish(w) => wish_gate(l, w, text),
        Event::Received(_) => connected_gate(l),
    }
}

#[tactic(auto, using(wire::proofs::Pick::picks), unfolding(crate::specs::Gates::gate_of))]
fn gate(s: Session, e: Event, text: &[u8]) -> Result<(), Refusal>
    ensures { number_in result ≡ gate_of s e text.now }
{
    if !allowed::allows_state(s) {
        return Err(Refusal::BrokenState);
    }
    event_gate(s.link, e, text)
}

// ---- the rows

// The own slots are asked first, so that the device's row finds its slot.
#[tactic(auto, using(wire::proofs::Pick::picks), unfolding(crate::specs::Table::rejected_of))]
fn rejected(s: Session, n: u32, h: Header) -> Stepped
    ensures { stepped_in result ≡ rejected_of s n h }
{
    if slots::find(s.device.own, Query::Named(h.system)).is_some() {
        by_device(s, n, device::rejected(s.device, h))
    } else {
        by_link(s, link::rejected(s.link, h))
    }
}

#[tactic(auto, using(wire::proofs::Pick::picks), unfolding(crate::specs::Table::data_of))]
fn data_came(s: Session, n: u32, h: Header, text: &[u8]) -> Stepped
    ensures { stepped_in result ≡ data_of s n h text.now }
{
    if s.link.is_selected() {
        by_device(s, n, device::data_came(s.device, n, h, text))
    } else {
        by_link(s, link::reject(s.link, h, 4))
    }
}

#[tactic(auto, unfolding(crate::specs::Table::came_of))]
fn came(s: Session, n: u32, r: Received, text: &[u8]) -> Stepped
    ensures { stepped_in result ≡ came_of s n r text.now }
{
    let Session { link, device } = s;
    match r {
        Received::Reject(h) => rejected(s, n, h),
        Received::OtherPType(h) => by_link(s, link::reject(link, h, 2)),
        Received::OtherSType(h) => by_link(s, link::reject(link, h, 1)),
        Received::SelectReq(h) => by_link(s, link::select_req(link, h)),
        Received::SelectRsp(h) | Received::DeselectRsp(h) => by_link(s, link::reject(link, h, 3)),
        Received::DeselectReq(h) => by_link(s, link::deselect_req(link, device.received_open(), h)),
        Received::LinktestReq(h) => by_link(s, link::linktest_req(link, h)),
        Received::LinktestRsp(h) => by_link(s, link::linktest_rsp(link, h)),
        Received::SeparateReq(_) => by_link(s, link::separate_req(link)),
        Received::Data(h) => data_came(s, n, h, text),
    }
}

// Here and not in `device`: one more than a function fits a byte only where the list holds.
#[tactic(auto, using(wire::proofs::Pick::picks), unfolding(device::specs::Rows::reply_of, device::specs::Rows::replied_of))]
fn reply(d: Device, k: u32) -> Acted
    requires { allows_slots d.received ≡ true }
    ensures { acted_in result ≡ reply_of d k }
{
    let function = match slots::find(d.received, Query::Named(k)) {
        Some(at) => d.received[at].function + 1,
        None => 0,
    };
    device::replied(d, k, function, Text::Wished)
}

#[tactic(auto, unfolding(crate::specs::Table::wish_of, device::specs::Rows::abort_of))]
fn wished(s: Session, n: u32, w: Wish) -> Stepped
    requires { allows_slots s.device.received ≡ true }
    ensures { stepped_in result ≡ wish_of s n w }
{
    let Session { link, device } = s;
    match w {
        Wish::Connect => by_link(s, link::connect(link)),
        Wish::Disconnect => by_link(s, link::disconnect(link)),
        Wish::Flag(m, b) => by_device(s, n, device::flag(device, m, b)),
        Wish::Primary(w, m, f) => by_device(s, n, device::send(device, n, w, m, f)),
        Wish::Reply(k) => by_device(s, n, reply(device, k)),
        Wish::Abort(k) => by_device(s, n, device::replied(device, k, 0, Text::Empty)),
        Wish::Linktest => by_link(s, link::linktest(link, n)),
        Wish::Separate => by_link(s, link::separate(link, n)),
    }
}

#[tactic(auto, unfolding(crate::specs::Table::timer_of))]
fn timed(s: Session, n: u32, t: Timer) -> Stepped
    ensures { stepped_in result ≡ timer_of s n t }
{
    match t {
        Timer::T3(k) => by_device(s, n, device::t3(s.device, n, k)),
        Timer::T6 => by_link(s, link::t6(s.link)),
        Timer::T7 => by_link(s, link::t7(s.link)),
        Timer::T8 => by_link(s, link::t8(s.link)),
    }
}

#[tactic(auto, unfolding(crate::specs::Table::event_of))]
fn on_event(s: Session, n: u32, e: Event, text: &[u8]) -> Stepped
    requires { allows_slots s.device.received ≡ true }
    ensures { stepped_in result ≡ event_of s n e text.now }
{
    match e {
        Event::Timer(t) => timed(s, n, t),
        Event::Wish(w) => wished(s, n, w),
        Event::Received(r) => came(s, n, r, text),
    }
}

/// One event, with its text: a received message's or a wish's.
#[tactic(auto, using(wire::proofs::Pick::picks), unfolding(crate::specs::Table::step_of))]
pub fn step(s: Session, e: Event, text: &[u8]) -> Stepped
    ensures { stepped_in result ≡ step_of s e text.now }
{
    match gate(s, e, text) {
        Ok(()) => on_event(s, s.fresh_number(), e, text),
        Err(refusal) => Stepped {
            answer: Err(refusal),
            session: s,
            send: None,
        },
    }
}
