// The rows of the device: data received, flags, primaries, replies, T3.
#![tactic(auto)]

ghost use Rattle.std.specs.Prelude.{◌≡◌};
ghost use Rattle.message.specs.Notice.{told_in};
ghost use Rattle.message.specs.Send.{send_in};
ghost use Rattle.device.specs.Acted.{acted_in};
ghost use Rattle.device.specs.Rows.{answer, told, takes, sent, rejected_of, complain_of, secondary_of, opened_of, primary_of, data_of};
ghost use Rattle.device.specs.Rows.{flag_of, send_of, replied_of, t3_of};

use frame::Header;
use message::{Message, Notice, Text};
use refusal::Refusal;
use slots::{Query, Slot};
use state::Device;

/// What a row of the device answers, the device then, whether the fresh number was taken, and what is sent.
#[derive(Clone, Copy, Debug, PartialEq, Eq)]
pub struct Acted {
    pub answer: Result<Notice, Refusal>,
    pub device: Device,
    pub took: bool,
    pub send: Option<Message>,
}

impl Acted {
    // An answer alone, and nothing sent.
    fn told(answer: Result<Notice, Refusal>, device: Device) -> Acted
        ensures { acted_in result ≡ told (told_in answer) device }
    {
        Acted {
            answer,
            device,
            took: false,
            send: None,
        }
    }

    // A message is sent.
    fn sends(device: Device, message: Message) -> Acted
        ensures { acted_in result ≡ answer 0 device (send_in (Some message)) }
    {
        Acted {
            answer: Ok(Notice::Done),
            device,
            took: false,
            send: Some(message),
        }
    }

    // A message is sent that takes the fresh number.
    fn takes(device: Device, message: Message) -> Acted
        ensures { acted_in result ≡ takes device (send_in (Some message)) }
    {
        Acted {
            took: true,
            ..Acted::sends(device, message)
        }
    }
}

// A data message carries the device ID.
fn data_of(d: Device, w: bool, stream: u8, function: u8, system: u32, text: Text) -> Message
    ensures { send_in (Some result) ≡ sent d w stream function system text }
{
    Message {
        header: frame::data_header(d.id, w, stream, function, system),
        text,
    }
}

// ---- received

#[tactic(auto, using(wire::proofs::Pick::picks), unfolding(crate::specs::Rows::rejected_of))]
pub fn rejected(d: Device, h: Header) -> Acted
    ensures { acted_in result ≡ rejected_of d h }
{
    match slots::find(d.own, Query::Named(h.system)) {
        Some(at) => Acted::told(Ok(Notice::Closed), d.free_own(at)),
        None => Acted::told(Ok(Notice::ClosedNothing), d),
    }
}

#[tactic(auto, using(wire::proofs::Pick::picks), unfolding(crate::specs::Rows::complain_of))]
fn complain(d: Device, n: u32, h: Header, function: u8) -> Acted
    ensures { acted_in result ≡ complain_of d n h function }
{
    if h.stream() == 9 {
        return Acted::told(Ok(Notice::Dropped), d);
    }
    Acted::takes(d, data_of(d, false, 9, function, n, Text::About(h)))
}

#[tactic(auto, using(wire::proofs::Pick::picks), unfolding(crate::specs::Rows::secondary_of))]
fn secondary(d: Device, h: Header) -> Acted
    ensures { acted_in result ≡ secondary_of d h }
{
    if h.wants_reply() {
        return Acted::told(Ok(Notice::Dropped), d);
    }
    match slots::find(d.own, Query::Answered(h.system, h.stream(), h.byte3)) {
        Some(at) => Acted::told(Ok(Notice::Answered), d.free_own(at)),
        None => Acted::told(Ok(Notice::Dropped), d),
    }
}

#[tactic(auto, using(wire::proofs::Pick::picks), unfolding(crate::specs::Rows::opened_of))]
fn opened(d: Device, h: Header) -> Acted
    ensures { acted_in result ≡ opened_of d h }
{
    if slots::find(d.received, Query::Named(h.system)).is_some() {
        return Acted::told(Ok(Notice::Repeated), d);
    }
    match slots::find(d.received, Query::Free) {
        Some(at) => {
            let slot = Slot::new(h.system, h.stream(), h.byte3);
            let received = slots::with_slot(d.received, at, slot);
            Acted::told(Ok(Notice::Delivered), d.with_received(received))
        }
        None => Acted::sends(d, data_of(d, false, h.stream(), 0, h.system, Text::Empty)),
    }
}

#[tactic(auto, using(wire::proofs::Pick::picks), unfolding(crate::specs::Rows::primary_of))]
fn primary(d: Device, n: u32, h: Header, text: &[u8]) -> Acted
    ensures { acted_in result ≡ primary_of d n h text.now }
{
    if !d.flags[h.stream() as usize] {
        complain(d, n, h, 3)
    } else if h.byte3 == 255 {
        complain(d, n, h, 5)
    } else if text::judge(text).is_err() {
        complain(d, n, h, 7)
    } else if h.wants_reply() {
        opened(d, h)
    } else {
        Acted::told(Ok(Notice::Delivered), d)
    }
}

/// With the fresh number n, should an S9 need it.
#[tactic(auto, using(wire::proofs::Pick::picks), unfolding(crate::specs::Rows::data_of))]
pub fn data_came(d: Device, n: u32, h: Header, text: &[u8]) -> Acted
    ensures { acted_in result ≡ data_of d n h text.now }
{
    if h.session != d.id {
        complain(d, n, h, 1)
    } else if h.byte3 % 2 == 0 {
        secondary(d, h)
    } else {
        primary(d, n, h, text)
    }
}

// ---- wished

#[tactic(auto, unfolding(crate::specs::Rows::flag_of))]
pub fn flag(d: Device, m: u8, b: bool) -> Acted
    ensures { acted_in result ≡ flag_of d m b }
{
    Acted::told(Ok(Notice::Done), d.with_flag(m, b))
}

/// A primary with the fresh number n.
#[tactic(auto, using(wire::proofs::Pick::picks), unfolding(crate::specs::Rows::send_of))]
pub fn send(d: Device, n: u32, w: bool, m: u8, f: u8) -> Acted
    ensures { acted_in result ≡ send_of d n w m f }
{
    let message = data_of(d, w, m, f, n, Text::Wished);
    if !w {
        return Acted::takes(d, message);
    }
    match slots::find(d.own, Query::Free) {
        Some(at) => {
            let own = slots::with_slot(d.own, at, Slot::new(n, m, f));
            Acted::takes(d.with_own(own), message)
        }
        None => Acted::told(Err(Refusal::OwnSlotsFull), d),
    }
}

/// The reply of a function and a text to the received primary with these system bytes.
#[tactic(auto, using(wire::proofs::Pick::picks), unfolding(crate::specs::Rows::replied_of))]
pub fn replied(d: Device, k: u32, f: u8, text: Text) -> Acted
    ensures { acted_in result ≡ replied_of d k f text }
{
    match slots::find(d.received, Query::Named(k)) {
        Some(at) => {
            let message = data_of(d, false, d.received[at].stream, f, k, text);
            Acted::sends(d.free_received(at), message)
        }
        None => Acted::told(Err(Refusal::NoReceivedSlot), d),
    }
}

// ---- timers

/// With the fresh number n, of the own primary with system bytes k.
#[tactic(auto, using(wire::proofs::Pick::picks), unfolding(crate::specs::Rows::t3_of))]
pub fn t3(d: Device, n: u32, k: u32) -> Acted
    ensures { acted_in result ≡ t3_of d n k }
{
    match slots::find(d.own, Query::Named(k)) {
        Some(at) => {
            let Slot {
                stream,
                function,
                ..
            } = d.own[at];
            let about = frame::data_header(d.id, true, stream, function, k);
            Acted::takes(
                d.free_own(at),
                data_of(d, false, 9, 9, n, Text::About(about)),
            )
        }
        None => Acted::told(Err(Refusal::TimerStopped), d),
    }
}
