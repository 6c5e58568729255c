// The rows of the link: control messages, connect, disconnect, linktest, separate, T6, T7, T8.
#![tactic(auto)]

ghost use Rattle.std.specs.Prelude.{◌≡◌};
ghost use Rattle.message.specs.Notice.{told_in};
ghost use Rattle.message.specs.Send.{send_in};
ghost use Rattle.link.specs.Linked.{linked_in};
ghost use Rattle.link.specs.Rows.{answer, told, leaves, rejecting, rejected_of, select_req_of, deselect_req_of, linktest_req_of, linktest_rsp_of};
ghost use Rattle.link.specs.Rows.{separate_req_of, connect_of, disconnect_of, linktest_of, separate_of, t6_of, t7_of, t8_of};

use frame::Header;
use message::{Message, Notice};
use refusal::Refusal;
use slots::Linktest;
use state::{Link, Phase};

/// What a row of the link answers, the link then, whether the data slots are emptied, and what is sent.
// `device` has a record like it for its own half; the two share no field's type but the answer's and the message's.
#[derive(Clone, Copy, Debug, PartialEq, Eq)]
pub struct Linked {
    pub answer: Result<Notice, Refusal>,
    pub link: Link,
    pub empties: bool,
    pub send: Option<Message>,
}

impl Linked {
    // An answer alone, and nothing sent.
    fn told(answer: Result<Notice, Refusal>, link: Link) -> Linked
        ensures { linked_in result ≡ told (told_in answer) link }
    {
        Linked {
            answer,
            link,
            empties: false,
            send: None,
        }
    }

    // A message is sent.
    fn sends(link: Link, message: Message) -> Linked
        ensures { linked_in result ≡ answer 0 link (send_in (Some message)) }
    {
        Linked {
            send: Some(message),
            ..Linked::told(Ok(Notice::Done), link)
        }
    }

    // The data slots are emptied.
    fn leaves(link: Link, send: Option<Message>) -> Linked
        ensures { linked_in result ≡ leaves link (send_in send) }
    {
        Linked {
            answer: Ok(Notice::Done),
            link,
            empties: true,
            send,
        }
    }
}

// ---- received

/// The Reject of a message, with its reason.
#[tactic(auto, unfolding(crate::specs::Rows::rejecting))]
pub fn reject(l: Link, h: Header, reason: u8) -> Linked
    ensures { linked_in result ≡ rejecting l h reason }
{
    Linked::sends(l, message::reject_of(h, reason))
}

#[tactic(auto, using(wire::proofs::Pick::picks), unfolding(crate::specs::Rows::rejected_of))]
pub fn rejected(l: Link, h: Header) -> Linked
    ensures { linked_in result ≡ rejected_of l h }
{
    if l.linktest.is_running(h.system) {
        Linked::told(Ok(Notice::Closed), l.with_test(Linktest::closed()))
    } else {
        Linked::told(Ok(Notice::ClosedNothing), l)
    }
}

#[tactic(auto, using(wire::proofs::Pick::picks), unfolding(crate::specs::Rows::select_req_of))]
pub fn select_req(l: Link, h: Header) -> Linked
    ensures { linked_in result ≡ select_req_of l h }
{
    if l.is_selected() {
        Linked::sends(l, message::response_of(h, 2, 1))
    } else {
        Linked::sends(l.with_phase(Phase::Selected), message::response_of(h, 2, 0))
    }
}

/// Busy: any received slot is open.
#[tactic(auto, using(wire::proofs::Pick::picks), unfolding(crate::specs::Rows::deselect_req_of))]
pub fn deselect_req(l: Link, busy: bool, h: Header) -> Linked
    ensures { linked_in result ≡ deselect_req_of l busy h }
{
    if !l.is_selected() {
        Linked::sends(l, message::response_of(h, 4, 1))
    } else if busy {
        Linked::sends(l, message::response_of(h, 4, 2))
    } else {
        Linked::leaves(
            l.with_phase(Phase::NotSelected),
            Some(message::response_of(h, 4, 0)),
        )
    }
}

#[tactic(auto, unfolding(crate::specs::Rows::linktest_req_of))]
pub fn linktest_req(l: Link, h: Header) -> Linked
    ensures { linked_in result ≡ linktest_req_of l h }
{
    Linked::sends(l, message::response_of(h, 6, 0))
}

#[tactic(auto, using(wire::proofs::Pick::picks), unfolding(crate::specs::Rows::linktest_rsp_of))]
pub fn linktest_rsp(l: Link, h: Header) -> Linked
    ensures { linked_in result ≡ linktest_rsp_of l h }
{
    if l.linktest.is_running(h.system) {
        Linked::told(Ok(Notice::Done), l.with_test(Linktest::closed()))
    } else {
        reject(l, h, 3)
    }
}

#[tactic(auto, using(wire::proofs::Pick::picks), unfolding(crate::specs::Rows::separate_req_of))]
pub fn separate_req(l: Link) -> Linked
    ensures { linked_in result ≡ separate_req_of l }
{
    if l.is_selected() {
        Linked::leaves(l.with_phase(Phase::NotSelected), None)
    } else {
        Linked::told(Ok(Notice::Done), l)
    }
}

// ---- wished

#[tactic(auto, using(wire::proofs::Pick::picks), unfolding(crate::specs::Rows::connect_of))]
pub fn connect(l: Link) -> Linked
    ensures { linked_in result ≡ connect_of l }
{
    if l.is_connected() {
        Linked::told(Err(Refusal::AlreadyConnected), l)
    } else {
        Linked::told(Ok(Notice::Done), l.with_phase(Phase::NotSelected))
    }
}

#[tactic(auto, unfolding(crate::specs::Rows::disconnect_of))]
pub fn disconnect(l: Link) -> Linked
    ensures { linked_in result ≡ disconnect_of l }
{
    Linked::leaves(l.closed(), None)
}

/// With the fresh number n.
#[tactic(auto, using(wire::proofs::Pick::picks), unfolding(crate::specs::Rows::linktest_of))]
pub fn linktest(l: Link, n: u32) -> Linked
    ensures { linked_in result ≡ linktest_of l n }
{
    if l.linktest.running {
        return Linked::told(Err(Refusal::LinktestOpen), l);
    }
    Linked::sends(
        l.numbered_by(n).with_test(Linktest::begun(n)),
        message::control_of(0xFFFF, n, 0, 0, 5),
    )
}

/// With the fresh number n.
#[tactic(auto, unfolding(crate::specs::Rows::separate_of))]
pub fn separate(l: Link, n: u32) -> Linked
    ensures { linked_in result ≡ separate_of l n }
{
    Linked::leaves(
        l.numbered_by(n).with_phase(Phase::NotSelected),
        Some(message::control_of(0xFFFF, n, 0, 0, 9)),
    )
}

// ---- timers

#[tactic(auto, using(wire::proofs::Pick::picks), unfolding(crate::specs::Rows::t6_of))]
pub fn t6(l: Link) -> Linked
    ensures { linked_in result ≡ t6_of l }
{
    if l.linktest.running {
        disconnect(l)
    } else {
        Linked::told(Err(Refusal::TimerStopped), l)
    }
}

#[tactic(auto, using(wire::proofs::Pick::picks), unfolding(crate::specs::Rows::t7_of))]
pub fn t7(l: Link) -> Linked
    ensures { linked_in result ≡ t7_of l }
{
    if l.is_selected() {
        return Linked::told(Err(Refusal::TimerStopped), l);
    }
    t8(l)
}

#[tactic(auto, using(wire::proofs::Pick::picks), unfolding(crate::specs::Rows::t8_of))]
pub fn t8(l: Link) -> Linked
    ensures { linked_in result ≡ t8_of l }
{
    if l.is_connected() {
        disconnect(l)
    } else {
        Linked::told(Err(Refusal::TimerStopped), l)
    }
}
