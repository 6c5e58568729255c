// The list behind 14: which states of a session are allowed.
#![tactic(auto)]

ghost use Rattle.std.specs.Prelude.{◌≡◌, ◌<◌};
ghost use Rattle.allowed.specs.Slots.{allows_slot, allows_slots};
ghost use Rattle.allowed.specs.States.{allows_link, allows_device, allows_open, allows_test, allows};

use slots::{Linktest, Query, Slot};
use state::{Device, Link, Session};

fn allows_slot(slots: [Slot; 32], i: usize, s: Slot) -> bool
    requires { i < 32 }
    ensures { result ≡ allows_slot slots i s }
{
    if s.taken {
        slots::find(slots, Query::Named(s.system)) == Some(i)
            && slots::is_primary(s.stream, s.function)
    } else {
        s == Slot::free()
    }
}

fn allows_slots(slots: [Slot; 32]) -> bool
    ensures { result ≡ allows_slots slots }
{
    // `all` over `enumerate` was tried: that its answer is the definition's stayed open
    for (i, s) in slots.iter().enumerate() {
        if !allows_slot(slots, i, *s) {
            return false;
        }
    }
    true
}

#[tactic(auto, unfolding(crate::specs::States::allows_link))]
fn allows_link(l: Link) -> bool
    ensures { result ≡ allows_link l }
{
    if l.linktest.running {
        l.is_connected()
    } else {
        l.linktest.system == 0
    }
}

#[tactic(auto, unfolding(crate::specs::States::allows_device))]
fn allows_device(d: Device) -> bool
    ensures { result ≡ allows_device d }
{
    d.id <= 32767 && !d.flags[0] && allows_slots(d.received) && allows_slots(d.own)
}

// A slot is taken only when selected.
#[tactic(auto, unfolding(crate::specs::States::allows_open))]
fn allows_open(l: Link, d: Device) -> bool
    ensures { result ≡ allows_open l.phase d }
{
    l.is_selected() || (!d.received_open() && slots::find(d.own, Query::Taken).is_none())
}

// A running linktest has system bytes of no own slot.
#[tactic(auto, unfolding(crate::specs::States::allows_test))]
fn allows_test(t: Linktest, d: Device) -> bool
    ensures { result ≡ allows_test t d }
{
    !t.running || slots::find(d.own, Query::Named(t.system)).is_none()
}

/// The state does not break the list of docs/STATES.md.
#[tactic(auto, unfolding(crate::specs::States::allows))]
pub fn allows_state(s: Session) -> bool
    ensures { result ≡ allows s }
{
    allows_link(s.link)
        && allows_device(s.device)
        && allows_open(s.link, s.device)
        && allows_test(s.link.linktest, s.device)
}
