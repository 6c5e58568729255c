// The state of a session in its two halves, the link and the device: made, asked, and one part changed.
#![tactic(auto)]

ghost use Rattle.std.specs.Prelude.{◌≡◌};
ghost use Rattle.state.specs.State.{session_of, made_of, made_in, fresh, connected, selected, with_phase, with_test, with_next, numbered, gone};
ghost use Rattle.state.specs.State.{with_received, with_own, with_flag, received_freed, own_freed, emptied, received_open};

use refusal::Refusal;
use slots::{Linktest, Query, Slot};

#[derive(Clone, Copy, Debug, PartialEq, Eq)]
pub enum Phase {
    NotConnected,
    NotSelected,
    Selected,
}

/// The connection: its phase, the own linktest, the next own number.
#[derive(Clone, Copy, Debug, PartialEq, Eq)]
pub struct Link {
    pub phase: Phase,
    pub linktest: Linktest,
    pub next: u32,
}

/// The device: its ID, a flag for each stream, the open received primaries and the open own ones.
#[derive(Clone, Copy, Debug, PartialEq, Eq)]
pub struct Device {
    pub id: u16,
    pub flags: [bool; 128],
    pub received: [Slot; 32],
    pub own: [Slot; 32],
}

#[derive(Clone, Copy, Debug, PartialEq, Eq)]
pub struct Session {
    pub link: Link,
    pub device: Device,
}

/// A session as it is made, and whether the list allows its state: the session is there on a refusal too.
#[derive(Clone, Copy, Debug, PartialEq, Eq)]
pub struct Made {
    pub answer: Result<(), Refusal>,
    pub session: Session,
}

/// A session for a device ID, which is at most 32,767.
#[tactic(auto, unfolding(crate::specs::State::made_of, crate::specs::State::session_of))]
pub fn new_session(id: u16) -> Made
    ensures { made_in result ≡ made_of id }
{
    let session = Session {
        link: Link {
            phase: Phase::NotConnected,
            linktest: Linktest::closed(),
            next: 1,
        },
        device: Device {
            id,
            flags: [false; 128],
            received: slots::no_slots(),
            own: slots::no_slots(),
        },
    };
    let answer = if id <= 32767 {
        Ok(())
    } else {
        Err(Refusal::WrongDevice)
    };
    Made { answer, session }
}

impl Session {
    /// The fresh number: held by no own slot nor the linktest.
    pub fn fresh_number(self) -> u32
        ensures { result ≡ fresh self }
    {
        fresh::fresh_number(self.device.own, self.link.linktest, self.link.next)
    }
}

// A method for each part that is changed, here and below: a field has no name that a generic one could take.
impl Link {
    pub fn is_connected(self) -> bool
        ensures { result ≡ connected self }
    {
        self.phase != Phase::NotConnected
    }

    pub fn is_selected(self) -> bool
        ensures { result ≡ selected self }
    {
        self.phase == Phase::Selected
    }

    pub fn with_phase(self, phase: Phase) -> Link
        ensures { result ≡ with_phase self phase }
    {
        Link { phase, ..self }
    }

    pub fn with_test(self, linktest: Linktest) -> Link
        ensures { result ≡ with_test self linktest }
    {
        Link { linktest, ..self }
    }

    pub fn with_next(self, next: u32) -> Link
        ensures { result ≡ with_next self next }
    {
        Link { next, ..self }
    }

    /// A fresh number is taken: the next own number is one more.
    pub fn numbered_by(self, n: u32) -> Link
        ensures { result ≡ numbered self n }
    {
        self.with_next(fresh::one_more(n))
    }

    /// Not connected, the linktest emptied.
    pub fn closed(self) -> Link
        ensures { result ≡ gone self }
    {
        self.with_phase(Phase::NotConnected)
            .with_test(Linktest::closed())
    }
}

impl Device {
    pub fn with_received(self, received: [Slot; 32]) -> Device
        ensures { result ≡ with_received self received }
    {
        Device { received, ..self }
    }

    pub fn with_own(self, own: [Slot; 32]) -> Device
        ensures { result ≡ with_own self own }
    {
        Device { own, ..self }
    }

    /// The flag of a stream set or cleared; as it is where there is no such flag.
    #[tactic(auto, using(slots::proofs::Past::set_past))]
    pub fn with_flag(mut self, stream: u8, set: bool) -> Device
        ensures { result ≡ with_flag self stream set }
    {
        if stream < 128 {
            self.flags[stream as usize] = set;
        }
        self
    }

    /// The slot at a place freed; as it is where there is no such slot.
    pub fn free_received(self, at: usize) -> Device
        ensures { result ≡ received_freed self at }
    {
        self.with_received(slots::with_slot(self.received, at, Slot::free()))
    }

    /// The slot at a place freed; as it is where there is no such slot.
    pub fn free_own(self, at: usize) -> Device
        ensures { result ≡ own_freed self at }
    {
        self.with_own(slots::with_slot(self.own, at, Slot::free()))
    }

    /// The data slots emptied.
    pub fn emptied(self) -> Device
        ensures { result ≡ emptied self }
    {
        self.with_received(slots::no_slots())
            .with_own(slots::no_slots())
    }

    /// Whether any received slot is open.
    pub fn received_open(self) -> bool
        ensures { result ≡ received_open self }
    {
        slots::find(self.received, Query::Taken).is_some()
    }
}
