// The slots of open messages and the own linktest, and one search for every question that is asked of slots.
#![tactic(auto)]

ghost use Rattle.std.specs.Prelude.{◌≡◌, set};
ghost use Rattle.slots.specs.Slots.{free, slot_of, no_slots, no_test, test_of, passes, found_at, place_of, runs, is_primary};

/// An open message: its system bytes, stream and function. A free slot is all zero.
// No Option: a host passes any state, and a free slot that is not all zero breaks the list of docs/STATES.md; so with the linktest.
#[derive(Clone, Copy, Debug, PartialEq, Eq)]
pub struct Slot {
    pub taken: bool,
    pub system: u32,
    pub stream: u8,
    pub function: u8,
}

/// The own linktest, with its system bytes. A closed one is all zero.
#[derive(Clone, Copy, Debug, PartialEq, Eq)]
pub struct Linktest {
    pub running: bool,
    pub system: u32,
}

// Not a closure: the definitions (`passes`, `found_at`) and the theorems on a search name what is looked for.
/// What is looked for among slots: a free slot; a taken one; these system bytes; the primary that system bytes, stream and function answer.
#[derive(Clone, Copy, Debug, PartialEq, Eq)]
pub enum Query {
    Free,
    Taken,
    Named(u32),
    Answered(u32, u8, u8),
}

impl Slot {
    pub fn free() -> Slot
        ensures { result ≡ free }
    {
        Slot {
            taken: false,
            system: 0,
            stream: 0,
            function: 0,
        }
    }

    /// The slot that an open message takes.
    pub fn new(system: u32, stream: u8, function: u8) -> Slot
        ensures { result ≡ slot_of system stream function }
    {
        Slot {
            taken: true,
            system,
            stream,
            function,
        }
    }

    /// Whether the slot is what is looked for. Function 0 answers any function, and another the one before it.
    #[tactic(auto, unfolding(crate::specs::Slots::passes))]
    pub fn is_match(self, q: Query) -> bool
        ensures { result ≡ passes q self }
    {
        match q {
            Query::Free => !self.taken,
            Query::Taken => self.taken,
            Query::Named(system) => self.taken && self.system == system,
            Query::Answered(system, stream, function) => {
                self.taken
                    && self.system == system
                    && self.stream == stream
                    && (function == 0 || self.function as u32 + 1 == function as u32)
            }
        }
    }
}

impl Linktest {
    pub fn closed() -> Linktest
        ensures { result ≡ no_test }
    {
        Linktest {
            running: false,
            system: 0,
        }
    }

    /// The linktest with these system bytes, running.
    pub fn begun(system: u32) -> Linktest
        ensures { result ≡ test_of system }
    {
        Linktest {
            running: true,
            system,
        }
    }

    /// Whether the linktest with these system bytes runs.
    pub fn is_running(self, system: u32) -> bool
        ensures { result ≡ runs self system }
    {
        self.running && self.system == system
    }
}

/// 32 free slots.
pub fn no_slots() -> [Slot; 32]
    ensures { result ≡ no_slots }
{
    [Slot::free(); 32]
}

/// The place of the first slot that is looked for.
pub fn find(slots: [Slot; 32], q: Query) -> Option<usize>
    ensures { result ≡ place_of (found_at q slots) }
{
    slots.iter().position(|s| s.is_match(q))
}

/// Another slot at a place; as they are where there is no such place.
#[tactic(auto, using(crate::proofs::Past::set_past))]
pub fn with_slot(mut slots: [Slot; 32], at: usize, s: Slot) -> [Slot; 32]
    ensures { result ≡ set slots at s }
{
    if at < 32 {
        slots[at] = s;
    }
    slots
}

/// Whether a message may be a primary: a stream of 1 to 127, an odd function but 255.
pub fn is_primary(stream: u8, function: u8) -> bool
    ensures { result ≡ is_primary stream function }
{
    (1..=127).contains(&stream) && function % 2 == 1 && function <= 253
}
