// The fresh number: the first from the next own number on that no own slot nor the linktest holds.
#![tactic(auto)]

ghost use Rattle.std.specs.Prelude.{◌≡◌};
ghost use Rattle.fresh.specs.Fresh.{is_held, one_more, fresh_of};

use slots::{Linktest, Query, Slot};

/// Whether an own slot or the linktest holds a number.
#[tactic(auto, unfolding(crate::specs::Fresh::is_held))]
pub fn is_held(own: [Slot; 32], t: Linktest, system: u32) -> bool
    ensures { result ≡ is_held own t system }
{
    slots::find(own, Query::Named(system)).is_some() || t.is_running(system)
}

/// One more, wrapping.
// `capture` has the same of 64 bits, by a definition of its own: one call of std each.
#[tactic(auto, unfolding(crate::specs::Fresh::one_more))]
pub fn one_more(n: u32) -> u32
    ensures { result ≡ one_more n }
{
    n.wrapping_add(1)
}

/// The first number from next on that is not held. 32 slots and a linktest hold at most 33, so that the 34th is the last that is looked at.
pub fn fresh_number(own: [Slot; 32], t: Linktest, next: u32) -> u32
    ensures { result ≡ fresh_of own t next }
{
    let mut n = next;
    for _ in 0..33u8 {
        if !is_held(own, t, n) {
            return n;
        }
        n = one_more(n);
    }
    n
}
