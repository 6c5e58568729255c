//! Standard output, and the bytes that it was handed, which only clauses read.
ghost use Rattle.std.specs.Prelude.{◌≡◌, List, ℕ, [], ◌++◌};
ghost use Rattle.std.specs.Borrow.{ftrue};

use std::fmt;
use std::marker::{Model, PhantomData};

// standard output, as a file descriptor
const STDOUT: i32 = 1;

/// Standard output. What cannot be written is lost without a word; a clause reads as `said` what it was handed, in its order.
#[derive(Drop)]
pub struct Stdout {
    marker: PhantomData<u8>,
    pub ghost said: { List ℕ },
}

impl Model for Stdout {
    ghost also_owns = { λ _. ftrue };
}

impl Stdout {
    // Before anything is printed.
    pub(crate) fn new() -> Stdout
        ensures { result.said ≡ [] }
    {
        Stdout {
            marker: PhantomData,
        }
    }

    // For clauses: s is handed over. `io` promises nothing of what it writes, so that only `bytes` ties this to the write.
    fn note(&mut self, _s: &[u8])
        ensures { self.new.said ≡ self.old.said ++ _s.now }
    {}

    /// Writes bytes as they are.
    pub fn bytes(&mut self, s: &[u8])
        ensures { self.new.said ≡ self.old.said ++ s.now }
    {
        io::write_all(STDOUT, s);
        self.note(s);
    }
}

impl fmt::Write for Stdout {
    ghost write_str_gives = { λ s bs t. t.said ≡ s.said ++ bs };

    fn write_str(&mut self, s: &str) -> fmt::Result {
        self.bytes(s.as_bytes());
        Ok(())
    }
}
