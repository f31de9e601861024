//! Counts that contracts see, and that take no bytes at run time. (own)
ghost use Rattle.std.specs.Prelude.{◌≡◌, ℕ, ◌+◌};

mod mark;

use mark::GhostNumber;
use std::marker::Model;

/// A number of steps, calls, failures or bytes. Contracts see it as a natural number, which starts
/// at 0, only grows and has no greatest value. It has no bytes, so no code can read it.
#[derive(Drop)]
pub struct Steps {
    taken: GhostNumber,
}

impl Model for Steps {
    ghost Value = { ℕ };

    ghost view = { λ s. s.taken.total };
}

impl Steps {
    /// No step yet.
    pub fn new() -> Steps
        ensures { result ≡ 0 }
    {
        Steps {
            taken: GhostNumber::new(),
        }
    }

    /// One step more.
    pub fn tick(&mut self)
        ensures { self.new ≡ self.old + 1 }
    {
        self.taken.grow(1);
    }

    /// `n` steps more, as for the bytes of one read.
    pub fn grow_by(&mut self, n: usize)
        ensures { self.new ≡ self.old + n }
    {
        self.taken.grow(n);
    }
}
