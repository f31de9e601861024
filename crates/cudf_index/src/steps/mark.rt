//! The ghost number of `Steps`. Its two functions are proved by hand, and nothing else may set it.
ghost use Rattle.std.specs.Prelude.{◌≡◌, ℕ, ◌+◌};
ghost use Rattle.std.specs.Borrow.{ftrue};

use std::marker::Model;

/// A number that only contracts see.
#[derive(Drop)]
pub(crate) struct GhostNumber {
    pub(crate) ghost total: { ℕ },
}

impl Model for GhostNumber {
    ghost also_owns = { λ _. ftrue };
}

impl GhostNumber {
    pub(crate) fn new() -> GhostNumber
        ensures { result.total ≡ 0 }
    {
        GhostNumber {}
    }

    pub(crate) fn grow(&mut self, _by: usize)
        ensures { self.new.total ≡ self.old.total + _by }
    {}
}
