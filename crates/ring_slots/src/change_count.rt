//! A count of changes that only clauses read.
ghost use Rattle.std.specs.Prelude.{◌≡◌, ℕ, ◌+◌};
ghost use Rattle.std.specs.Borrow.{ftrue};

use std::marker::{Model, Send, Sync};

/// A count of slot changes, or the count that `LendsRows::slice_mut` is to set. It takes no bytes.
#[derive(Drop)]
pub struct ChangeCount {
    pub ghost count: { ℕ },
}

impl Model for ChangeCount {
    ghost also_owns = { λ _. ftrue };
}

unsafe impl Send for ChangeCount {}

unsafe impl Sync for ChangeCount {}

impl ChangeCount {
    pub(crate) fn new() -> ChangeCount
        ensures { result.count ≡ 0 }
    {
        ChangeCount {}
    }

    /// Returns the count after `changes` more changes.
    #[inline]
    pub fn after(&self, changes: usize) -> ChangeCount
        ensures { result.count ≡ self.now.count + changes }
    {
        ChangeCount {}
    }
}
