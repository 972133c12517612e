//! The bytes of a stream that only clauses read.
ghost use Rattle.std.specs.Prelude.{◌≡◌, ℕ, List, [], ◌++◌};
ghost use Rattle.std.specs.Borrow.{ftrue};

use std::marker::Model;

/// The bytes that were written, in order. It takes no bytes, and no code reads it.
#[derive(Drop)]
pub(crate) struct WrittenBytes {
    pub(crate) ghost bytes: { List ℕ },
}

impl Model for WrittenBytes {
    ghost also_owns = { λ _. ftrue };
}

impl WrittenBytes {
    pub(crate) fn none() -> WrittenBytes
        ensures { result.bytes ≡ [] }
    {
        WrittenBytes {}
    }

    /// Returns these bytes and then others.
    #[inline]
    pub(crate) fn and(&self, bytes: &[u8]) -> WrittenBytes
        ensures { result.bytes ≡ self.now.bytes ++ bytes.now }
    {
        WrittenBytes {}
    }
}
