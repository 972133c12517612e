//! The keys that were used last.

ghost use Rattle.std.specs.Prelude.{◌≡◌, ℕ, ◌+◌, ◌<◌, [], ◌∷◌, ◌++◌, None, Some, drop, nat_eq, position, take};
ghost use Rattle.ringbuffer.specs.Contents.{keep_last};

use ringbuffer::{ConstGenericRingBuffer, RingBuffer, RingBufferExt};
use std::marker::Model;

/// The keys that were used last, at most `N`, each once and the newest last.
#[derive(Drop)]
pub struct Recent<const N: usize> {
    keys: ConstGenericRingBuffer<u64, N>,
}

impl<const N: usize> Model for Recent<N> {
    ghost use Rattle.std.specs.Prelude.{List, ℕ};

    ghost Value = { List ℕ };

    ghost view = { λ r. r.keys.items };
}

impl<const N: usize> Recent<N> {
    /// Makes a list of no keys.
    pub fn new() -> Self
        requires { 0 < N }
        ensures { result ≡ [] }
    {
        Recent {
            keys: ConstGenericRingBuffer::new(),
        }
    }

    /// Notes that a key is used, which is then the newest. Of `N` others the one that was not used for longest gives way.
    pub fn touch(&mut self, key: u64)
        ensures known { (i : ℕ) → position (λ k. nat_eq k key) self.old ≡ Some i
            → self.new ≡ keep_last (Some N) (take i self.old ++ drop (i + 1) self.old ++ key ∷ []) }
        ensures new { position (λ k. nat_eq k key) self.old ≡ None
            → self.new ≡ keep_last (Some N) (self.old ++ key ∷ []) }
    {
        if let Some(at) = self.keys.iter().position(|k| *k == key) {
            let _ = self.keys.remove(at);
        }
        let _ = self.keys.push(key);
    }
}
