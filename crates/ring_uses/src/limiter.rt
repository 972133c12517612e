//! A limit on how many events are let through within a span of time.

ghost use Rattle.std.specs.Prelude.{◌≡◌, ℕ, ◌-◌, ◌<◌, ◌≤◌, ◌↔◌, [], ◌∷◌, ◌++◌, IfOk, IsTrue, Some, length, slice_get};
ghost use Rattle.std.specs.Bool.{OnFalse, OnTrue};
ghost use Rattle.ringbuffer.specs.Contents.{keep_last};

use ringbuffer::{AllocRingBuffer, RingBuffer};
use std::alloc::{AllocError, Global};
use std::marker::Model;

/// The times of the last events that were let through. Of a full number, another is let through only once the oldest is
/// as long ago as the span.
#[derive(Drop)]
pub struct RateLimiter {
    times: AllocRingBuffer<u64>,
    span: u64,
}

impl Model for RateLimiter {
    ghost use Rattle.ring_uses.specs.Events.{Events};

    ghost Value = { Events };

    ghost view = { λ l. record { times = l.times.items; most = l.times.capacity; span = l.span } };
}

impl RateLimiter {
    /// Makes a limiter that lets `most` events through within a span of time.
    ///
    /// # Errors
    ///
    /// Where memory was refused.
    pub fn new(alloc: Global, most: usize, span: u64) -> Result<Self, AllocError>
        requires { 0 < most }
        ensures { IfOk result (λ l. l ≡ record { times = []; most = most; span = span }) }
    {
        Ok(RateLimiter {
            times: AllocRingBuffer::new(alloc, most)?,
            span,
        })
    }

    /// Returns whether an event is let through at the time `now`, which is then remembered.
    pub fn allow(&mut self, now: u64) -> bool
        ensures room { length self.old.times < self.old.most → IsTrue result }
        ensures full { (oldest : ℕ) → length self.old.times ≡ self.old.most
            → slice_get self.old.times 0 ≡ Some oldest
            → IsTrue result ↔ (self.old.span ≤ now - oldest) }
        ensures remembered { OnTrue result (self.new
            ≡ record self.old { times = keep_last (Some self.old.most) (self.old.times ++ now ∷ []) }) }
        ensures refused { OnFalse result (self.new ≡ self.old) }
    {
        if self.times.is_full() && self.is_too_soon(now) {
            return false;
        }
        let _ = self.times.push(now);
        true
    }

    /// Returns whether, at the time `now`, the oldest event is less than the span ago.
    fn is_too_soon(&self, now: u64) -> bool
        ensures { (oldest : ℕ) → slice_get self.now.times 0 ≡ Some oldest
            → IsTrue result ↔ (now - oldest < self.now.span) }
    {
        match self.times.front() {
            Some(oldest) => now.saturating_sub(*oldest) < self.span,
            None => false,
        }
    }
}
