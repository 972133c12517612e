//! An undo history of a bounded depth.

ghost use Rattle.std.specs.Prelude.{◌≡◌, ◌-◌, ◌<◌, ◌≤◌, ◌↔◌, [], ◌∷◌, ◌++◌, IfNone, IfOk, IfSome, IsNone, Some, length, take};
ghost use Rattle.ringbuffer.specs.Contents.{keep_last};

use ringbuffer::{AllocRingBuffer, RingBuffer};
use std::alloc::{AllocError, Global};
use std::marker::Model;

/// The newest recorded states that were not undone, at most `depth` of them.
#[derive(Drop)]
pub struct History<T> {
    states: AllocRingBuffer<T>,
}

impl<T> Model for History<T> {
    ghost use Rattle.ring_uses.specs.States.{States};

    ghost Value = { States T };

    ghost view = { λ h. record { states = h.states.items; depth = h.states.capacity } };
}

impl<T: Drop> History<T> {
    /// Makes a history of no states, which is to keep at most `depth`. It asks for memory here and in no other call.
    ///
    /// # Errors
    ///
    /// Where memory was refused.
    pub fn new(alloc: Global, depth: usize) -> Result<Self, AllocError>
        requires { 0 < depth }
        ensures { IfOk result (λ history. history ≡ record { states = []; depth = depth }) }
    {
        Ok(History {
            states: AllocRingBuffer::new(alloc, depth)?,
        })
    }

    /// Returns how many states the history keeps at most.
    pub fn depth(&self) -> usize
        ensures value { result ≡ self.now.depth }
        ensures within { length self.now.states ≤ result }
    {
        self.states.capacity()
    }

    /// Records a state as the newest. At the full depth the oldest one is dropped.
    pub fn record(&mut self, state: T)
        ensures { self.new
            ≡ record self.old {
              states = keep_last (Some self.old.depth)
                  (self.old.states ++ state ∷ []);
            } }
    {
        let _ = self.states.push(state);
    }

    /// Takes back the newest state that was not undone.
    pub fn undo(&mut self) -> Option<T>
        ensures newest { IfSome result (λ state. self.old.states ≡ self.new.states ++ state ∷ []) }
        ensures none { IsNone result ↔ (self.old.states ≡ []) }
        ensures unchanged { IfNone result (self.new ≡ self.old) }
        ensures depth { self.new.depth ≡ self.old.depth }
    {
        self.states.pop_back()
    }

    /// Takes back the newest `count` states, or all where there are fewer, and drops them.
    pub fn undo_many(&mut self, count: usize)
        ensures { self.new
            ≡ record self.old { states = take (length self.old.states - count) self.old.states } }
    {
        self.states
            .truncate(self.states.len().saturating_sub(count));
    }
}
