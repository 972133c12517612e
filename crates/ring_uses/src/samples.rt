//! A buffer of the latest samples of a signal.

ghost use Rattle.std.specs.Prelude.{◌≡◌, ◌*◌, ◌<◌, [], ◌∷◌, ◌++◌, IfOk, Some};
ghost use Rattle.ringbuffer.specs.Contents.{keep_last};
ghost use Rattle.ring_uses.specs.Signal.{sample_at};

use ringbuffer::{AllocRingBuffer, RingBuffer};
use std::alloc::{AllocError, Global};
use std::marker::Model;

/// The latest samples of a signal that has `rate` samples a second.
#[derive(Drop)]
pub struct SampleBuffer {
    samples: AllocRingBuffer<i32>,
    rate: u32,
}

impl Model for SampleBuffer {
    ghost use Rattle.ring_uses.specs.Signal.{Signal};

    ghost Value = { Signal };

    ghost view = { λ b. record { samples = b.samples.items; rate = b.rate; limit = b.samples.capacity } };
}

impl SampleBuffer {
    /// Makes a buffer of no samples, for `seconds` seconds of a signal that has `rate` samples a second.
    ///
    /// # Errors
    ///
    /// Where memory was refused.
    pub fn new(alloc: Global, rate: u32, seconds: u32) -> Result<Self, AllocError>
        requires rate { 0 < rate }
        requires seconds { 0 < seconds }
        ensures { IfOk result
            (λ buffer. buffer ≡ record { samples = []; rate = rate; limit = rate * seconds }) }
    {
        let samples = AllocRingBuffer::new(alloc, rate as usize * seconds as usize)?;
        Ok(SampleBuffer { samples, rate })
    }

    /// Takes in a sample. A full buffer forgets its oldest one.
    pub fn record(&mut self, sample: i32)
        ensures { self.new ≡ record self.old
            { samples = keep_last (Some self.old.limit) (self.old.samples ++ sample ∷ []) } }
    {
        let _ = self.samples.push(sample);
    }

    /// Returns the last `k` samples, oldest first, or all where there are fewer.
    ///
    /// # Errors
    ///
    /// Where memory was refused.
    pub fn last(&self, alloc: Global, k: usize) -> Result<Vec<i32>, AllocError>
        ensures { IfOk result (λ last. last.items ≡ keep_last (Some k) self.now.samples) }
    {
        let older = self.samples.len().saturating_sub(k);
        let (first, second) = self.samples.as_slices();
        let mut last = Vec::new(alloc);
        last.extend_from_slice(&first[older.min(first.len())..])?;
        last.extend_from_slice(&second[older.saturating_sub(first.len())..])?;
        Ok(last)
    }

    /// Returns the sample at a time, counted in samples from now: -1 is the newest. `None` before the oldest, and from 0 on.
    pub fn at(&self, time: isize) -> Option<i32>
        ensures { result ≡ sample_at self.now.samples time }
    {
        if time >= 0 || time.unsigned_abs() > self.samples.len() {
            return None;
        }
        self.samples.get_signed(time).copied()
    }
}
