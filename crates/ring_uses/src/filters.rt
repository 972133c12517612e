//! Filters of a signal, sample by sample, in arrays.

ghost use Rattle.std.specs.Prelude.{◌≡◌, ◌<◌, ◌/◌, [], ◌∷◌, ◌++◌, IsTrue, List, Some, false, ℤ, length, nat_eq, slice_get};
ghost use Rattle.std.specs.List.{list_all};
ghost use Rattle.std.specs.List.Sorted.{IsPermutation, IsSorted};
ghost use Rattle.std.specs.Ordering.{int_cmp};
ghost use Rattle.ringbuffer.specs.Contents.{keep_last, overwritten};

use ringbuffer::{ConstGenericRingBuffer, CopyRingBuffer, RingBuffer, RingBufferExt};
use std::marker::Model;

/// The last five samples, oldest first, and their median.
#[derive(Drop)]
pub struct MedianOfFive {
    samples: CopyRingBuffer<i32, 5>,
}

impl Model for MedianOfFive {
    ghost use Rattle.std.specs.Prelude.{List, ℤ};

    ghost Value = { List ℤ };

    ghost view = { λ m. m.samples.items };
}

impl MedianOfFive {
    /// Makes a filter that has seen no sample.
    pub fn new() -> Self
        ensures { result ≡ [] }
    {
        MedianOfFive {
            samples: CopyRingBuffer::new(0),
        }
    }

    /// Takes in a sample. The oldest of five gives way for it.
    pub fn push(&mut self, sample: i32)
        ensures { self.new ≡ keep_last (Some 5) (self.old ++ sample ∷ []) }
    {
        let _ = self.samples.push(sample);
    }

    /// Returns the sample in the middle of those that are held, in order of size, or `None` before the first.
    pub fn median(&self) -> Option<i32>
        ensures { (sorted : List ℤ) × IsPermutation self.now sorted × IsSorted int_cmp sorted
            × (result ≡ slice_get sorted (length sorted / 2)) }
    {
        let mut samples = self.samples.copied();
        let sorted = samples.make_contiguous();
        sorted.sort_unstable();
        sorted.get(sorted.len() / 2).copied()
    }
}

/// A level without its bounces: it changes once `N` readings in a row agree.
#[derive(Drop)]
pub struct Debouncer<const N: usize> {
    readings: CopyRingBuffer<u8, N>,
    level: u8,
}

impl<const N: usize> Model for Debouncer<N> {
    ghost use Rattle.std.specs.Prelude.{List, ℕ};

    // The last readings, oldest first, and the level.
    ghost Value = { List ℕ × ℕ };

    ghost view = { λ d. (d.readings.items, d.level) };
}

impl<const N: usize> Debouncer<N> {
    /// Makes a debouncer that has read nothing, and begins at a level.
    pub fn new(level: u8) -> Self
        requires { 0 < N }
        ensures { result ≡ ([], level) }
    {
        Debouncer {
            readings: CopyRingBuffer::new(level),
            level,
        }
    }

    /// Takes in a reading. Returns the level, which is the reading if it agrees with those before it, `N` in all.
    pub fn read(&mut self, reading: u8) -> u8
        ensures readings { self.new.0 ≡ keep_last (Some N) (self.old.0 ++ reading ∷ []) }
        ensures level { result ≡ self.new.1 }
        ensures steady { length self.new.0 ≡ N
            → IsTrue (list_all (λ r. nat_eq r reading) self.new.0) → self.new.1 ≡ reading }
        ensures bouncing { list_all (λ r. nat_eq r reading) self.new.0 ≡ false
            → self.new.1 ≡ self.old.1 }
        ensures filling { length self.new.0 < N → self.new.1 ≡ self.old.1 }
    {
        let _ = self.readings.push(reading);
        if self.readings.is_full() && self.readings.iter().all(|r| *r == reading) {
            self.level = reading;
        }
        self.level
    }
}

/// A line that hands out each sample `N` samples later.
#[derive(Drop)]
pub struct DelayLine<const N: usize> {
    samples: ConstGenericRingBuffer<i16, N>,
}

impl<const N: usize> Model for DelayLine<N> {
    ghost use Rattle.std.specs.Prelude.{List, ℤ};

    ghost Value = { List ℤ };

    ghost view = { λ d. d.samples.items };
}

impl<const N: usize> DelayLine<N> {
    /// Makes a line that no sample is on.
    pub fn new() -> Self
        requires { 0 < N }
        ensures { result ≡ [] }
    {
        DelayLine {
            samples: ConstGenericRingBuffer::new(),
        }
    }

    /// Takes in a sample, and returns the one before the last `N`, if there were as many.
    pub fn next(&mut self, sample: i16) -> Option<i16>
        ensures delayed { result ≡ overwritten (Some N) self.old }
        ensures held { self.new ≡ keep_last (Some N) (self.old ++ sample ∷ []) }
    {
        match self.samples.push(sample) {
            Ok(delayed) => delayed,
            Err(_) => None,
        }
    }
}
