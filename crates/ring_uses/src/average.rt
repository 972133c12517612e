//! A moving average over samples.

ghost use Rattle.std.specs.Prelude.{◌≡◌, ◌<◌, ◌↔◌, [], ◌∷◌, ◌++◌, IfSome, IsNone, Some, int_div, length, pos};
ghost use Rattle.ringbuffer.specs.Contents.{keep_last};
ghost use Rattle.window.specs.Sums.{total};

use ringbuffer::ConstGenericRingBuffer;
use std::marker::Model;
use window::WindowSum;

/// The last samples of a series, at most `N`, oldest first, and their mean.
#[derive(Drop)]
pub struct MovingAverage<const N: usize> {
    samples: WindowSum<ConstGenericRingBuffer<i64, N>>,
}

impl<const N: usize> Model for MovingAverage<N> {
    ghost use Rattle.std.specs.Prelude.{◌≡◌, List, Some, ℤ};

    ghost Value = { List ℤ };

    ghost view = { λ a. a.samples.contents };

    ghost invariant = { λ a. a.samples.limit ≡ Some N };
}

impl<const N: usize> MovingAverage<N> {
    /// Makes an average that has seen no sample.
    pub fn new() -> Self
        requires { 0 < N }
        ensures { result ≡ [] }
    {
        MovingAverage {
            samples: WindowSum::new(ConstGenericRingBuffer::new()),
        }
    }

    /// Takes in a sample. The oldest of `N` gives way for it.
    pub fn push(&mut self, sample: i64)
        ensures { self.new ≡ keep_last (Some N) (self.old ++ sample ∷ []) }
    {
        let _ = self.samples.push(sample);
    }

    /// Returns the mean of the samples, rounded towards zero, or `None` before the first.
    pub fn mean(&self) -> Option<i128>
        ensures none { IsNone result ↔ (self.now ≡ []) }
        ensures mean { IfSome result (λ mean. mean ≡ int_div (total self.now) (pos (length self.now))) }
    {
        self.samples.rounded_mean()
    }
}
