//! A window over a ring of floating-point numbers, with their sum and their mean.

ghost use Rattle.std.specs.Prelude.{◌≡◌, ◌↔◌, [], IfSome, IsNone};
ghost use Rattle.window.specs.FloatSums.{IsFloatMean, IsFloatSum};

use crate::keeps_fold::KeepsFold;
use crate::two_stacks::WindowFolded;
use ringbuffer::RingBuffer;
use std::num::nearest_usize_to_f64;

/// A sample in the ring of a `WindowFloatSum`, and what the window keeps with it.
#[derive(Clone, Copy)]
pub struct Summand {
    sample: f64,
    // The sum of the samples after it, up to the last that was summed with it.
    after: f64,
}

impl Summand {
    /// Returns `sample` as one that no window has summed.
    pub fn new(sample: f64) -> Self
        ensures { result.sample ≡ sample }
    {
        Summand {
            sample,
            after: -0.0,
        }
    }

    /// Returns the sample.
    pub fn sample(&self) -> f64
        ensures { result ≡ self.now.sample }
    {
        self.sample
    }
}

impl KeepsFold<f64> for Summand {
    ghost use Rattle.window.specs.FloatSums.{IsFloatSum};

    ghost item_of = { λ k. k.sample };

    ghost after_of = { λ k. k.after };

    ghost folds_to = { IsFloatSum };

    fn new(item: f64) -> Self {
        Summand::new(item)
    }

    fn item(&self) -> &f64 {
        &self.sample
    }

    fn after(&self) -> &f64 {
        &self.after
    }

    fn set_after(&mut self, after: f64) {
        self.after = after;
    }

    fn into_item(self) -> f64 {
        self.sample
    }

    fn release(self, after: &mut f64) -> f64 {
        *after = self.after;
        self.sample
    }

    fn neutral() -> f64 {
        -0.0
    }

    fn combine(earlier: &f64, later: &f64) -> f64 {
        *earlier + *later
    }
}

/// A ring of floating-point samples, and their sum, which is kept: to read it takes one addition, and a push takes two on
/// average.
///
/// Each sum is made of the samples that the window holds, added in order, but grouped in some way: nothing is ever
/// subtracted. So errors don't pile up, and an infinity or a NaN leaves the sum with its sample.
///
/// A contract sees a window as its samples and the limit of its ring, the number of additions and that of the samples which
/// have yet to be added to those after them. The two numbers together rise by 2 at a push, by 1 at a push that is refused,
/// and at no other call. A push onto a full window, and a `dequeue`, sums all samples where none is summed, so the worst
/// call takes as many additions as there are samples.
pub type WindowFloatSum<R> = WindowFolded<f64, Summand, R>;

impl<R: RingBuffer<Summand>> WindowFolded<f64, Summand, R> {
    /// Returns the sum of the samples, in order and by some placing of brackets; -0.0 if there is none, as std does.
    ///
    /// Where the brackets stand depends on the calls before, so equal contents can show different sums, even an infinity
    /// and a number. As long as no addition overflows, the sum of n samples is off by at most (n - 1) 2^-53 of the sum of
    /// their absolute values, to first order.
    pub fn sum(&self) -> f64
        ensures { IsFloatSum self.now.contents result }
    {
        self.kept_fold()
    }

    /// Returns the mean of the samples, or `None` if there is none: their sum over their number.
    pub fn mean(&self) -> Option<f64>
        ensures none { IsNone result ↔ (self.now.contents ≡ []) }
        ensures mean { IfSome result (IsFloatMean self.now.contents) }
    {
        let count = self.len();
        if count == 0 {
            return None;
        }
        Some(self.sum() / nearest_usize_to_f64(count))
    }
}
