//! Windows that know the sum of their samples, and so the mean.

ghost use Rattle.std.specs.Prelude.{◌≡◌, ◌↔◌, [], pos, ℤ, IfSome, IsNone, List, int_div, length};

use crate::fraction::Fraction;
use crate::tally::Tally;
use crate::tally_window::WindowTally;
use ringbuffer::RingBuffer;

/// A tally that tells what its items add up to.
pub trait Summed<T>: Tally<T> {
    // What these items add up to.
    ghost sum_of: { List T → ℤ };

    /// Returns the sum.
    fn sum(&self) -> i128
        ensures { (xs : List T) → Self.tells self.now xs → result ≡ sum_of xs };
}

impl<T: Copy, S: Summed<T>, R: RingBuffer<T>> WindowTally<T, S, R> {
    /// Returns the sum of the samples.
    pub fn sum(&self) -> i128
        ensures { result ≡ S.sum_of self.now.contents }
    {
        self.tally().sum()
    }

    /// Returns the mean of the samples, or `None` if there is none: their sum over their number.
    pub fn mean(&self) -> Option<Fraction>
        ensures none { IsNone result ↔ (self.now.contents ≡ []) }
        ensures numerator { IfSome result (λ f. f.numerator ≡ S.sum_of self.now.contents) }
        ensures denominator { IfSome result (λ f. f.denominator ≡ length self.now.contents) }
    {
        let count = self.len();
        if count == 0 {
            return None;
        }
        Some(Fraction {
            numerator: self.sum(),
            denominator: count as u128,
        })
    }

    /// Returns the mean of the samples, rounded towards zero, or `None` if there is none.
    pub fn rounded_mean(&self) -> Option<i128>
        ensures none { IsNone result ↔ (self.now.contents ≡ []) }
        ensures mean { IfSome result
            (λ m. m ≡ int_div (S.sum_of self.now.contents) (pos (length self.now.contents))) }
    {
        let count = self.len();
        if count == 0 {
            return None;
        }
        Some(self.sum() / count as i128)
    }
}
