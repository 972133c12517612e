//! The sum and the sum of the squares of whole numbers, exactly, and their mean and variance.

ghost use Rattle.std.specs.Prelude.{◌≡◌, ◌*◌, ◌-ℤ◌, ◌<◌, ◌≤◌, ◌^◌, ◌↔◌, [], pos, IfSome, IsNone, IsTrue, length};
ghost use Rattle.window.specs.Moments.{square, sum_of_squares};
ghost use Rattle.window.specs.Sums.{total};

use crate::fraction::Fraction;
use crate::summed::Summed;
use crate::tally::Tally;
use crate::tally_window::WindowTally;
use ringbuffer::RingBuffer;

/// The sum of some i32, and that of their squares.
#[derive(Drop)]
pub struct Moments {
    sum: i128,
    squares: u128,
}

impl Moments {
    /// Returns the sum of the squares.
    pub fn squares(&self) -> u128
        ensures { result ≡ self.now.squares }
    {
        self.squares
    }
}

impl Tally<i32> for Moments {
    ghost use Rattle.window.specs.Moments.{AreMomentsOf};

    ghost tells = { λ s xs. AreMomentsOf xs s.sum s.squares };

    fn none() -> Self {
        Moments { sum: 0, squares: 0 }
    }

    fn add(&mut self, newest: &i32) {
        let x = *newest;
        self.sum += i128::from(x);
        self.squares += squared(x);
    }

    fn remove(&mut self, oldest: &i32) {
        let x = *oldest;
        self.sum -= i128::from(x);
        self.squares -= squared(x);
    }
}

impl Summed<i32> for Moments {
    ghost use Rattle.window.specs.Sums.{total};

    ghost sum_of = { total };

    fn sum(&self) -> i128 {
        self.sum
    }
}

/// A window over a ring of samples, with their sum and that of their squares.
pub type WindowMoments<R> = WindowTally<i32, Moments, R>;

impl<R: RingBuffer<i32>> WindowTally<i32, Moments, R> {
    /// Returns the sum of the squares of the samples.
    pub fn sum_of_squares(&self) -> u128
        ensures { result ≡ sum_of_squares self.now.contents }
    {
        self.tally().squares()
    }

    /// Returns whether `variance` may be called.
    pub fn fits_variance(&self) -> bool
        ensures { IsTrue result ↔ (length self.now.contents ≤ 2 ^ 32) }
    {
        self.len() <= 1 << 32
    }

    /// Returns the variance of the samples, or `None` if there is none: their number times the sum of their squares, less
    /// the square of their sum, over the square of their number.
    pub fn variance(&self) -> Option<Fraction>
        requires { length self.now.contents ≤ 2 ^ 32 }
        ensures none { IsNone result ↔ (self.now.contents ≡ []) }
        ensures numerator { IfSome result
            (λ f. f.numerator ≡ pos (length self.now.contents * sum_of_squares self.now.contents)
            -ℤ pos (square (total self.now.contents))) }
        ensures denominator { IfSome result
            (λ f. f.denominator ≡ length self.now.contents * length self.now.contents) }
    {
        let count = self.len() as u128;
        if count == 0 {
            return None;
        }
        let moments = self.tally();
        let size = moments.sum.unsigned_abs();
        Some(Fraction {
            numerator: difference(count * moments.squares(), size * size),
            denominator: count * count,
        })
    }
}

/// Returns `x` less `y`.
fn difference(x: u128, y: u128) -> i128
    requires x { x < 2 ^ 127 }
    requires y { y < 2 ^ 127 }
    ensures { result ≡ pos x -ℤ pos y }
{
    x as i128 - y as i128
}

/// Returns the square of `x`.
#[inline]
fn squared(x: i32) -> u128
    ensures value { result ≡ square x }
    ensures small { result ≤ 2 ^ 62 }
{
    let size = u128::from(x.unsigned_abs());
    size * size
}
