//! Sums of whole numbers, exactly.

ghost use Rattle.std.specs.Prelude.{◌≡◌, ◌+◌, ◌-ℤ◌, drop, length, option_to_list, slice_get};
ghost use Rattle.window.specs.Sums.{total};

use crate::summed::Summed;
use crate::tally::Tally;
use crate::tally_window::WindowTally;
use ringbuffer::RingBuffer;

/// The sum of some i64.
#[derive(Drop)]
pub struct Sum {
    sum: i128,
}

impl Tally<i64> for Sum {
    ghost use Rattle.window.specs.Sums.{IsSumOf};

    ghost tells = { λ s xs. IsSumOf xs s.sum };

    fn none() -> Self {
        Sum { sum: 0 }
    }

    fn add(&mut self, newest: &i64) {
        self.sum += i128::from(*newest);
    }

    fn remove(&mut self, oldest: &i64) {
        self.sum -= i128::from(*oldest);
    }

    fn slide(&mut self, oldest: &Option<i64>, newest: &i64) {
        self.sum += change(oldest, *newest);
    }
}

impl Summed<i64> for Sum {
    ghost use Rattle.window.specs.Sums.{total};

    ghost sum_of = { total };

    fn sum(&self) -> i128 {
        self.sum
    }
}

/// Returns by how much a sum changes as `oldest`, if there is one, goes and `newest` comes.
#[inline]
fn change(oldest: &Option<i64>, newest: i64) -> i128
    ensures { result ≡ newest -ℤ total (option_to_list oldest.now) }
{
    // A 0 for no item, so that no branch is taken.
    i128::from(newest) - i128::from(oldest.unwrap_or(0))
}

/// A window over a ring of samples, with their sum.
pub type WindowSum<R> = WindowTally<i64, Sum, R>;

impl<R: RingBuffer<i64>> WindowTally<i64, Sum, R> {
    /// Takes out the oldest sample, as `dequeue` does.
    pub fn forget_oldest(&mut self) -> Option<i64>
        ensures value { result ≡ slice_get self.old.contents 0 }
        ensures rest { self.new.contents ≡ drop 1 self.old.contents }
        ensures limit { self.new.limit ≡ self.old.limit }
        ensures added { self.new.added ≡ self.old.added }
        ensures removed { self.new.removed ≡ self.old.removed + length (option_to_list result) }
    {
        self.dequeue()
    }
}
