//! The number of items of which a predicate holds.

ghost use Rattle.std.specs.Prelude.{◌≡◌, Bool};

use crate::tally::Tally;
use std::marker::PhantomData;

/// A predicate of items.
pub trait Predicate<T>: Drop {
    // It holds of this item.
    ghost holds: { T → Bool };

    /// Returns whether the predicate holds of `item`.
    fn holds(item: &T) -> bool
        ensures { result ≡ holds item.now };
}

/// The number of items of which the predicate `P` holds.
#[derive(Drop)]
pub struct CountIf<P> {
    count: usize,
    predicate: PhantomData<P>,
}

impl<P> CountIf<P> {
    /// Returns the number.
    pub fn get(&self) -> usize
        ensures { result ≡ self.now.count }
    {
        self.count
    }
}

impl<T, P: Predicate<T>> Tally<T> for CountIf<P> {
    ghost use Rattle.std.specs.Prelude.{◌≡◌, count_by};

    ghost tells = { λ s xs. s.count ≡ count_by P.holds xs };

    fn none() -> Self {
        CountIf {
            count: 0,
            predicate: PhantomData,
        }
    }

    fn add(&mut self, newest: &T) {
        if P::holds(newest) {
            self.count += 1;
        }
    }

    fn remove(&mut self, oldest: &T) {
        if P::holds(oldest) {
            self.count -= 1;
        }
    }
}
