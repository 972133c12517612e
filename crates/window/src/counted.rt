//! Calls that are counted: nothing else in the crate adds an item to a tally, removes one, combines two values or adds two
//! floating-point numbers while a window changes, or compares two items.

ghost use Rattle.std.specs.Prelude.{◌≡◌, ◌+◌, ◌<◌, ◌^◌, [], ◌∷◌, ◌++◌, List, length, option_to_list};
ghost use Rattle.std.specs.Ordering.{is_gt};

use crate::ghost_count::GhostCount;
use crate::keeps_fold::KeepsFold;
use crate::order::Order;
use crate::tally::Tally;

/// A tally, and how often an item was added to it and removed.
#[derive(Drop)]
pub struct CountedTally<S> {
    tally: S,
    added: GhostCount,
    removed: GhostCount,
}

impl<S> CountedTally<S> {
    /// Returns the tally of no item, which has counted nothing.
    pub(crate) fn none<T>() -> Self
    where
        S: Tally<T>,
        ensures tells { S.tells result.tally [] }
        ensures added { result.added ≡ 0 }
        ensures removed { result.removed ≡ 0 }
    {
        CountedTally {
            tally: S::none(),
            added: GhostCount::zero(),
            removed: GhostCount::zero(),
        }
    }

    /// Adds `newest`, and counts it.
    #[inline]
    pub(crate) fn add<T>(&mut self, newest: &T)
    where
        S: Tally<T>,
        requires { (xs : List T) × S.tells self.old.tally xs × (length xs + 1 < 2 ^ 64) }
        ensures tells { (xs : List T) → S.tells self.old.tally xs
            → S.tells self.new.tally (xs ++ newest.now ∷ []) }
        ensures added { self.new.added ≡ self.old.added + 1 }
        ensures removed { self.new.removed ≡ self.old.removed }
    {
        self.added.add_one();
        self.tally.add(newest);
    }

    /// Removes `oldest`, if there is one, and counts it.
    #[inline]
    pub(crate) fn remove<T>(&mut self, oldest: &Option<T>)
    where
        S: Tally<T>,
        requires { (xs : List T) × S.tells self.old.tally (option_to_list oldest.now ++ xs)
            × (length (option_to_list oldest.now ++ xs) < 2 ^ 64) }
        ensures tells { (xs : List T) → S.tells self.old.tally (option_to_list oldest.now ++ xs)
            → S.tells self.new.tally xs }
        ensures added { self.new.added ≡ self.old.added }
        ensures removed { self.new.removed ≡ self.old.removed + length (option_to_list oldest.now) }
    {
        if let Some(item) = oldest {
            self.removed.add_one();
            self.tally.remove(item);
        }
    }

    /// Removes `oldest`, if there is one, adds `newest`, and counts both.
    #[inline]
    pub(crate) fn slide<T>(&mut self, oldest: &Option<T>, newest: &T)
    where
        S: Tally<T>,
        requires { (xs : List T) × S.tells self.old.tally (option_to_list oldest.now ++ xs)
            × (length xs + 1 < 2 ^ 64) }
        ensures tells { (xs : List T) → S.tells self.old.tally (option_to_list oldest.now ++ xs)
            → S.tells self.new.tally (xs ++ newest.now ∷ []) }
        ensures added { self.new.added ≡ self.old.added + 1 }
        ensures removed { self.new.removed ≡ self.old.removed + length (option_to_list oldest.now) }
    {
        self.added.add_one();
        self.tally.slide(oldest, newest);
        if oldest.is_some() {
            self.removed.add_one();
        }
    }

    /// Forgets all items. The counts stay.
    pub(crate) fn clear<T>(&mut self)
    where
        S: Tally<T>,
        ensures tells { S.tells self.new.tally [] }
        ensures added { self.new.added ≡ self.old.added }
        ensures removed { self.new.removed ≡ self.old.removed }
    {
        self.tally = S::none();
    }

    /// Returns the tally.
    #[inline]
    pub(crate) fn tally(&self) -> &S
        ensures { result.now ≡ self.now.tally }
    {
        &self.tally
    }
}

/// Returns what the folds `earlier` and `later` combine to, and counts the call.
#[inline]
pub(crate) fn combined<M, K: KeepsFold<M>>(calls: &mut GhostCount, earlier: &M, later: &M) -> M
    ensures both { (xs ys : List M) → K.folds_to xs earlier.now → K.folds_to ys later.now
        → K.folds_to (xs ++ ys) result }
    ensures earlier { K.folds_to (earlier.now ∷ []) earlier.now }
    ensures later { K.folds_to (later.now ∷ []) later.now }
    ensures calls { calls.new ≡ calls.old + 1 }
{
    calls.add_one();
    K::combine(earlier, later)
}

/// Returns whether `x` is above `y`, and counts the comparison.
#[inline]
pub(crate) fn is_above<T, O: Order<T>>(compared: &mut GhostCount, x: &T, y: &T) -> bool
    ensures value { result ≡ is_gt (O.cmp x.now y.now) }
    ensures compared { compared.new ≡ compared.old + 1 }
{
    compared.add_one();
    O::is_above(x, y)
}
