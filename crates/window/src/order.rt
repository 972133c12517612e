//! Orders by which a window can know its least item.

ghost use Rattle.std.specs.Prelude.{◌≡◌};
ghost use Rattle.std.specs.Cmp.{IsTotalOrder};
ghost use Rattle.std.specs.Ordering.{is_gt};
ghost use Rattle.std.specs.declared.cmp.Ordering.{Ordering};

/// A total order of items, other than their own if need be: by a key of theirs, for example.
pub trait Order<T>: Drop {
    // How two items compare.
    ghost cmp: { T → T → Ordering };

    /// Returns whether `x` comes after `y` in this order.
    fn is_above(x: &T, y: &T) -> bool
        ensures { result ≡ is_gt (cmp x.now y.now) };

    ghost total: { IsTotalOrder cmp };
}

/// The items' own order.
#[derive(Drop)]
pub struct Ascending;

impl<T: Ord> Order<T> for Ascending {
    ghost cmp = { T.cmp };

    ghost total = { T.total };

    #[inline]
    fn is_above(x: &T, y: &T) -> bool {
        x.cmp(y).is_gt()
    }
}

/// The items' own order, turned round.
#[derive(Drop)]
pub struct Descending;

impl<T: Ord> Order<T> for Descending {
    ghost use Rattle.std.proofs.Common.{rules};

    ghost cmp = { λ x y. T.cmp y x };

    ghost total = { Prim.search rules };

    #[inline]
    fn is_above(x: &T, y: &T) -> bool {
        y.cmp(x).is_gt()
    }
}
