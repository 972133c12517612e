//! What a window can keep beside the items of a ring.

ghost use Rattle.std.specs.Prelude.{◌≡◌, [], ◌∷◌, ◌++◌, List};

/// An item in a ring, with a fold that a window keeps beside it: that of items after it.
///
/// The fold of a list combines its items in order. It may depend on which neighbours combine first, as that of floating-point
/// numbers does.
pub trait KeepsFold<M>: Drop + Sized {
    // The item.
    ghost item_of: { Self → M };

    // What is kept beside it.
    ghost after_of: { Self → M };

    // This is a fold of these items.
    ghost folds_to: { List M → M → Type 0 };

    /// Returns `item` as one that no window has folded.
    fn new(item: M) -> Self
        ensures { item_of result ≡ item };

    /// Returns the item.
    fn item(&self) -> &M
        ensures { result.now ≡ item_of self.now };

    /// Returns what is kept beside the item.
    fn after(&self) -> &M
        ensures { result.now ≡ after_of self.now };

    /// Keeps `after` beside the item.
    fn set_after(&mut self, after: M)
        ensures item { item_of self.new ≡ item_of self.old }
        ensures after { after_of self.new ≡ after };

    /// Returns the item.
    fn into_item(self) -> M
        ensures { result ≡ item_of self };

    /// Returns the item, and puts what is kept beside it into `after`.
    fn release(self, after: &mut M) -> M
        ensures item { result ≡ item_of self }
        ensures after { after.new ≡ after_of self };

    /// Returns the fold of no item.
    fn neutral() -> M
        ensures { folds_to [] result };

    /// Returns what the folds of two lists make for both, one after the other. An item alone is its own fold.
    fn combine(earlier: &M, later: &M) -> M
        ensures both { (xs ys : List M) → folds_to xs earlier.now → folds_to ys later.now
            → folds_to (xs ++ ys) result }
        ensures earlier { folds_to (earlier.now ∷ []) earlier.now }
        ensures later { folds_to (later.now ∷ []) later.now };
}
