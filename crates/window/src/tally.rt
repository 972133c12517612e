//! What a window can tell of its items when one is added and one removed at a time.

ghost use Rattle.std.specs.Prelude.{◌+◌, ◌<◌, ◌^◌, [], ◌∷◌, ◌++◌, List, length, option_to_list};

/// What is told of a list of items, and can be told anew as an item comes last and as the first one goes: their sum, for
/// example.
pub trait Tally<T>: Drop + Sized {
    // This is the tally of these items.
    ghost tells: { Self → List T → Type 0 };

    /// Returns the tally of no item.
    fn none() -> Self
        ensures { tells result [] };

    /// Adds `newest`, which comes last of fewer than 2^64 items.
    fn add(&mut self, newest: &T)
        requires { (xs : List T) × tells self.old xs × (length xs + 1 < 2 ^ 64) }
        ensures { (xs : List T) → tells self.old xs → tells self.new (xs ++ newest.now ∷ []) };

    /// Removes `oldest`, the first of fewer than 2^64 items.
    fn remove(&mut self, oldest: &T)
        requires { (xs : List T) × tells self.old (oldest.now ∷ xs) × (length xs + 1 < 2 ^ 64) }
        ensures { (xs : List T) → tells self.old (oldest.now ∷ xs) → tells self.new xs };

    /// Removes `oldest`, if there is one, which is the first of fewer than 2^64 items, and adds `newest`, which then comes
    /// last.
    #[inline]
    fn slide(&mut self, oldest: &Option<T>, newest: &T)
        requires { (xs : List T) × Self.tells self.old (option_to_list oldest.now ++ xs)
            × (length xs + 1 < 2 ^ 64) }
        ensures { (xs : List T) → Self.tells self.old (option_to_list oldest.now ++ xs)
            → Self.tells self.new (xs ++ newest.now ∷ []) }
    {
        match oldest {
            Some(item) => {
                self.remove(item);
                self.add(newest);
            }
            None => self.add(newest),
        }
    }
}
