//! What a window can keep the fold of.

ghost use Rattle.std.specs.Prelude.{◌≡◌};
ghost use Rattle.window.specs.Laws.{MonoidLaws};

/// Values of which two combine to one, with a neutral value that changes none.
///
/// It doesn't matter which neighbours combine first, but their order may: `combine` takes the earlier value first.
///
/// The laws are owed for the values that code can have, which `valid` tells: a value with a u64 in it, for example, says that
/// the number is below 2^64 where a law needs it. Where none does, leave `valid` out.
pub trait Monoid: Drop + Sized {
    // Code can have this value.
    ghost valid: { Self → Type 0 } = { λ _. Unit {0} };

    // The neutral value.
    ghost neutral: { Self };

    // What an earlier value and a later one combine to.
    ghost op: { Self → Self → Self };

    /// Returns the neutral value.
    fn neutral() -> Self
        ensures { result ≡ neutral };

    /// Returns what this value and a `later` one combine to.
    fn combine(&self, later: &Self) -> Self
        ensures value { result ≡ op self.now later.now }
        ensures earlier { valid self.now }
        ensures later { valid later.now };

    ghost laws: { MonoidLaws valid neutral op };
}
