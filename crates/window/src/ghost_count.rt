//! A count that only clauses read.

ghost use Rattle.std.specs.Prelude.{◌≡◌, ◌+◌};

use std::marker::Model;
use std::snapshot::Snapshot;

/// Never, or once more than before.
#[derive(Drop)]
enum Times {
    Never,
    OnceMore(Snapshot<Snapshot<Times>>),
}

/// How often something was done. It takes no bytes, and no code reads it.
#[derive(Drop)]
pub struct GhostCount {
    times: Snapshot<Times>,
}

impl Model for GhostCount {
    ghost use Rattle.std.specs.Prelude.{ℕ};
    ghost use Rattle.window.specs.GhostCount.{number};

    ghost Value = { ℕ };

    ghost view = { λ c. number c.times.value };
}

impl GhostCount {
    /// Returns a count of 0.
    pub(crate) fn zero() -> GhostCount
        ensures { result ≡ 0 }
    {
        GhostCount {
            times: Snapshot::of(&Times::Never),
        }
    }

    /// Counts once more.
    #[inline]
    pub(crate) fn add_one(&mut self)
        ensures { self.new ≡ self.old + 1 }
    {
        let before = Snapshot::of(&self.times);
        self.times = Snapshot::of(&Times::OnceMore(before));
    }
}
