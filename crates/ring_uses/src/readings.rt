//! The least of a sensor's last levels, and the last reading that it gave: a window with its least, and one with a fold of
//! your own.

ghost use Rattle.std.specs.Prelude.{◌≡◌, [], ◌∷◌, ◌++◌, IfSome, IsSome, None};
ghost use Rattle.std.specs.Ordering.{int_cmp};
ghost use Rattle.ringbuffer.specs.Contents.{keep_last};
ghost use Rattle.window.specs.Laws.{combined};
ghost use Rattle.window.specs.Least.{IsFirstLeast};
ghost use Rattle.ring_uses.specs.Readings.{latest};

use window::{AllocWindowFold, AllocWindowMin, Monoid};

/// A reading, or `None` where the sensor gave none. Of two the later one counts, if there is one.
#[derive(Clone, Copy, Debug, PartialEq, Eq)]
pub struct Latest(pub Option<i64>);

impl Monoid for Latest {
    ghost use Rattle.std.specs.Prelude.{None};
    ghost use Rattle.ring_uses.specs.Readings.{latest, latest_laws};

    ghost neutral = { record { 0 = None } };

    ghost op = { λ x y. record { 0 = latest x.0 y.0 } };

    ghost laws = { latest_laws };

    fn neutral() -> Self {
        Latest(None)
    }

    fn combine(&self, later: &Self) -> Self {
        match later.0 {
            Some(_) => *later,
            None => *self,
        }
    }
}

/// Takes in a level. Returns the least of those that the window then holds.
pub fn lowest(levels: &mut AllocWindowMin<i64>, level: i64) -> Option<i64>
    requires { IsSome levels.old.limit }
    ensures contents { levels.new.contents ≡ keep_last levels.old.limit (levels.old.contents ++ level ∷ []) }
    ensures limit { levels.new.limit ≡ levels.old.limit }
    ensures least { IfSome result (IsFirstLeast int_cmp levels.new.contents) }
{
    let _ = levels.push(level);
    levels.min().copied()
}

/// Takes in a reading. Returns the last that the sensor gave of those that the window then holds.
pub fn last_given(readings: &mut AllocWindowFold<Latest>, reading: Option<i64>) -> Option<i64>
    ensures { result ≡ (combined (record { 0 = None }) (λ x y. record { 0 = latest x.0 y.0 }) readings.new.contents).0 }
{
    let _ = readings.push(Latest(reading));
    readings.fold().0
}
