//! The least and the greatest of some numbers, and the box round some points, as monoids.

ghost use Rattle.std.specs.Prelude.{◌≡◌};
ghost use Rattle.window.specs.Extremes.{join_boxes};

use crate::monoid::Monoid;

/// The least of some numbers, or `None` of none.
#[derive(Clone, Copy, Debug, PartialEq, Eq)]
pub struct Least(pub Option<i64>);

impl Monoid for Least {
    ghost use Rattle.std.specs.Prelude.{None};
    ghost use Rattle.std.specs.Int.{int_min};
    ghost use Rattle.window.specs.Extremes.{joined};
    ghost use Rattle.window.specs.JoinLaws.{least_laws};

    ghost neutral = { record { 0 = None } };

    ghost op = { λ x y. record { 0 = joined int_min x.0 y.0 } };

    ghost laws = { least_laws };

    fn neutral() -> Self {
        Least(None)
    }

    fn combine(&self, later: &Self) -> Self {
        match (self.0, later.0) {
            (Some(x), Some(y)) => Least(Some(x.min(y))),
            (None, y) => Least(y),
            (x, None) => Least(x),
        }
    }
}

/// The greatest of some numbers, or `None` of none.
#[derive(Clone, Copy, Debug, PartialEq, Eq)]
pub struct Greatest(pub Option<i64>);

impl Monoid for Greatest {
    ghost use Rattle.std.specs.Prelude.{None};
    ghost use Rattle.std.specs.Int.{int_max};
    ghost use Rattle.window.specs.Extremes.{joined};
    ghost use Rattle.window.specs.JoinLaws.{greatest_laws};

    ghost neutral = { record { 0 = None } };

    ghost op = { λ x y. record { 0 = joined int_max x.0 y.0 } };

    ghost laws = { greatest_laws };

    fn neutral() -> Self {
        Greatest(None)
    }

    fn combine(&self, later: &Self) -> Self {
        match (self.0, later.0) {
            (Some(x), Some(y)) => Greatest(Some(x.max(y))),
            (None, y) => Greatest(y),
            (x, None) => Greatest(x),
        }
    }
}

/// A box along the axes, by its least and greatest coordinates, which belong to it.
#[derive(Clone, Copy, Debug, PartialEq, Eq)]
pub struct Corners {
    pub left: i64,
    pub bottom: i64,
    pub right: i64,
    pub top: i64,
}

/// The least box along the axes that holds some points, or `None` of none.
#[derive(Clone, Copy, Debug, PartialEq, Eq)]
pub struct BoundingBox(pub Option<Corners>);

impl BoundingBox {
    /// Returns the box of one point.
    pub fn of_point(x: i64, y: i64) -> Self
        ensures { result ≡ record { 0 = Some (record { left = x; bottom = y; right = x; top = y }) } }
    {
        BoundingBox(Some(Corners {
            left: x,
            bottom: y,
            right: x,
            top: y,
        }))
    }
}

impl Monoid for BoundingBox {
    ghost use Rattle.std.specs.Prelude.{None};
    ghost use Rattle.window.specs.Extremes.{join_boxes, joined};
    ghost use Rattle.window.specs.JoinLaws.{box_laws};

    ghost neutral = { record { 0 = None } };

    ghost op = { λ x y. record { 0 = joined join_boxes x.0 y.0 } };

    ghost laws = { box_laws };

    fn neutral() -> Self {
        BoundingBox(None)
    }

    fn combine(&self, later: &Self) -> Self {
        match (self.0, later.0) {
            (Some(x), Some(y)) => BoundingBox(Some(Corners {
                left: x.left.min(y.left),
                bottom: x.bottom.min(y.bottom),
                right: x.right.max(y.right),
                top: x.top.max(y.top),
            })),
            (None, y) => BoundingBox(y),
            (x, None) => BoundingBox(x),
        }
    }
}
