//! The greatest common divisor as a monoid.

use crate::monoid::Monoid;

/// A number, which combines with another to their greatest common divisor. It is 0 for no number.
#[derive(Clone, Copy, Debug, PartialEq, Eq)]
pub struct Gcd(pub u64);

impl Monoid for Gcd {
    ghost use Rattle.window.specs.Gcd.{gcd};
    ghost use Rattle.window.specs.GcdLaws.{gcd_laws};

    ghost neutral = { record { 0 = 0 } };

    ghost op = { λ x y. record { 0 = gcd x.0 y.0 } };

    ghost laws = { gcd_laws };

    fn neutral() -> Self {
        Gcd(0)
    }

    // Euclid's algorithm.
    fn combine(&self, later: &Self) -> Self {
        let (mut a, mut b) = (self.0, later.0);
        while b != 0 {
            (a, b) = (b, a % b);
        }
        Gcd(a)
    }
}
