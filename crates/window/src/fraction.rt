//! Fractions of whole numbers.

/// A whole number over another, not reduced.
#[derive(Clone, Copy, Debug, PartialEq, Eq)]
pub struct Fraction {
    pub numerator: i128,
    pub denominator: u128,
}
