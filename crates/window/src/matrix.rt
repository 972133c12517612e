//! The product of 2x2 matrices as a monoid.

ghost use Rattle.std.specs.Prelude.{◌≡◌, ◌+◌, ◌*◌, ◌%◌, ◌^◌};

use crate::monoid::Monoid;

/// A matrix of two rows, `a b` and `c d`, whose entries count modulo 2^64.
#[derive(Clone, Copy, Debug, PartialEq, Eq)]
pub struct Matrix {
    pub a: u64,
    pub b: u64,
    pub c: u64,
    pub d: u64,
}

impl Monoid for Matrix {
    ghost use Rattle.window.specs.Matrices.{HasEntries, product, unit_matrix};
    ghost use Rattle.window.specs.MatrixLaws.{product_laws};

    ghost valid = { HasEntries };

    ghost neutral = { unit_matrix };

    ghost op = { product };

    ghost laws = { product_laws };

    fn neutral() -> Self {
        Matrix {
            a: 1,
            b: 0,
            c: 0,
            d: 1,
        }
    }

    fn combine(&self, later: &Self) -> Self {
        let (a, b, c, d) = (self.a, self.b, self.c, self.d);
        let (e, f, g, h) = (later.a, later.b, later.c, later.d);
        Matrix {
            a: dot(a, e, b, g),
            b: dot(a, f, b, h),
            c: dot(c, e, d, g),
            d: dot(c, f, d, h),
        }
    }
}

/// Returns the sum of the two products, modulo 2^64.
#[inline]
fn dot(x: u64, y: u64, z: u64, w: u64) -> u64
    ensures { result ≡ (x * y + z * w) % 2 ^ 64 }
{
    x.wrapping_mul(y).wrapping_add(z.wrapping_mul(w))
}
