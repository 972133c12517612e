//! The polynomial hash of some bytes as a monoid.

ghost use Rattle.std.specs.Prelude.{◌≡◌, ◌+◌, ◌*◌, ◌%◌, ◌<◌};

use crate::monoid::Monoid;
use std::marker::Model;

/// The hash counts modulo this prime, 2^61 - 1.
const MODULUS: u64 = 2305843009213693951;

/// Each byte counts this many times as much as the one after it.
const BASE: u64 = 1000003;

/// The hash of some bytes, read as the digits of a number: the first counts most. With it stands the power of the base for
/// their number.
///
/// A contract sees it as both numbers.
#[derive(Drop)]
pub struct PolynomialHash {
    hash: u64,
    power: u64,
}

impl Model for PolynomialHash {
    ghost use Rattle.window.specs.Hashes.{HashAndPower, IsReduced};

    ghost Value = { HashAndPower };

    ghost view = { λ h. record { hash = h.hash; power = h.power } };

    ghost invariant = { λ h. IsReduced (record { hash = h.hash; power = h.power }) };
}

impl PolynomialHash {
    /// Returns the hash of one byte.
    pub fn of_byte(byte: u8) -> Self
        ensures { result ≡ record { hash = byte; power = BASE } }
    {
        PolynomialHash {
            hash: u64::from(byte),
            power: BASE,
        }
    }

    /// Returns the hash.
    pub fn hash(&self) -> u64
        ensures { result ≡ self.now.hash }
    {
        self.hash
    }
}

impl Monoid for PolynomialHash {
    ghost use Rattle.window.specs.Hashes.{IsReduced, follow, of_nothing};
    ghost use Rattle.window.specs.HashLaws.{hash_laws};

    ghost valid = { IsReduced };

    ghost neutral = { of_nothing };

    ghost op = { follow };

    ghost laws = { hash_laws };

    fn neutral() -> Self {
        PolynomialHash { hash: 0, power: 1 }
    }

    fn combine(&self, later: &Self) -> Self {
        PolynomialHash {
            hash: reduced(self.hash, later.power, later.hash),
            power: reduced(self.power, later.power, 0),
        }
    }
}

/// Returns `x` times `y` and `z` more, modulo the prime, of three numbers below it.
#[inline]
fn reduced(x: u64, y: u64, z: u64) -> u64
    requires x { x < 2305843009213693951 }
    requires y { y < 2305843009213693951 }
    requires z { z < 2305843009213693951 }
    ensures { result ≡ (x * y + z) % 2305843009213693951 }
{
    // Without a division: 2^61 is one more than the prime, so what stands above the lowest 61 bits counts once.
    let number = u128::from(x) * u128::from(y) + u128::from(z);
    let sum = (number >> 61) as u64 + (number & u128::from(MODULUS)) as u64;
    if sum < MODULUS { sum } else { sum - MODULUS }
}
