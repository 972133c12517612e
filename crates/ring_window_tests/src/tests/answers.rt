//! What windows of each kind answer about a few samples.

use super::assert_equal;
use ringbuffer::{ConstGenericRingBuffer, RingBuffer};
use window::{
    BoundingBox, Candidate, ConstGenericWindowFold, Corners, CountIf, Gcd, Greatest, Kept, Least,
    Monoid, PolynomialHash, Predicate, WindowFold, WindowMin, WindowMoments, WindowSum,
    WindowTally,
};

/// A ring that holds items already is ranked, folded and tallied from the first query on.
#[test]
fn windows_over_rings_that_hold_items(rt: HostRuntime) {
    let mut candidates = ConstGenericRingBuffer::<Candidate<i64>, 3>::new();
    let mut kept = ConstGenericRingBuffer::<Kept<Gcd>, 3>::new();
    let mut samples = ConstGenericRingBuffer::<i32, 3>::new();
    for sample in [40, 12, 18, 30] {
        let _ = candidates.push(Candidate::new(sample));
        let _ = kept.push(Kept::new(Gcd(sample.unsigned_abs())));
        let _ = samples.push(sample as i32);
    }
    let mut least = WindowMin::new(candidates);
    assert_equal(&rt, least.min().copied(), Some(12));
    let _ = least.push(50);
    assert_equal(&rt, least.min().copied(), Some(18));
    let divisor = WindowFold::new(kept);
    assert_equal(&rt, divisor.fold(), Gcd(6));
    let moments = WindowMoments::new(samples);
    assert_equal(&rt, (moments.sum(), moments.sum_of_squares()), (60, 1368));
    assert_equal(&rt, moments.rounded_mean(), Some(20));
    assert!(rt; moments.fits_variance());
    let variance = moments.variance().map(|v| (v.numerator, v.denominator));
    assert_equal(&rt, variance, Some((504, 9)));
}

#[test]
fn means_round_towards_zero(rt: HostRuntime) {
    let mut window = WindowSum::new(ConstGenericRingBuffer::<i64, 2>::new());
    assert_equal(&rt, window.rounded_mean(), None);
    assert!(rt; window.mean().is_none());
    let _ = window.push(-9223372036854775808);
    let _ = window.push(-9223372036854775807);
    assert_equal(&rt, window.rounded_mean(), Some(-9223372036854775807));
    let mean = window.mean().map(|m| (m.numerator, m.denominator));
    assert_equal(&rt, mean, Some((-18446744073709551615, 2)));
}

/// Points in the upper half of the plane.
#[derive(Drop)]
struct Upper;

impl Predicate<(i64, i64)> for Upper {
    ghost use Rattle.std.specs.Prelude.{int_lt, pos};

    ghost holds = { λ p. int_lt (pos 0) p.1 };

    fn holds(item: &(i64, i64)) -> bool {
        0 < item.1
    }
}

#[test]
fn points_in_the_upper_half(rt: HostRuntime) {
    let ring = ConstGenericRingBuffer::<(i64, i64), 2>::new();
    let mut window = WindowTally::<(i64, i64), CountIf<Upper>, _>::new(ring);
    for point in [(0, 1), (3, -2), (5, 6)] {
        let _ = window.push(point);
    }
    assert_equal(&rt, window.tally().get(), 1);
}

#[test]
fn box_round_the_last_points(rt: HostRuntime) {
    let mut window = ConstGenericWindowFold::<BoundingBox, 2>::in_array();
    assert_equal(&rt, window.fold(), BoundingBox(None));
    for (x, y) in [(100, 100), (1, 8), (-4, 2)] {
        let _ = window.push(BoundingBox::of_point(x, y));
    }
    let corners = Corners {
        left: -4,
        bottom: 2,
        right: 1,
        top: 8,
    };
    assert_equal(&rt, window.fold(), BoundingBox(Some(corners)));
}

#[test]
fn least_and_greatest_by_value(rt: HostRuntime) {
    let least = Least(Some(4)).combine(&Least(Some(-3)));
    assert_equal(&rt, least, Least(Some(-3)));
    let greatest = Greatest(Some(4)).combine(&Greatest::neutral());
    assert_equal(&rt, greatest, Greatest(Some(4)));
}

/// The hash of some bytes, read as the digits of a number.
fn hash_of(bytes: &[u8]) -> u128 {
    let mut hash = 0u128;
    for byte in bytes {
        hash = hash.wrapping_mul(1000003).wrapping_add(u128::from(*byte)) % 2305843009213693951;
    }
    hash
}

#[test]
fn hashes_of_the_last_bytes(rt: HostRuntime) {
    let mut window = ConstGenericWindowFold::<PolynomialHash, 5>::in_array();
    let text = b"the quick brown fox";
    for (i, byte) in text.iter().enumerate() {
        let _ = window.push(PolynomialHash::of_byte(*byte));
        let from = i.saturating_sub(4);
        let last = hash_of(text.get(from..=i).expect(&rt, "the last bytes"));
        assert_equal(&rt, (i, u128::from(window.fold().hash())), (i, last));
    }
}
