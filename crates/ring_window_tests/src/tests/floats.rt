//! Windows of floating-point numbers.

use super::assert_equal;
use super::random_calls::{Call, Sliding, call_window};
use ring_test_support::on_ring;
use ringbuffer::{ConstGenericRingBuffer, CopyRingBuffer, RingBuffer, RingBufferExt};
use std::collections::VecDeque;
use std::num::nearest_i64_to_f64;
use std::process::Abort;
use window::{CopyWindowFloatSum, Summand, WindowFloatSum};

#[test]
fn sums_of_floating_point_numbers(rt: HostRuntime) {
    on_ring!(heap, &rt, 3, assert_sums);
    on_ring!(growable, &rt, 2, assert_recovers);
    on_ring!(array, &rt, 2, assert_signs_of_zeros);
    CopyRingBuffer::<Summand, 10>::new(Summand::new(7.0)).assert_ten_tenths(&rt);
}

/// A ring that holds samples already is summed at once. It lends them as they are.
#[test]
fn windows_over_rings_that_hold_samples(rt: HostRuntime) {
    let mut ring = ConstGenericRingBuffer::<Summand, 3>::new();
    for sample in [9.0, 0.5, 1.5, 4.0] {
        let _ = ring.push(Summand::new(sample));
    }
    let mut window = WindowFloatSum::new(ring);
    assert_equal(&rt, (window.sum(), window.mean()), (6.0, Some(2.0)));
    assert_equal(&rt, (window.push(3.5), window.sum()), (Ok(Some(0.5)), 9.0));
    for (summand, sample) in window.ring().iter().zip([1.5, 4.0, 3.5]) {
        assert_equal(&rt, summand.sample(), sample);
    }
}

/// A ring of the samples of a window that sums them.
trait OfSummands: RingBuffer<Summand> + Drop {
    /// A window of three: each sum is of the samples held, and so what is large leaves no trace.
    fn assert_sums(self, rt: &impl Abort) {
        let mut window = WindowFloatSum::new(self);
        assert_equal(rt, (window.mean(), window.is_empty()), (None, true));
        for (sample, gives_way, sum) in [
            (0.5, None, 0.5),
            (0.25, None, 0.75),
            (1e300, None, 1e300),
            (2.0, Some(0.5), 1e300),
            (4.0, Some(0.25), 1e300),
            (-7.5, Some(1e300), -1.5),
            (8.0, Some(2.0), 4.5),
        ] {
            assert_equal(rt, window.push(sample), Ok(gives_way));
            assert_equal(rt, window.sum(), sum);
        }
        assert_equal(rt, (window.mean(), window.len()), (Some(1.5), 3));
        assert_equal(rt, (window.dequeue(), window.sum()), (Some(4.0), 0.5));
        assert_equal(rt, window.mean(), Some(0.25));
        window.clear();
        assert_equal(rt, (window.mean(), window.dequeue()), (None, None));
        assert_equal(rt, (window.push(3.0), window.sum()), (Ok(None), 3.0));
        let ring = window.into_ring();
        assert_equal(rt, ring.front().map(|s| s.sample()), Some(3.0));
    }

    /// A window of two: an infinity and a NaN leave the sum with their samples, and so does what both infinities make.
    fn assert_recovers(self, rt: &impl Abort) {
        let mut window = WindowFloatSum::new(self);
        for (sample, sum) in [
            (1.0, Some(1.0)),
            (f64::INFINITY, Some(f64::INFINITY)),
            (2.0, Some(f64::INFINITY)),
            (3.0, Some(5.0)),
            (f64::NAN, None),
            (4.0, None),
            (5.0, Some(9.0)),
            (f64::INFINITY, Some(f64::INFINITY)),
            (f64::NEG_INFINITY, None),
            (6.0, Some(f64::NEG_INFINITY)),
            (7.0, Some(13.0)),
        ] {
            if window.len() == 2 {
                window.dequeue();
            }
            assert_equal(rt, window.push(sample), Ok(None));
            let found = window.sum();
            assert_equal(rt, if found.is_nan() { None } else { Some(found) }, sum);
        }
        assert_equal(rt, window.mean(), Some(6.5));
    }

    /// Zeros keep the sign that std's sum gives them: no sample is -0.0, and so are negative zeros alone.
    fn assert_signs_of_zeros(self, rt: &impl Abort) {
        let mut window = WindowFloatSum::new(self);
        assert_equal(rt, 1.0 / window.sum(), f64::NEG_INFINITY);
        for (sample, inverse) in [
            (-0.0, f64::NEG_INFINITY),
            (-0.0, f64::NEG_INFINITY),
            (0.0, f64::INFINITY),
            (-0.0, f64::INFINITY),
            (-0.0, f64::NEG_INFINITY),
            (-0.0, f64::NEG_INFINITY),
        ] {
            let _ = window.push(sample);
            assert_equal(rt, (window.sum(), 1.0 / window.sum()), (0.0, inverse));
        }
        let _ = (window.dequeue(), window.dequeue());
        assert_equal(rt, 1.0 / window.sum(), f64::NEG_INFINITY);
    }

    /// Ten tenths: the first time as std adds them up, and never farther from 1 however many have passed.
    fn assert_ten_tenths(self, rt: &impl Abort) {
        let mut window = WindowFloatSum::new(self);
        for _ in 0..10 {
            let _ = window.push(0.1);
        }
        assert_equal(rt, window.sum(), 0.9999999999999999);
        assert_equal(rt, window.mean(), Some(0.09999999999999999));
        for _ in 0..10_000 {
            let _ = window.push(0.1);
            let sum = window.sum();
            assert!(rt; 0.9999999999999999 <= sum && sum <= 1.0);
        }
    }
}

impl<R: RingBuffer<Summand> + Drop> OfSummands for R {}

impl<R: RingBuffer<Summand> + Drop> Sliding for WindowFloatSum<R> {
    type Answer = f64;

    fn call(&mut self, rt: &impl Abort, call: Call) {
        call_window!(rt, self, call, |sample| nearest_i64_to_f64(sample));
    }

    fn answer(&self) -> f64 {
        self.sum()
    }

    fn by_walk(samples: &VecDeque<i64>) -> f64 {
        let samples = samples.iter().map(|sample| nearest_i64_to_f64(*sample));
        samples.sum()
    }
}

/// Sums of small whole numbers are exact, whichever are added first.
#[test]
fn random_whole_numbers(rt: HostRuntime) {
    CopyWindowFloatSum::<12>::in_plain_array().assert_agrees_with_walk(&rt, 12, true);
}
