//! A push onto a window and its reading.

use crate::case::Case;
use ringbuffer::RingBuffer;
use std::alloc::{AllocError, Global};
use window::{
    AllocWindowFloatSum, AllocWindowFold, AllocWindowMin, AllocWindowSum, AllocWindowTime,
    Candidate, ConstGenericWindowFloatSum, ConstGenericWindowMin, ConstGenericWindowSum, Gcd, Kept,
    Order, Stamped, Summand, WindowFloatSum, WindowFold, WindowLeast, WindowSum, WindowTime,
};

/// Slides the window that a case names over a random walk, and returns what it found, as a number.
pub fn slide(alloc: Global, kind: &str, case: Case<'_>) -> Result<u64, AllocError> {
    let capacity = case.held.max(1);
    Ok(match (kind, case.call) {
        ("heap", "sum") => sum(&mut AllocWindowSum::on_heap(alloc, capacity)?, case.times),
        ("array", "sum") => sum(&mut ConstGenericWindowSum::<1000>::in_array(), case.times),
        ("heap", "float_sum") => float_sum(
            &mut AllocWindowFloatSum::on_heap(alloc, capacity)?,
            case.times,
        ),
        ("array", "float_sum") => float_sum(
            &mut ConstGenericWindowFloatSum::<1000>::in_array(),
            case.times,
        ),
        ("heap", "least") => least(
            &mut AllocWindowMin::<i64>::on_heap(alloc, capacity)?,
            case.times,
        ),
        ("array", "least") => least(
            &mut ConstGenericWindowMin::<i64, 1000>::in_array(),
            case.times,
        ),
        ("heap", "time") => {
            let half = (capacity / 2) as u64;
            time(
                &mut AllocWindowTime::on_heap(alloc, capacity, half.saturating_mul(5))?,
                (capacity as u64).saturating_add(u64::from(case.times)),
            )
        }
        ("heap", "fold") => fold(
            &mut AllocWindowFold::<Gcd>::on_heap(alloc, capacity)?,
            case.times,
        ),
        _ => 0,
    })
}

/// Returns the next number of a walk, after Knuth.
#[inline]
fn next(number: u64) -> u64 {
    number
        .wrapping_mul(6_364_136_223_846_793_005)
        .wrapping_add(1_442_695_040_888_963_407)
}

#[inline(never)]
fn sum<R: RingBuffer<i64>>(window: &mut WindowSum<R>, times: u32) -> u64 {
    let mut number = 7;
    let mut found = 0u64;
    for _ in 0..times {
        number = next(number);
        let _ = window.push((number >> 40) as i64);
        found ^= window.len() as u64;
    }
    found
}

#[inline(never)]
fn float_sum<R: RingBuffer<Summand>>(window: &mut WindowFloatSum<R>, times: u32) -> u64 {
    let mut sample = 0.5;
    let mut found = 0u64;
    for _ in 0..times {
        sample = 1.0 - 0.75 * sample;
        let _ = window.push(sample);
        found ^= u64::from(window.sum() < 0.0);
    }
    found
}

#[inline(never)]
fn least<O: Order<i64>, R: RingBuffer<Candidate<i64>>>(
    window: &mut WindowLeast<i64, O, R>,
    times: u32,
) -> u64 {
    let mut number = 7;
    let mut found = 0u64;
    for _ in 0..times {
        number = next(number);
        let _ = window.push((number >> 40) as i64);
        found ^= window.least().map_or(0, |least| least.cast_unsigned());
    }
    found
}

// The window is filled before. It holds about half as many items as its ring can.
#[inline(never)]
fn time<R: RingBuffer<Stamped<u64>>>(window: &mut WindowTime<u64, R>, pushes: u64) -> u64 {
    let mut number = 7;
    let mut stamp = 0u64;
    let mut found = 0u64;
    for _ in 0..pushes {
        number = next(number);
        stamp = stamp.wrapping_add((number >> 40) % 11);
        let _ = window.push(stamp, number);
        found ^= window.len() as u64;
    }
    found
}

#[inline(never)]
fn fold<R: RingBuffer<Kept<Gcd>>>(window: &mut WindowFold<Gcd, R>, times: u32) -> u64 {
    let mut number = 7;
    let mut found = 0u64;
    for _ in 0..times {
        number = next(number);
        let _ = window.push(Gcd(number >> 40));
        found ^= window.fold().0;
    }
    found
}
