//! Random calls of windows, whose answers a walk over the samples finds too.

use super::assert_equal;
use ringbuffer::{AllocRingBuffer, RingBuffer};
use std::collections::VecDeque;
use std::fmt::Debug;
use std::process::Abort;
use window::{
    AllocWindowMin, Ascending, Candidate, ConstGenericWindowMax, Descending,
    GrowableAllocWindowFold, Kept, Matrix, Monoid, Sum, WindowFold, WindowLeast, WindowSum,
    WindowTally,
};

/// A number of a series that looks random: the next state, and some of its bits.
pub fn next_number(state: &mut u64) -> u64 {
    *state = state
        .wrapping_mul(6364136223846793005)
        .wrapping_add(1442695040888963407);
    *state >> 40
}

/// A matrix that doesn't commute with others of its kind.
fn matrix_of(sample: i64) -> Matrix {
    Matrix {
        a: sample.cast_unsigned(),
        b: 1,
        c: 2,
        d: 1,
    }
}

/// A call of a window.
#[derive(Clone, Copy, Drop)]
pub enum Call {
    Push(i64),
    Dequeue,
    Clear,
}

/// Makes a call of a window of any kind, in which an item stands for a sample.
macro_rules! call_window {
    ($rt:expr, $window:expr, $call:expr, |$sample:ident| $item:expr) => {
        match $call {
            Call::Push($sample) => assert!($rt; $window.push($item).is_ok()),
            Call::Dequeue => {
                let _ = $window.dequeue();
            }
            Call::Clear => $window.clear(),
        }
    };
}

pub(crate) use call_window;

/// A window of samples, whose answer a walk over them finds too.
pub trait Sliding: Drop + Sized {
    type Answer: PartialEq + Debug + Drop;

    fn call(&mut self, rt: &impl Abort, call: Call);

    fn answer(&self) -> Self::Answer;

    fn by_walk(samples: &VecDeque<i64>) -> Self::Answer;

    /// After each of 10,000 random calls the window answers what a walk over the last `limit` samples finds. Dequeues keep
    /// a window that doesn't overwrite to that length.
    fn assert_agrees_with_walk(
        mut self,
        rt: &(impl Abort + AllocGlobal),
        limit: usize,
        overwrites: bool,
    ) {
        let mut samples = VecDeque::new(rt.alloc());
        let mut state = 1u64;
        for step in 0..10_000u32 {
            let number = next_number(&mut state);
            if number % 512 == 0 {
                self.call(rt, Call::Clear);
                samples.clear();
            } else if number % 8 == 1 {
                self.call(rt, Call::Dequeue);
                let _ = samples.pop_front();
            } else {
                // Few numbers, so that many are equal.
                let sample = ((number / 512) % 16).cast_signed().wrapping_sub(8);
                if samples.len() >= limit {
                    if !overwrites {
                        self.call(rt, Call::Dequeue);
                    }
                    let _ = samples.pop_front();
                }
                self.call(rt, Call::Push(sample));
                samples.push_back(sample).expect(rt, "memory");
            }
            let wanted = Self::by_walk(&samples);
            assert_equal(rt, (step, self.answer()), (step, wanted));
        }
    }
}

impl<R: RingBuffer<Candidate<i64>> + Drop> Sliding for WindowLeast<i64, Ascending, R> {
    type Answer = Option<i64>;

    fn call(&mut self, rt: &impl Abort, call: Call) {
        call_window!(rt, self, call, |sample| sample);
    }

    fn answer(&self) -> Option<i64> {
        self.min().copied()
    }

    fn by_walk(samples: &VecDeque<i64>) -> Option<i64> {
        samples.iter().copied().min()
    }
}

impl<R: RingBuffer<Candidate<i64>> + Drop> Sliding for WindowLeast<i64, Descending, R> {
    type Answer = Option<i64>;

    fn call(&mut self, rt: &impl Abort, call: Call) {
        call_window!(rt, self, call, |sample| sample);
    }

    fn answer(&self) -> Option<i64> {
        self.max().copied()
    }

    fn by_walk(samples: &VecDeque<i64>) -> Option<i64> {
        samples.iter().copied().max()
    }
}

impl<R: RingBuffer<i64> + Drop> Sliding for WindowTally<i64, Sum, R> {
    type Answer = i128;

    fn call(&mut self, rt: &impl Abort, call: Call) {
        call_window!(rt, self, call, |sample| sample);
    }

    fn answer(&self) -> i128 {
        self.sum()
    }

    fn by_walk(samples: &VecDeque<i64>) -> i128 {
        let mut sum = 0i128;
        for sample in samples.iter() {
            sum = sum.wrapping_add(i128::from(*sample));
        }
        sum
    }
}

impl<R: RingBuffer<Kept<Matrix>> + Drop> Sliding for WindowFold<Matrix, R> {
    type Answer = Matrix;

    fn call(&mut self, rt: &impl Abort, call: Call) {
        call_window!(rt, self, call, |sample| matrix_of(sample));
    }

    fn answer(&self) -> Matrix {
        self.fold()
    }

    fn by_walk(samples: &VecDeque<i64>) -> Matrix {
        let mut product = Matrix::neutral();
        for sample in samples.iter() {
            product = product.combine(&matrix_of(*sample));
        }
        product
    }
}

#[test]
fn random_calls(rt: HostRuntime) {
    let least = AllocWindowMin::<i64>::on_heap(rt.alloc(), 20).expect(&rt, "memory");
    least.assert_agrees_with_walk(&rt, 20, true);
    ConstGenericWindowMax::<i64, 7>::in_array().assert_agrees_with_walk(&rt, 7, true);
    let ring = AllocRingBuffer::<i64>::new(rt.alloc(), 20).expect(&rt, "memory");
    WindowSum::new(ring).assert_agrees_with_walk(&rt, 20, true);
    let product = GrowableAllocWindowFold::<Matrix>::growable(rt.alloc());
    product.assert_agrees_with_walk(&rt, 20, false);
}
