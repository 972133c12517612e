//! Names of windows over each type of ring.

use crate::float_sum::{Summand, WindowFloatSum};
use crate::fold_window::{Kept, WindowFold};
use crate::least_window::{WindowMax, WindowMin};
use crate::moments::WindowMoments;
use crate::monotonic_queue::Candidate;
use crate::sum::WindowSum;
use crate::time_window::{Stamped, WindowTime};
use ringbuffer::{
    AllocRingBuffer, ConstGenericRingBuffer, CopyRingBuffer, GrowableAllocRingBuffer,
};

/// A `WindowFold` over a heap ring.
pub type AllocWindowFold<M> = WindowFold<M, AllocRingBuffer<Kept<M>>>;

/// A `WindowFold` over an array ring.
pub type ConstGenericWindowFold<M, const CAP: usize> = WindowFold<
    M,
    ConstGenericRingBuffer<Kept<M>, CAP>,
>;

/// A `WindowFold` over a growable ring.
pub type GrowableAllocWindowFold<M> = WindowFold<M, GrowableAllocRingBuffer<Kept<M>>>;

/// A `WindowMin` over a heap ring.
pub type AllocWindowMin<T> = WindowMin<T, AllocRingBuffer<Candidate<T>>>;

/// A `WindowMin` over an array ring.
pub type ConstGenericWindowMin<T, const CAP: usize> = WindowMin<
    T,
    ConstGenericRingBuffer<Candidate<T>, CAP>,
>;

/// A `WindowMin` over a growable ring.
pub type GrowableAllocWindowMin<T> = WindowMin<T, GrowableAllocRingBuffer<Candidate<T>>>;

/// A `WindowMax` over a heap ring.
pub type AllocWindowMax<T> = WindowMax<T, AllocRingBuffer<Candidate<T>>>;

/// A `WindowMax` over an array ring.
pub type ConstGenericWindowMax<T, const CAP: usize> = WindowMax<
    T,
    ConstGenericRingBuffer<Candidate<T>, CAP>,
>;

/// A `WindowMax` over a growable ring.
pub type GrowableAllocWindowMax<T> = WindowMax<T, GrowableAllocRingBuffer<Candidate<T>>>;

/// A `WindowSum` over a heap ring.
pub type AllocWindowSum = WindowSum<AllocRingBuffer<i64>>;

/// A `WindowSum` over an array ring.
pub type ConstGenericWindowSum<const CAP: usize> = WindowSum<ConstGenericRingBuffer<i64, CAP>>;

/// A `WindowSum` over a ring of plain items.
pub type CopyWindowSum<const CAP: usize> = WindowSum<CopyRingBuffer<i64, CAP>>;

/// A `WindowSum` over a growable ring.
pub type GrowableAllocWindowSum = WindowSum<GrowableAllocRingBuffer<i64>>;

/// A `WindowMoments` over a heap ring.
pub type AllocWindowMoments = WindowMoments<AllocRingBuffer<i32>>;

/// A `WindowMoments` over an array ring.
pub type ConstGenericWindowMoments<const CAP: usize> = WindowMoments<
    ConstGenericRingBuffer<i32, CAP>,
>;

/// A `WindowMoments` over a ring of plain items.
pub type CopyWindowMoments<const CAP: usize> = WindowMoments<CopyRingBuffer<i32, CAP>>;

/// A `WindowMoments` over a growable ring.
pub type GrowableAllocWindowMoments = WindowMoments<GrowableAllocRingBuffer<i32>>;

/// A `WindowFloatSum` over a heap ring.
pub type AllocWindowFloatSum = WindowFloatSum<AllocRingBuffer<Summand>>;

/// A `WindowFloatSum` over an array ring.
pub type ConstGenericWindowFloatSum<const CAP: usize> = WindowFloatSum<
    ConstGenericRingBuffer<Summand, CAP>,
>;

/// A `WindowFloatSum` over a ring of plain items.
pub type CopyWindowFloatSum<const CAP: usize> = WindowFloatSum<CopyRingBuffer<Summand, CAP>>;

/// A `WindowFloatSum` over a growable ring.
pub type GrowableAllocWindowFloatSum = WindowFloatSum<GrowableAllocRingBuffer<Summand>>;

/// A `WindowTime` over a heap ring.
pub type AllocWindowTime<T> = WindowTime<T, AllocRingBuffer<Stamped<T>>>;

/// A `WindowTime` over an array ring.
pub type ConstGenericWindowTime<T, const CAP: usize> = WindowTime<
    T,
    ConstGenericRingBuffer<Stamped<T>, CAP>,
>;

/// A `WindowTime` over a growable ring.
pub type GrowableAllocWindowTime<T> = WindowTime<T, GrowableAllocRingBuffer<Stamped<T>>>;
