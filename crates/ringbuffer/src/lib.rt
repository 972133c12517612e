//! Ring buffers of a fixed capacity, in an array or on the heap, and of any length, in a deque. All implement
//! `RingBuffer` and `DoubleEndedRing`.
#![tactic(auto)]

mod array;
mod bytes;
mod convert;
mod few;
mod fixed;
mod grow;
mod heap;
mod plain;
mod position;
mod two_slices;

pub use array::ConstGenericRingBuffer;
pub use fixed::{FixedRing, ShowsRows, TakesCopies};
pub use grow::GrowableAllocRingBuffer;
pub use heap::AllocRingBuffer;
pub use plain::CopyRingBuffer;
pub use ring_core::{
    Command, DoubleEndedRing, DoubleEndedRingExt, LastBytes, Refused, Reply, RingBuffer,
    RingBufferDrainingIterator, RingBufferExt, RingBufferIntoIterator, RingBufferIterator,
    RingBufferMutIterator, RunFault, Stopped, apply, binary_search, move_all, partition_point,
    retain, run, run_into, runs_join,
};
pub use ring_slots::LendsRows;
