//! Makers of windows over each type of ring, which don't name what a window keeps beside its items.

ghost use Rattle.std.specs.Prelude.{◌≡◌, ◌+◌, ◌<◌, ◌^◌, [], None, Some, IfOk, IsErr};

use crate::float_sum::{Summand, WindowFloatSum};
use crate::fold_window::{Kept, WindowFold};
use crate::least_window::WindowLeast;
use crate::monoid::Monoid;
use crate::monotonic_queue::Candidate;
use crate::order::Order;
use crate::tally::Tally;
use crate::tally_window::WindowTally;
use crate::time_window::{Stamped, WindowTime};
use ringbuffer::{
    AllocRingBuffer, ConstGenericRingBuffer, CopyRingBuffer, GrowableAllocRingBuffer,
};
use std::alloc::{AllocError, Global};

impl<M: Monoid> WindowFold<M, AllocRingBuffer<Kept<M>>> {
    /// Returns an empty window over a heap ring of this capacity.
    ///
    /// # Errors
    ///
    /// As `AllocRingBuffer::new`.
    pub fn on_heap(alloc: Global, capacity: usize) -> Result<Self, AllocError>
        requires { 0 < capacity }
        ensures contents { IfOk result (λ w. w.contents ≡ []) }
        ensures limit { IfOk result (λ w. w.limit ≡ Some capacity) }
        ensures calls { IfOk result (λ w. w.calls + w.unfolded ≡ 0) }
        ensures too_large { 2 ^ 63 < capacity → IsErr result }
    {
        let ring = AllocRingBuffer::new(alloc, capacity)?;
        Ok(WindowFold::new(ring))
    }
}

impl<M: Monoid, const CAP: usize> WindowFold<M, ConstGenericRingBuffer<Kept<M>, CAP>> {
    /// Returns an empty window over an array ring of this capacity.
    pub fn in_array() -> Self
        requires { 0 < CAP }
        ensures contents { result.contents ≡ [] }
        ensures limit { result.limit ≡ Some CAP }
        ensures calls { result.calls + result.unfolded ≡ 0 }
    {
        WindowFold::new(ConstGenericRingBuffer::new())
    }
}

impl<M: Monoid> WindowFold<M, GrowableAllocRingBuffer<Kept<M>>> {
    /// Returns an empty window over a growable ring.
    pub fn growable(alloc: Global) -> Self
        ensures contents { result.contents ≡ [] }
        ensures limit { result.limit ≡ None }
        ensures calls { result.calls + result.unfolded ≡ 0 }
    {
        WindowFold::new(GrowableAllocRingBuffer::new(alloc))
    }
}

impl<T: Drop, O: Order<T>> WindowLeast<T, O, AllocRingBuffer<Candidate<T>>> {
    /// Returns an empty window over a heap ring of this capacity.
    ///
    /// # Errors
    ///
    /// As `AllocRingBuffer::new`.
    pub fn on_heap(alloc: Global, capacity: usize) -> Result<Self, AllocError>
        requires { 0 < capacity }
        ensures contents { IfOk result (λ w. w.contents ≡ []) }
        ensures limit { IfOk result (λ w. w.limit ≡ Some capacity) }
        ensures pushed { IfOk result (λ w. w.pushed ≡ 0) }
        ensures compared { IfOk result (λ w. w.compared ≡ 0) }
        ensures too_large { 2 ^ 63 < capacity → IsErr result }
    {
        let ring = AllocRingBuffer::new(alloc, capacity)?;
        Ok(WindowLeast::new(ring))
    }
}

impl<T: Drop, O: Order<T>, const CAP: usize> WindowLeast<
    T,
    O,
    ConstGenericRingBuffer<Candidate<T>, CAP>,
> {
    /// Returns an empty window over an array ring of this capacity.
    pub fn in_array() -> Self
        requires { 0 < CAP }
        ensures contents { result.contents ≡ [] }
        ensures limit { result.limit ≡ Some CAP }
        ensures pushed { result.pushed ≡ 0 }
        ensures compared { result.compared ≡ 0 }
    {
        WindowLeast::new(ConstGenericRingBuffer::new())
    }
}

impl<T: Drop, O: Order<T>> WindowLeast<T, O, GrowableAllocRingBuffer<Candidate<T>>> {
    /// Returns an empty window over a growable ring.
    pub fn growable(alloc: Global) -> Self
        ensures contents { result.contents ≡ [] }
        ensures limit { result.limit ≡ None }
        ensures pushed { result.pushed ≡ 0 }
        ensures compared { result.compared ≡ 0 }
    {
        WindowLeast::new(GrowableAllocRingBuffer::new(alloc))
    }
}

impl<T: Copy, S: Tally<T>> WindowTally<T, S, AllocRingBuffer<T>> {
    /// Returns an empty window over a heap ring of this capacity.
    ///
    /// # Errors
    ///
    /// As `AllocRingBuffer::new`.
    pub fn on_heap(alloc: Global, capacity: usize) -> Result<Self, AllocError>
        requires { 0 < capacity }
        ensures contents { IfOk result (λ w. w.contents ≡ []) }
        ensures limit { IfOk result (λ w. w.limit ≡ Some capacity) }
        ensures added { IfOk result (λ w. w.added ≡ 0) }
        ensures removed { IfOk result (λ w. w.removed ≡ 0) }
        ensures too_large { 2 ^ 63 < capacity → IsErr result }
    {
        let ring = AllocRingBuffer::new(alloc, capacity)?;
        Ok(WindowTally::new(ring))
    }
}

impl<T: Copy, S: Tally<T>, const CAP: usize> WindowTally<T, S, ConstGenericRingBuffer<T, CAP>> {
    /// Returns an empty window over an array ring of this capacity.
    pub fn in_array() -> Self
        requires { 0 < CAP }
        ensures contents { result.contents ≡ [] }
        ensures limit { result.limit ≡ Some CAP }
        ensures added { result.added ≡ 0 }
        ensures removed { result.removed ≡ 0 }
    {
        WindowTally::new(ConstGenericRingBuffer::new())
    }
}

impl<T: Copy, S: Tally<T>, const CAP: usize> WindowTally<T, S, CopyRingBuffer<T, CAP>> {
    /// Returns an empty window over a ring of plain items of this capacity. `filler` is an item that lies, unseen, where no
    /// item was put yet.
    pub fn in_plain_array(filler: T) -> Self
        requires { 0 < CAP }
        ensures contents { result.contents ≡ [] }
        ensures limit { result.limit ≡ Some CAP }
        ensures added { result.added ≡ 0 }
        ensures removed { result.removed ≡ 0 }
    {
        WindowTally::new(CopyRingBuffer::new(filler))
    }
}

impl<T: Copy, S: Tally<T>> WindowTally<T, S, GrowableAllocRingBuffer<T>> {
    /// Returns an empty window over a growable ring.
    pub fn growable(alloc: Global) -> Self
        ensures contents { result.contents ≡ [] }
        ensures limit { result.limit ≡ None }
        ensures added { result.added ≡ 0 }
        ensures removed { result.removed ≡ 0 }
    {
        WindowTally::new(GrowableAllocRingBuffer::new(alloc))
    }
}

impl WindowFloatSum<AllocRingBuffer<Summand>> {
    /// Returns an empty window over a heap ring of this capacity.
    ///
    /// # Errors
    ///
    /// As `AllocRingBuffer::new`.
    pub fn on_heap(alloc: Global, capacity: usize) -> Result<Self, AllocError>
        requires { 0 < capacity }
        ensures contents { IfOk result (λ w. w.contents ≡ []) }
        ensures limit { IfOk result (λ w. w.limit ≡ Some capacity) }
        ensures calls { IfOk result (λ w. w.calls + w.unfolded ≡ 0) }
        ensures too_large { 2 ^ 63 < capacity → IsErr result }
    {
        let ring = AllocRingBuffer::new(alloc, capacity)?;
        Ok(WindowFloatSum::new(ring))
    }
}

impl<const CAP: usize> WindowFloatSum<ConstGenericRingBuffer<Summand, CAP>> {
    /// Returns an empty window over an array ring of this capacity.
    pub fn in_array() -> Self
        requires { 0 < CAP }
        ensures contents { result.contents ≡ [] }
        ensures limit { result.limit ≡ Some CAP }
        ensures calls { result.calls + result.unfolded ≡ 0 }
    {
        WindowFloatSum::new(ConstGenericRingBuffer::new())
    }
}

impl<const CAP: usize> WindowFloatSum<CopyRingBuffer<Summand, CAP>> {
    /// Returns an empty window over a ring of plain items of this capacity.
    pub fn in_plain_array() -> Self
        requires { 0 < CAP }
        ensures contents { result.contents ≡ [] }
        ensures limit { result.limit ≡ Some CAP }
        ensures calls { result.calls + result.unfolded ≡ 0 }
    {
        WindowFloatSum::new(CopyRingBuffer::new(Summand::new(0.0)))
    }
}

impl WindowFloatSum<GrowableAllocRingBuffer<Summand>> {
    /// Returns an empty window over a growable ring.
    pub fn growable(alloc: Global) -> Self
        ensures contents { result.contents ≡ [] }
        ensures limit { result.limit ≡ None }
        ensures calls { result.calls + result.unfolded ≡ 0 }
    {
        WindowFloatSum::new(GrowableAllocRingBuffer::new(alloc))
    }
}

impl<T: Drop> WindowTime<T, AllocRingBuffer<Stamped<T>>> {
    /// Returns an empty window of this span over a heap ring of this capacity.
    ///
    /// # Errors
    ///
    /// As `AllocRingBuffer::new`.
    pub fn on_heap(alloc: Global, capacity: usize, span: u64) -> Result<Self, AllocError>
        requires { 0 < capacity }
        ensures contents { IfOk result (λ w. w.contents ≡ []) }
        ensures limit { IfOk result (λ w. w.limit ≡ Some capacity) }
        ensures span { IfOk result (λ w. w.span ≡ span) }
        ensures too_large { 2 ^ 63 < capacity → IsErr result }
    {
        let ring = AllocRingBuffer::new(alloc, capacity)?;
        Ok(WindowTime::new(ring, span))
    }
}

impl<T: Drop, const CAP: usize> WindowTime<T, ConstGenericRingBuffer<Stamped<T>, CAP>> {
    /// Returns an empty window of this span over an array ring of this capacity.
    pub fn in_array(span: u64) -> Self
        requires { 0 < CAP }
        ensures contents { result.contents ≡ [] }
        ensures limit { result.limit ≡ Some CAP }
        ensures span { result.span ≡ span }
    {
        WindowTime::new(ConstGenericRingBuffer::new(), span)
    }
}

impl<T: Drop> WindowTime<T, GrowableAllocRingBuffer<Stamped<T>>> {
    /// Returns an empty window of this span over a growable ring.
    pub fn growable(alloc: Global, span: u64) -> Self
        ensures contents { result.contents ≡ [] }
        ensures limit { result.limit ≡ None }
        ensures span { result.span ≡ span }
    {
        WindowTime::new(GrowableAllocRingBuffer::new(alloc), span)
    }
}
