//! What a ring of two items is made of, and how a ring of each type is made of it.

use Source::*;
use ring_test_support::counted::Counted;
use ringbuffer::{AllocRingBuffer, ConstGenericRingBuffer, GrowableAllocRingBuffer, RingBuffer};
use std::alloc::{AllocError, Global};
use std::collections::{LinkedList, VecDeque};

/// What a ring gets its items from: they are moved out of it, or it lends them to be cloned.
#[derive(Clone, Copy, Debug, Drop, PartialEq)]
pub enum Source {
    Array,
    Iterated,
    Vector,
    Deque,
    List,
    ArrayRing,
    HeapRing,
    GrowableRing,
    Slice,
    MutSlice,
    ArrayRef,
    MutArray,
}

/// The sources whose items are moved.
pub const MOVED: &[Source] = &[
    Array,
    Iterated,
    Vector,
    Deque,
    List,
    ArrayRing,
    HeapRing,
    GrowableRing,
];

/// The sources whose items are cloned.
pub const LENT: &[Source] = &[Slice, MutSlice, ArrayRef, MutArray];

/// Two items in what holds them before they are moved.
#[derive(Drop)]
pub enum Pair<'a> {
    Array(Counted<'a>, Counted<'a>),
    Iterated(Vec<Counted<'a>>),
    Vector(Vec<Counted<'a>>),
    Deque(VecDeque<Counted<'a>>),
    List(LinkedList<Counted<'a>>),
    ArrayRing(ConstGenericRingBuffer<Counted<'a>, 2>),
    HeapRing(AllocRingBuffer<Counted<'a>>),
    GrowableRing(GrowableAllocRingBuffer<Counted<'a>>),
}

impl<'a> Pair<'a> {
    /// Puts two items into what holds them.
    pub fn of(
        alloc: Global,
        source: Source,
        x: Counted<'a>,
        y: Counted<'a>,
    ) -> Result<Pair<'a>, AllocError> {
        if source == Array {
            return Ok(Pair::Array(x, y));
        }
        let items = vec![in alloc; x, y]?;
        Ok(match source {
            Iterated => Pair::Iterated(items),
            Deque => Pair::Deque(VecDeque::from(items)),
            List => {
                let mut list = LinkedList::new(alloc);
                for item in items {
                    list.push_back(item)?;
                }
                Pair::List(list)
            }
            ArrayRing => Pair::ArrayRing(ConstGenericRingBuffer::from_vec(items)),
            HeapRing if !items.is_empty() => {
                Pair::HeapRing(AllocRingBuffer::from_vec(alloc, items)?)
            }
            GrowableRing => Pair::GrowableRing(GrowableAllocRingBuffer::from(items)),
            _ => Pair::Vector(items),
        })
    }
}

/// Makes a ring of clones.
macro_rules! of_clones {
    ($ring:ident, $source:expr, $($argument:expr),*) => {
        match $source {
            MutSlice => $ring::from_mut_slice($($argument),*),
            ArrayRef => $ring::from_array_ref($($argument),*),
            MutArray => $ring::from_mut_array($($argument),*),
            _ => $ring::from_slice($($argument),*),
        }
    };
}

/// Two items that are lent.
type Lent<'a> = [Counted<'a>; 2];

/// A ring that can be made of two items.
pub trait Made<'a>: Sized {
    /// Makes a ring of items that are moved.
    fn of(alloc: Global, source: Pair<'a>) -> Result<Self, AllocError>;

    /// Makes a ring of clones.
    fn of_clones(alloc: Global, items: &mut Lent<'a>, source: Source) -> Result<Self, AllocError>;
}

impl<'a> Made<'a> for ConstGenericRingBuffer<Counted<'a>, 2> {
    fn of(_: Global, source: Pair<'a>) -> Result<Self, AllocError> {
        Ok(match source {
            Pair::Array(x, y) => ConstGenericRingBuffer::from_array([Some(x), Some(y)]),
            Pair::Iterated(items) => ConstGenericRingBuffer::from_iter(items),
            Pair::Vector(items) => ConstGenericRingBuffer::from_vec(items),
            Pair::Deque(items) => ConstGenericRingBuffer::from_deque(items),
            Pair::List(items) => ConstGenericRingBuffer::from_linked_list(items),
            Pair::ArrayRing(ring) => ring,
            Pair::HeapRing(ring) => ConstGenericRingBuffer::from_alloc(ring),
            Pair::GrowableRing(ring) => ConstGenericRingBuffer::from_growable(ring),
        })
    }

    fn of_clones(_: Global, items: &mut Lent<'a>, source: Source) -> Result<Self, AllocError> {
        of_clones!(ConstGenericRingBuffer, source, items)
    }
}

impl<'a> Made<'a> for AllocRingBuffer<Counted<'a>> {
    fn of(alloc: Global, source: Pair<'a>) -> Result<Self, AllocError> {
        match source {
            Pair::Array(x, y) => AllocRingBuffer::from_array(alloc, [Some(x), Some(y)]),
            Pair::Iterated(items) | Pair::Vector(items) if !items.is_empty() => {
                AllocRingBuffer::from_vec(alloc, items)
            }
            Pair::Deque(items) if !items.is_empty() => AllocRingBuffer::from_deque(alloc, items),
            Pair::List(items) if !items.is_empty() => {
                AllocRingBuffer::from_linked_list(alloc, items)
            }
            Pair::ArrayRing(ring) if !ring.is_empty() => AllocRingBuffer::from_const(alloc, ring),
            Pair::HeapRing(ring) => Ok(ring),
            Pair::GrowableRing(ring) if !ring.is_empty() => {
                AllocRingBuffer::from_growable(alloc, ring)
            }
            _ => Err(AllocError),
        }
    }

    fn of_clones(alloc: Global, items: &mut Lent<'a>, source: Source) -> Result<Self, AllocError> {
        of_clones!(AllocRingBuffer, source, alloc, items)
    }
}

impl<'a> Made<'a> for GrowableAllocRingBuffer<Counted<'a>> {
    fn of(alloc: Global, source: Pair<'a>) -> Result<Self, AllocError> {
        match source {
            Pair::Array(x, y) => GrowableAllocRingBuffer::from_array(alloc, [Some(x), Some(y)]),
            Pair::Iterated(items) => GrowableAllocRingBuffer::from_iter(alloc, items),
            Pair::Vector(items) => GrowableAllocRingBuffer::from_vec(alloc, items),
            Pair::Deque(items) => Ok(GrowableAllocRingBuffer::from(items)),
            Pair::List(items) => GrowableAllocRingBuffer::from_linked_list(alloc, items),
            Pair::ArrayRing(ring) => GrowableAllocRingBuffer::from_const(alloc, ring),
            Pair::HeapRing(ring) => GrowableAllocRingBuffer::from_alloc(alloc, ring),
            Pair::GrowableRing(ring) => Ok(ring),
        }
    }

    fn of_clones(alloc: Global, items: &mut Lent<'a>, source: Source) -> Result<Self, AllocError> {
        of_clones!(GrowableAllocRingBuffer, source, alloc, items)
    }
}
