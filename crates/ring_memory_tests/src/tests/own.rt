//! A ring of the tests' own, which fills by the bodies of the trait. Each ring of the library has a `fill` of its own.

ghost use Rattle.std.specs.Prelude.{None, refl, slice_set};
ghost use Rattle.ring_core.proofs.Limits.{counts_none};

use ringbuffer::{GrowableAllocRingBuffer, RingBuffer};
use std::alloc::{AllocError, Global};

/// How many items the ring says that it has room for.
const ROOM: usize = 8;

/// A ring without a limit. It says that it has room for eight items, and may have to ask for memory before.
#[derive(Drop)]
pub struct OwnRing<T> {
    ring: GrowableAllocRingBuffer<T>,
}

impl<T: Drop> OwnRing<T> {
    /// Makes an empty ring.
    pub fn new(alloc: Global) -> OwnRing<T> {
        OwnRing {
            ring: GrowableAllocRingBuffer::new(alloc),
        }
    }
}

impl<T: Drop> RingBuffer<T> for OwnRing<T> {
    ghost contents = { λ s. s.ring };

    ghost limit = { λ _. None };

    ghost with_item = { λ s i x. record s { ring = slice_set s.ring i x } };

    ghost sets_item = { λ _ _ _. refl };

    ghost keeps_limit = { λ _ _ _. refl };

    ghost counts_write = { λ s _ _. counts_none (λ _. None) s refl };

    fn len(&self) -> usize {
        self.ring.len()
    }

    fn capacity(&self) -> usize {
        self.ring.len().max(ROOM)
    }

    fn buffer_size(&self) -> usize {
        self.capacity()
    }

    fn push(&mut self, item: T) -> Result<Option<T>, T> {
        self.ring.push(item)
    }

    fn extend<I: IntoIterator<Item = T>>(&mut self, items: I) -> Result<(), AllocError>
    where
        I::IntoIter: Drop,
    {
        self.ring.extend(items)
    }

    fn dequeue(&mut self) -> Option<T> {
        self.ring.dequeue()
    }

    fn clear(&mut self) {
        self.ring.clear();
    }

    fn fill_with<F: FnMut() -> T + Drop>(&mut self, make: F) -> Result<(), AllocError> {
        self.ring.fill_with(make)
    }

    fn get(&self, index: usize) -> Option<&T> {
        self.ring.get(index)
    }

    fn get_signed(&self, index: isize) -> Option<&T> {
        self.ring.get_signed(index)
    }

    fn get_mut(&mut self, index: usize) -> Option<&mut T> {
        self.ring.get_mut(index)
    }

    fn get_mut_signed(&mut self, index: isize) -> Option<&mut T> {
        self.ring.get_mut_signed(index)
    }
}
