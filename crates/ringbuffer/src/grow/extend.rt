//! Extending a growable ring.
ghost use Rattle.std.specs.Prelude.{◌≡◌, ◌++◌, IsSome, List, MatchResult, None, OnErr, OnOk, Some};
ghost use Rattle.std.specs.Iterator.{Drains, IsFinite, IsFiniteIterable, YieldsThen};
ghost use Rattle.ring_core.specs.Extension.{Extends};

use super::GrowableAllocRingBuffer;
use crate::few::FEW_IN;
use ring_core::RingBuffer;
use std::alloc::AllocError;
use std::collections::VecDeque;

/// As the ring's own `extend`: where memory was refused, the items that came before stay. The trait doesn't say that more
/// would have come.
impl<T: Drop> Extend<T> for GrowableAllocRingBuffer<T> {
    ghost extend_gives = { λ ring items made. made ≡ ring ++ items };

    fn extend<U: IntoIterator<Item = T>>(&mut self, items: U) -> Result<(), AllocError> {
        GrowableAllocRingBuffer::extend(self, items)
    }
}

impl<T: Drop> GrowableAllocRingBuffer<T> {
    /// Pushes the items of a source that ends, in order, as the trait's `extend` does. It stands here too, since each
    /// ring is std's `Extend` as well, and a call by a dot would find both.
    ///
    /// # Errors
    ///
    /// Where memory was refused. The items pushed until then stay.
    pub fn extend<I: IntoIterator<Item = T>>(&mut self, items: I) -> Result<(), AllocError>
        requires { IsFiniteIterable I.into_iter_gives I.IntoIter.can_next I.IntoIter.remaining
            items }
        ensures extends { Extends I.into_iter_gives I.IntoIter.next_gives items None self.old
            self.new 0 0 result }
    {
        RingBuffer::extend(self, items)
    }

    /// Pushes what a source gives, one at a time.
    pub(super) fn push_each<I: Iterator<Item = T> + Drop>(
        &mut self,
        items: I,
    ) -> Result<(), AllocError>
        requires { I.can_next items × IsFinite (I.remaining items) }
        ensures { (xs : List T) × (self.new ≡ self.old ++ xs)
            × MatchResult result (λ _. Drains I.next_gives items xs)
            (λ _. (x : T) × (after : I) × YieldsThen I.next_gives items xs (Some x) after) }
    {
        for item in items {
            if let Err(_) = self.push(item) {
                return Err(AllocError);
            }
        }
        Ok(())
    }
}

/// Puts what a source gives after the items of a vector while there is room. Returns the source, and the item that found
/// none. The vector is a value here and not behind a reference, so that its fields stay in registers.
pub(super) fn pour<T, I: Iterator<Item = T>>(vec: Vec<T>, items: I) -> (Vec<T>, I, Option<T>)
    requires { I.can_next items × IsFinite (I.remaining items) }
    ensures { (xs : List T) × (result.0.items ≡ vec.items ++ xs)
        × YieldsThen I.next_gives items xs result.2 result.1
        × (IsSome result.2 → I.can_next result.1 × IsFinite (I.remaining result.1)) }
{
    let mut vec = vec;
    let mut items = items;
    while let Some(item) = items.next() {
        if vec.len() == vec.capacity() {
            return (vec, items, Some(item));
        }
        vec.push_reserved(item);
    }
    (vec, items, None)
}

impl<T: Copy + Drop> GrowableAllocRingBuffer<T> {
    /// Puts copies of a slice's items last, in order. Takes O(n) in these.
    ///
    /// # Errors
    ///
    /// Where memory for all of them was refused. The ring is as it was then.
    pub fn extend_from_slice(&mut self, items: &[T]) -> Result<(), AllocError>
        ensures ok { OnOk result (self.new ≡ self.old ++ items.now) }
        ensures err { OnErr result (self.new ≡ self.old) }
    {
        if items.len() < FEW_IN || items.len() < self.deque.len() {
            return self.push_copies(items);
        }
        // A vector copies a slice at once, and moves no more items for that than come.
        let mut room = self.take_vec();
        let copied = room.extend_from_slice(items);
        self.deque = VecDeque::from_vec(room);
        copied
    }

    /// Pushes copies of a slice's items, and moves no item but where the deque grows.
    fn push_copies(&mut self, items: &[T]) -> Result<(), AllocError>
        ensures ok { OnOk result (self.new ≡ self.old ++ items.now) }
        ensures err { OnErr result (self.new ≡ self.old) }
    {
        self.deque.reserve(items.len())?;
        if items.len() >= FEW_IN {
            return self.extend_reserved(items);
        }
        for i in 0..items.len() {
            self.deque.push_back_reserved(items[i]);
        }
        Ok(())
    }

    /// Puts copies of many items into room that was reserved for them. The deque's own loop goes straight on to the end of its
    /// memory, and becomes vector code. It is never refused here, which std doesn't say. Out of line, so that few items take no
    /// step for it.
    #[inline(never)]
    fn extend_reserved(&mut self, items: &[T]) -> Result<(), AllocError>
        ensures ok { OnOk result (self.new ≡ self.old ++ items.now) }
        ensures err { OnErr result (self.new ≡ self.old) }
    {
        let held = self.deque.len();
        if let Err(error) = self.deque.extend(items.iter().copied()) {
            self.deque.truncate(held);
            return Err(error);
        }
        Ok(())
    }
}
