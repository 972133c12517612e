//! Room for the numbers of an extension.
ghost use Rattle.std.specs.Prelude.{◌≡◌};

use crate::script::count_numbers;
use ringbuffer::{AllocRingBuffer, CopyRingBuffer, GrowableAllocRingBuffer, RingBuffer};

/// A ring that takes a line's numbers one at a time, and can make room for many at once.
pub trait MakesRoom: RingBuffer<i64> {
    /// Returns whether the next push asks for memory.
    fn has_no_room(&self) -> bool;

    /// Makes room for `count` more numbers, if there is memory for them.
    fn reserve(&mut self, count: usize)
        ensures contents { Self.contents self.new ≡ Self.contents self.old }
        ensures limit { Self.limit self.new ≡ Self.limit self.old };
}

/// It never asks for memory.
impl<const CAP: usize> MakesRoom for CopyRingBuffer<i64, CAP> {
    #[inline]
    fn has_no_room(&self) -> bool {
        false
    }

    #[inline]
    fn reserve(&mut self, _: usize) {}
}

/// It asks for memory as it is made alone.
impl MakesRoom for AllocRingBuffer<i64> {
    #[inline]
    fn has_no_room(&self) -> bool {
        false
    }

    #[inline]
    fn reserve(&mut self, _: usize) {}
}

impl MakesRoom for GrowableAllocRingBuffer<i64> {
    #[inline]
    fn has_no_room(&self) -> bool {
        self.len() == self.capacity()
    }

    fn reserve(&mut self, count: usize) {
        let _ = self.as_mut().reserve(count);
    }
}

/// A line of fewer numbers lets its ring grow push by push.
const MANY: usize = 16;

/// Makes room for the numbers at the front of `text`, where `ring` has none for the next. It held `held` items before the
/// line. A line of many numbers, and of as many as there were, gets no more memory than it needs: a ring that grew push by
/// push would keep room for up to twice its items.
#[inline(always)]
pub fn make_room<R: MakesRoom>(ring: &mut R, held: usize, text: &[u8])
    ensures contents { R.contents ring.new ≡ R.contents ring.old }
    ensures limit { R.limit ring.new ≡ R.limit ring.old }
{
    if ring.has_no_room() {
        reserve_line(ring, held, text);
    }
}

/// Makes room in a ring without room.
#[inline(never)]
fn reserve_line<R: MakesRoom>(ring: &mut R, held: usize, text: &[u8])
    ensures contents { R.contents ring.new ≡ R.contents ring.old }
    ensures limit { R.limit ring.new ≡ R.limit ring.old }
{
    let (left, _) = count_numbers(text);
    let pushed = ring.len().saturating_sub(held);
    let all = pushed.saturating_add(left);
    if all >= MANY && all >= held {
        ring.reserve(left);
    }
}
