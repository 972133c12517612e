//! Taking items of a ring out into new memory.

ghost use Rattle.std.specs.Prelude.{◌≡◌, ◌+◌, ◌-◌, ◌*◌, ◌≤◌, [], IfOk, OnErr, OnOk, drop, length, min, take};
ghost use Rattle.std.specs.List.{remove_range};
ghost use Rattle.std.specs.Vec.{vec_capacity, vec_len};
ghost use Rattle.ring_core.specs.Contents.{Counts};
ghost use Rattle.ring_core.specs.Walk.{to_come};

use crate::double_ended::DoubleEndedRing;
use crate::ring::RingBuffer;
use std::alloc::{AllocError, Global};

/// Moves the oldest items, as many as `count` says, into the memory of an empty vector.
pub(crate) fn move_oldest<T: Drop, R: RingBuffer<T>>(
    ring: &mut R,
    count: usize,
    items: Vec<T>,
) -> Vec<T>
    requires within { count ≤ length (R.contents ring.old) }
    requires empty { items.items ≡ [] }
    requires room { vec_len items + count ≤ vec_capacity items }
    ensures taken { result.items ≡ take count (R.contents ring.old) }
    ensures rest { R.contents ring.new ≡ drop count (R.contents ring.old) }
    ensures limit { R.limit ring.new ≡ R.limit ring.old }
    ensures changes { Counts R.limit R.contents R.slot_changes ring.old ring.new 0 }
{
    let mut items = items;
    for _ in 0..count {
        items.push_reserved(ring.dequeue().unwrap());
    }
    items
}

/// Moves the newest items, as many as `count` says, into the memory of an empty vector. They come newest first, and are
/// reversed there, where no slot changes.
pub(crate) fn move_newest<T: Drop, R: DoubleEndedRing<T>>(
    ring: &mut R,
    count: usize,
    items: Vec<T>,
) -> Vec<T>
    requires within { count ≤ length (R.contents ring.old) }
    requires empty { items.items ≡ [] }
    requires room { vec_len items + count ≤ vec_capacity items }
    ensures taken { result.items
        ≡ drop (length (R.contents ring.old) - count) (R.contents ring.old) }
    ensures rest { R.contents ring.new
        ≡ take (length (R.contents ring.old) - count) (R.contents ring.old) }
    ensures limit { R.limit ring.new ≡ R.limit ring.old }
    ensures changes { Counts R.limit R.contents R.slot_changes ring.old ring.new 0 }
{
    let mut items = items;
    for _ in 0..count {
        items.push_reserved(ring.pop_back().unwrap());
    }
    items.reverse();
    items
}

/// Takes out the items from `start` up to `end`, in new memory. Rotates by the fewer of the items before and after, which
/// makes them the oldest or the newest, and not at all where nothing is taken out.
pub(crate) fn take_between<T: Drop, R: DoubleEndedRing<T>>(
    ring: &mut R,
    start: usize,
    end: usize,
    alloc: Global,
) -> Result<Vec<T>, AllocError>
    requires order { start ≤ end }
    requires within { end ≤ length (R.contents ring.old) }
    ensures taken { IfOk result (λ v. v.items ≡ to_come (R.contents ring.old) start end) }
    ensures rest { OnOk result (R.contents ring.new ≡ remove_range (R.contents ring.old) start end) }
    ensures refused { OnErr result (ring.new ≡ ring.old) }
    ensures limit { R.limit ring.new ≡ R.limit ring.old }
    ensures changes { let fewer = min start (length (R.contents ring.old) - end) in
        Counts R.limit R.contents R.slot_changes ring.old ring.new (2 * fewer) }
{
    let items = Vec::with_capacity(alloc, end - start)?;
    if start == end {
        Ok(items)
    } else if start <= ring.len() - end {
        ring.rotate_left(start);
        let items = move_oldest(ring, end - start, items);
        ring.rotate_right(start);
        Ok(items)
    } else {
        let after = ring.len() - end;
        ring.rotate_right(after);
        let items = move_newest(ring, end - start, items);
        ring.rotate_left(after);
        Ok(items)
    }
}
