//! How each call of a list is done, and what comes of it.

use crate::answers::{
    answered, counted, found, put, said, searched, taken, unless_refused, written,
};
use crate::items::{held, is_pushed};
use crate::steps::{Outcome, Step};
use crate::walks::{added, drained, lent, read};
use ringbuffer::{DoubleEndedRing, RingBufferExt, binary_search, partition_point, retain};

/// Does a call on the ring. Returns what came of it.
pub(crate) fn outcome_of<R: DoubleEndedRing<i64>>(ring: &mut R, step: &Step) -> Outcome {
    match step {
        Step::Push(pushes) => pushed(ring, pushes, true),
        Step::Enqueue(pushes) => pushed(ring, pushes, false),
        Step::PushToLen(lengths) => lengthened(ring, lengths),
        Step::PushAll(items) => unless_refused(is_pushed(ring, items)),
        Step::Extend(items) => unless_refused(ring.extend(items.iter().copied()).is_ok()),
        Step::Fill(item) => unless_refused(ring.fill(*item).is_ok()),
        Step::FillDefault => unless_refused(ring.fill_default().is_ok()),
        Step::FillWith(item) => unless_refused(ring.fill_with(|| *item).is_ok()),
        Step::DequeueAll(items) => dequeued(ring, items),
        Step::Write(at, item) => written(ring.get_mut(*at), *item),
        Step::WriteSigned(at, item) => written(ring.get_mut_signed(*at), *item),
        Step::WriteFront(item) => written(ring.front_mut(), *item),
        Step::WriteBack(item) => written(ring.back_mut(), *item),
        Step::Holds(items) => held(ring, items),
        Step::Skip => {
            ring.skip();
            Outcome::Agrees
        }
        Step::Clear => {
            ring.clear();
            Outcome::Agrees
        }
        Step::Dequeue(wanted) => taken(ring.dequeue(), *wanted),
        Step::Len(wanted) => counted(ring.len(), *wanted),
        Step::Capacity(wanted) => counted(ring.capacity(), *wanted),
        Step::Slots(wanted) => counted(ring.buffer_size(), *wanted),
        Step::IsEmpty(wanted) => said(ring.is_empty(), *wanted),
        Step::IsFull(wanted) => said(ring.is_full(), *wanted),
        Step::Contains(item, wanted) => said(ring.contains(item), *wanted),
        Step::Get(at, wanted) => {
            let read = ring.get(*at).copied();
            found(read, ring.get_mut(*at), *wanted)
        }
        Step::GetSigned(at, wanted) => {
            let read = ring.get_signed(*at).copied();
            found(read, ring.get_mut_signed(*at), *wanted)
        }
        Step::GetAll(first, items) => found_all(ring, *first, items),
        Step::GetAllSigned(first, items) => found_all_signed(ring, *first, items),
        Step::Front(wanted) => {
            let read = ring.front().copied();
            if ring.peek().copied() != read {
                return Outcome::Differs(0, ring.peek().copied());
            }
            found(read, ring.front_mut(), *wanted)
        }
        Step::Back(wanted) => {
            let read = ring.back().copied();
            found(read, ring.back_mut(), *wanted)
        }
        Step::Begin(start) => begun(ring, *start),
        Step::Leaves(items) => left(ring, items),
        Step::RetainEven => filtered(ring, true),
        Step::RetainAlternate => filtered(ring, false),
        Step::Search(item, wanted) => searched(binary_search(ring, item), *wanted),
        Step::Below(item, wanted) => parted(ring, *item, *wanted),
        Step::Reads(ends, items) => read(ring, ends, items),
        Step::Lends(ends, items) => lent(ring, ends, items),
        Step::Adds(additions) => added(ring, additions),
        Step::Drains(ends, items) => drained(ring, ends, items),
        _ => moved(ring, step),
    }
}

/// Does a call at an end or an index, if the ring has the items that it is about.
fn moved<R: DoubleEndedRing<i64>>(ring: &mut R, step: &Step) -> Outcome {
    let len = ring.len();
    match step {
        Step::PushFront(item, wanted) => return answered(ring.push_front(*item), *wanted),
        Step::TryPush(item, wanted) => return put(ring.try_push(*item), *wanted),
        Step::PopBack(wanted) => return taken(ring.pop_back(), *wanted),
        Step::Insert(at, item, wanted) if *at <= len => {
            return put(ring.insert(*at, *item), *wanted);
        }
        Step::Remove(at, wanted) => return taken(ring.remove(*at), *wanted),
        Step::Truncate(count) => ring.truncate(*count),
        Step::KeepNewest(count) => ring.keep_newest(*count),
        Step::RemoveRange(from, to) => ring.remove_range(*from..*to),
        Step::Swap(i, j) if *i < len && *j < len => ring.swap(*i, *j),
        Step::RotateLeft(count) if *count <= len => ring.rotate_left(*count),
        Step::RotateRight(count) if *count <= len => ring.rotate_right(*count),
        _ => return Outcome::NoItem,
    }
    Outcome::Agrees
}

fn begun<R: DoubleEndedRing<i64>>(ring: &mut R, start: usize) -> Outcome {
    ring.clear();
    for _ in 0..start {
        if ring.push(0).is_err() {
            return Outcome::Refused;
        }
        ring.skip();
    }
    Outcome::Agrees
}

fn left<R: DoubleEndedRing<i64>>(ring: &mut R, items: &[i64]) -> Outcome {
    let outcome = held(ring, items);
    ring.skip();
    if outcome != Outcome::Agrees {
        return outcome;
    }
    if ring.push(8).is_err() {
        return Outcome::Refused;
    }
    let others = items.iter().skip(1);
    for item in others.chain(&[8]) {
        let found = ring.dequeue();
        if found != Some(*item) {
            return Outcome::Differs(items.len(), found);
        }
    }
    Outcome::Agrees
}

/// Keeps the even items, or else every second one.
fn filtered<R: DoubleEndedRing<i64>>(ring: &mut R, keeps_even: bool) -> Outcome {
    let (len, mut asked) = (ring.len(), 0usize);
    let done = retain(ring, |item| {
        asked = asked.wrapping_add(1);
        if keeps_even {
            *item % 2 == 0
        } else {
            asked % 2 == 1
        }
    });
    if asked != len {
        return Outcome::Asked(asked);
    }
    unless_refused(done.is_ok())
}

fn parted<R: DoubleEndedRing<i64>>(ring: &R, bound: i64, wanted: usize) -> Outcome {
    let mut asked = 0usize;
    let below = partition_point(ring, |item| {
        asked = asked.wrapping_add(1);
        *item < bound
    });
    if (1 << asked.min(63)) > ring.len().saturating_mul(2).max(1) {
        return Outcome::Asked(asked);
    }
    counted(below, wanted)
}

/// Pushes each item by a `push`, or else by an `enqueue`, and finds what it hands back.
fn pushed<R: DoubleEndedRing<i64>>(
    ring: &mut R,
    pushes: &[(i64, Option<i64>)],
    by_push: bool,
) -> Outcome {
    for (i, (item, back)) in pushes.iter().enumerate() {
        let pushed = if by_push {
            ring.push(*item)
        } else {
            ring.enqueue(*item)
        };
        match pushed {
            Ok(found) if found == *back => {}
            Ok(found) => return Outcome::Differs(i, found),
            Err(_) => return Outcome::Refused,
        }
    }
    Outcome::Agrees
}

fn lengthened<R: DoubleEndedRing<i64>>(ring: &mut R, lengths: &[usize]) -> Outcome {
    for length in lengths {
        if ring.push(0).is_err() {
            return Outcome::Refused;
        }
        if ring.len() != *length {
            return Outcome::Counts(ring.len());
        }
    }
    Outcome::Agrees
}

/// Finds the items by a call that reads and one that lends, at a position and at those after it.
macro_rules! find_all {
    ($ring:expr, $first:expr, $items:expr, $get:ident, $get_mut:ident) => {{
        let mut at = $first;
        for (i, item) in $items.iter().enumerate() {
            let (read, lent) = ($ring.$get(at).copied(), $ring.$get_mut(at).copied());
            if read != Some(*item) {
                return Outcome::Differs(i, read);
            }
            if lent != read {
                return Outcome::LendsAnother(read, lent);
            }
            at = at.wrapping_add(1);
        }
        Outcome::Agrees
    }};
}

fn found_all<R: DoubleEndedRing<i64>>(ring: &mut R, first: usize, items: &[i64]) -> Outcome {
    find_all!(ring, first, items, get, get_mut)
}

fn found_all_signed<R: DoubleEndedRing<i64>>(ring: &mut R, first: isize, items: &[i64]) -> Outcome {
    find_all!(ring, first, items, get_signed, get_mut_signed)
}

fn dequeued<R: DoubleEndedRing<i64>>(ring: &mut R, items: &[i64]) -> Outcome {
    for (i, item) in items.iter().enumerate() {
        let found = ring.dequeue();
        if found != Some(*item) {
            return Outcome::Differs(i, found);
        }
    }
    match ring.dequeue() {
        None => Outcome::Agrees,
        more => Outcome::Differs(items.len(), more),
    }
}
