//! Tests of memory, of drops and of refusals by public calls.
//!
//! A test is a method of a trait that the ring types implement, or a function that is generic over the ring. A macro of
//! `ring_test_support` calls it on a new ring of each type.

mod dropping;
mod memory;
mod own;
mod refused;
mod slots;
mod spared;
mod starved;

use ring_test_support::counted::{Counted, Supply};
use ring_test_support::drought::Drought;
use ring_test_support::items::{held, is_pushed};
use ring_test_support::steps::Outcome;
use ringbuffer::RingBuffer;
use std::fmt::Debug;
use std::process::Abort;

/// Asserts that both are equal. A call of it is proved at once, where each `assert_eq!` takes a second or two: use
/// `assert_eq!` only where the proof goes on from what it found. A failure names the test and both values, not the line.
fn assert_equal<T: PartialEq + Debug + Drop>(rt: &impl Abort, found: T, wanted: T) {
    assert_eq!(rt; found, wanted);
}

/// Pushes the items in order. None is refused.
fn push_all<R: RingBuffer<i64>>(rt: &impl Abort, ring: &mut R, items: &[i64]) {
    assert!(rt; is_pushed(ring, items));
}

/// Asserts that the ring holds these items and no other, in order.
fn assert_holds<R: RingBuffer<i64>>(rt: &impl Abort, ring: &R, items: &[i64]) {
    assert_equal(rt, held(ring, items), Outcome::Agrees);
}

/// Makes a drought that spares `spare` bytes.
fn drought(rt: &(impl Abort + AllocGlobal), spare: usize) -> Drought {
    Drought::but_for(rt.alloc(), spare).expect(rt, "memory")
}

/// Makes a supply of `items` items.
fn supply(rt: &(impl Abort + AllocGlobal), items: usize) -> Supply {
    Supply::new(rt.alloc(), items).expect(rt, "memory")
}

/// Takes the next item of a supply.
fn next<'a>(rt: &impl Abort, supply: &'a Supply) -> Counted<'a> {
    supply.next().expect(rt, "one item more")
}

/// Takes the next `count` items of a supply.
fn items<'a>(
    rt: &(impl Abort + AllocGlobal),
    supply: &'a Supply,
    count: usize,
) -> Vec<Counted<'a>> {
    let mut items = Vec::new(rt.alloc());
    for _ in 0..count {
        items.push(next(rt, supply)).expect(rt, "memory");
    }
    items
}

/// Pushes the next `count` items of a supply. None is refused.
fn push_items<'a, R: RingBuffer<Counted<'a>>>(
    rt: &impl Abort,
    ring: &mut R,
    supply: &'a Supply,
    count: usize,
) {
    for _ in 0..count {
        assert!(rt; ring.push(next(rt, supply)).is_ok());
    }
}

/// Begins with the whole supply again, and pushes its first `count` items.
fn push_first<'a, R: RingBuffer<Counted<'a>>>(
    rt: &impl Abort,
    ring: &mut R,
    supply: &'a Supply,
    count: usize,
) {
    supply.begin_again();
    push_items(rt, ring, supply, count);
}

/// Asserts how often the items from the number `first` on were dropped.
fn assert_drops(rt: &impl Abort, supply: &Supply, first: usize, wanted: &[u8]) {
    for (i, drops) in wanted.iter().enumerate() {
        let number = i.saturating_add(first);
        assert_equal(rt, (number, supply.drops(number)), (number, Some(*drops)));
    }
}

/// Asserts that the first `kept` items were not dropped yet, and all others that were given out exactly once.
fn assert_dropped_after(rt: &impl Abort, supply: &Supply, kept: usize) {
    assert_equal(rt, supply.first_fault(kept), None);
}

/// Lets a value go. Each item that was given out was then dropped exactly once.
fn assert_dropped_with<V: Drop>(rt: &impl Abort, supply: &Supply, value: V) {
    drop(value);
    assert_dropped_after(rt, supply, 0);
}

/// Asserts that the ring holds items that are numbered in order, from the number `first` on.
fn assert_numbered<'a, R: RingBuffer<Counted<'a>>>(rt: &impl Abort, ring: &R, first: usize) {
    for i in 0..ring.len() {
        let number = ring.get(i).expect(rt, "an item").number;
        assert_equal(rt, number, i.saturating_add(first));
    }
}

/// Asserts that the ring holds three items, which are numbered in order from the number `first` on.
fn assert_three<'a, R: RingBuffer<Counted<'a>>>(rt: &impl Abort, ring: &R, first: usize) {
    assert_equal(rt, ring.len(), 3);
    assert_numbered(rt, ring, first);
}

/// Asserts that the ring holds `count` numbers, from `first` on.
fn assert_numbers<R: RingBuffer<u64>>(rt: &impl Abort, ring: &R, first: u64, count: usize) {
    assert_equal(rt, ring.len(), count);
    let mut number = first;
    for i in 0..count {
        if ring.get(i) != Some(&number) {
            panic!(rt; "{i} items come before one of another number");
        }
        number = number.wrapping_add(1);
    }
}
