//! Tests of rings by public calls, in the order of the trait's calls, those at both ends, searches, conversions, comparison,
//! bytes, walks and runs; then of many items and of room.
//!
//! A test is a list of calls with their answers, rows of items, a call and what that leaves, each done on new rings of some
//! types, or a method of a trait that the ring types implement, which a macro of `ring_test_support` calls on a new ring of
//! each type.

mod blocks;
mod bytes;
mod clones;
mod comparison;
mod conversions;
mod faults;
mod fills;
mod large;
mod middle;
mod positions;
mod pushing;
mod ranges;
mod room;
mod runs;
mod searches;
mod slices;
mod walks;

use ring_test_support::items::{held, is_pushed};
use ring_test_support::kinds::{Calls, Kind, first_fault_on};
use ring_test_support::numbered::Numbered;
use ring_test_support::steps::{Outcome, Row, Step, first_fault};
use ringbuffer::{DoubleEndedRing, RingBuffer};
use std::fmt::Debug;
use std::process::Abort;

/// Asserts that both are equal. A call of it is proved at once, where each `assert_eq!` takes a second or two: use
/// `assert_eq!` only where the proof goes on from what it found. A failure names the test and both values, not the line.
fn assert_equal<T: PartialEq + Debug + Drop>(rt: &impl Abort, found: T, wanted: T) {
    assert_eq!(rt; found, wanted);
}

/// Asserts that each of the calls answers what its step says.
fn assert_steps<R: DoubleEndedRing<i64>>(rt: &impl Abort, ring: &mut R, steps: &[Step]) {
    assert_equal(rt, first_fault(ring, steps), None);
}

/// Pushes the items in order. None is refused.
fn push_all<R: RingBuffer<i64>>(rt: &impl Abort, ring: &mut R, items: &[i64]) {
    assert!(rt; is_pushed(ring, items));
}

/// Asserts that the ring holds these items and no other, in order.
fn assert_holds<R: RingBuffer<i64>>(rt: &impl Abort, ring: &R, items: &[i64]) {
    assert_equal(rt, held(ring, items), Outcome::Agrees);
}

/// Asserts that the ring holds `count` items, with the numbers from `first` on.
fn assert_numbers<T: Numbered, R: RingBuffer<T>>(
    rt: &impl Abort,
    ring: &R,
    first: usize,
    count: usize,
) {
    assert_equal(rt, ring.len(), count);
    for i in 0..count {
        let wanted = T::numbered(first.saturating_add(i));
        if ring.get(i).copied() != Some(wanted) {
            panic!(rt; "{i} items come before one of another number");
        }
    }
}

/// Types of ring, a capacity, what the calls show, and the calls.
type List = (&'static [Kind], usize, &'static str, &'static [Step]);

/// Does the calls of each list on a new ring of each of its types. Each answers what its step says.
fn assert_lists(rt: &(impl Abort + AllocGlobal), lists: &[List]) {
    for (kinds, capacity, name, steps) in lists {
        let fault = first_fault_on(rt.alloc(), kinds, *capacity, Calls::Steps(steps));
        assert_equal(rt, (*capacity, *name, fault), (*capacity, *name, None));
    }
}

/// Asserts what the call of each row answers and leaves, on items that begin at each place.
fn assert_rows(rt: &(impl Abort + AllocGlobal), kinds: &[Kind], capacity: usize, rows: &[Row]) {
    let fault = first_fault_on(rt.alloc(), kinds, capacity, Calls::Rows(rows));
    assert_equal(rt, fault, None);
}
