//! What becomes of items: each is dropped exactly once.

use super::assert_equal;
use ring_test_support::drops::Call::*;
use ring_test_support::drops::{Call, first_fault_of_drops};
use ring_test_support::kinds::Kind;

/// The types that take any items, and have a limit.
const FIXED: &[Kind] = &[Kind::Array, Kind::Heap];

const GROWABLE: &[Kind] = &[Kind::Growable];

const EACH: &[Kind] = &[Kind::Array, Kind::Heap, Kind::Growable];

const ROUND: &[Call<'static>] = &[Push(3), Skip, Skip, Push(2), Holds(&[2, 3, 4]), EndInOrder];

const OVER_ONE: &[Call<'static>] = &[
    Push(1),
    PushOver(Some(0)),
    Dropped(0, 1),
    PushOver(Some(1)),
    Enqueue,
    Dropped(0, 3),
    Holds(&[3]),
];

const OVER_THREE: &[Call<'static>] = &[
    Push(5),
    Dropped(0, 2),
    Dequeue(Some(2)),
    Dropped(0, 3),
    Extend(4),
    Dropped(0, 6),
    Holds(&[6, 7, 8]),
    Apply,
    Holds(&[11, 12]),
    Dropped(0, 11),
];

const NONE_OVER: &[Call<'static>] = &[
    PushOver(None),
    PushOver(None),
    Enqueue,
    Extend(4),
    PushFront(None),
    Dropped(0, 0),
    Dequeue(Some(7)),
    Dequeue(Some(0)),
];

const LEFT: &[Call<'static>] = &[
    Push(4),
    Skip,
    Dropped(0, 1),
    Push(1),
    Write(1),
    Holds(&[1, 5, 3, 4]),
    Dequeue(Some(1)),
    PopBack(Some(4)),
    Clear,
    Dropped(0, 6),
    Push(2),
    Write(0),
    Dropped(0, 7),
];

const IN_THE_MIDDLE: &[Call<'static>] = &[
    Push(2),
    Skip,
    Push(2),
    Insert(1),
    Holds(&[1, 4, 2, 3]),
    Swap(0, 2),
    RotateLeft(1),
    RotateRight(3),
    Holds(&[1, 3, 2, 4]),
    Remove(2, Some(2)),
    PushFront(None),
    Holds(&[5, 1, 3, 4]),
    RemoveRange(1, 3),
    Holds(&[5, 4]),
    Push(2),
    RemoveRange(2, 3),
    Holds(&[5, 4, 7]),
];

const PUT_FIRST: &[Call<'static>] = &[Push(4), PushFront(Some(3)), Holds(&[4, 0, 1, 2])];

const KEPT: &[Call<'static>] = &[
    Push(4),
    RetainOdd,
    Holds(&[1, 3]),
    MapEach,
    Holds(&[4, 5]),
    Dropped(0, 4),
    DequeueBelow(5),
    Holds(&[5]),
    Push(3),
    Truncate(3),
    Holds(&[5, 6, 7]),
    KeepNewest(1),
    Holds(&[7]),
];

const CLONED: &[Call<'static>] = &[
    Push(2),
    ExtendClones(2),
    Holds(&[0, 1, 4, 5]),
    Dropped(2, 2),
    CopyOut(3),
    Holds(&[0, 1, 4, 5]),
];

// No clone is made that has no place.
const CLONED_OVER: &[Call<'static>] = &[
    Push(3),
    ExtendClones(2),
    Holds(&[2, 5, 6]),
    Given(7),
    ExtendClones(5),
    Holds(&[12, 13, 14]),
    Given(15),
    CopyOut(2),
    Given(19),
    MoveAll(4),
    Holds(&[20, 21, 22]),
];

const FILLED: &[Call<'static>] = &[Push(2), Fill, Dropped(0, 3), FillWith, Fill];

const FILLED_ONE: &[Call<'static>] = &[Fill, Given(2), FillWith, Given(3), Holds(&[2])];

const DRAINED: &[Call<'static>] = &[
    Push(4),
    Drain(1, 0),
    Holds(&[1, 2, 3]),
    Push(1),
    Drain(1, 1),
    Holds(&[2, 3]),
    TakeAll,
    Dropped(0, 5),
    Push(4),
    DrainRange(1, 3),
    Holds(&[5, 8]),
    SplitOff(1),
    Holds(&[5]),
];

const MANY: &[Call<'static>] = &[
    Push(40),
    Clear,
    Push(100),
    KeepNewest(80),
    Dropped(0, 60),
    Truncate(60),
    RemoveRange(10, 50),
    RetainOdd,
    TakeAll,
    Push(100),
    TakeAll,
    Dropped(0, 240),
];

/// Types of ring, a capacity, what the calls are about, and the calls.
const LISTS: &[(&[Kind], usize, &str, &[Call<'static>])] = &[
    (EACH, 3, "round the slots", ROUND),
    (FIXED, 1, "over one", OVER_ONE),
    (FIXED, 3, "over three", OVER_THREE),
    (GROWABLE, 1, "none over", NONE_OVER),
    (EACH, 4, "left", LEFT),
    (EACH, 4, "in the middle", IN_THE_MIDDLE),
    (FIXED, 4, "put first", PUT_FIRST),
    (EACH, 4, "kept", KEPT),
    (EACH, 4, "cloned", CLONED),
    (FIXED, 3, "cloned over", CLONED_OVER),
    (EACH, 4, "filled", FILLED),
    (FIXED, 1, "one filled", FILLED_ONE),
    (EACH, 4, "drained", DRAINED),
    (EACH, 4, "a walk", &[Push(4), Walk(true)]),
    (EACH, 4, "a walk from the back", &[Push(4), Walk(false)]),
    (EACH, 100, "many", MANY),
];

#[test]
fn each_item_is_dropped_once(rt: HostRuntime) {
    for (kinds, capacity, name, calls) in LISTS {
        let fault = first_fault_of_drops(rt.alloc(), kinds, *capacity, calls);
        assert_equal(&rt, (*capacity, *name, fault), (*capacity, *name, None));
    }
}
