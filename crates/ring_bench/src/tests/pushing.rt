//! Pushing, taking, capacities and slots.

ghost use Rattle.std.specs.Prelude.{◌-◌, ◌<◌};
ghost use Rattle.std.specs.Iterator.{at_most};

use super::{List, assert_equal, assert_lists, assert_steps, push_all};
use ring_test_support::kinds::{Calls, EACH, FIXED, Kind, first_fault_on};
use ring_test_support::steps::Step;
use ring_test_support::steps::Step::*;
use ring_test_support::{on_each, on_fixed, on_ring};
use ringbuffer::{AllocRingBuffer, ConstGenericRingBuffer, DoubleEndedRing, RingBuffer};
use std::process::Abort;

const HEAP: &[Kind] = &[Kind::Heap];

const GROWABLE: &[Kind] = &[Kind::Growable];

/// Calls of a ring of two that overwrites an item.
const OVERWRITES_THE_FIRST: &[Step] = &[
    PushAll(&[5]),
    Back(Some(5)),
    PushAll(&[42]),
    Front(Some(5)),
    IsFull(true),
    PushAll(&[1]),
    Holds(&[42, 1]),
];

const PUT_OVER: &[Step] = &[
    Push(&[(5, None), (42, None), (1, Some(5))]),
    Enqueue(&[(6, Some(42)), (7, Some(1))]),
];

const PUT_AFTER_A_CLEAR: &[Step] = &[
    Push(&[(0, None), (1, None)]),
    Clear,
    Push(&[(2, None), (3, None), (4, Some(2))]),
    Holds(&[3, 4]),
    DequeueAll(&[3, 4]),
];

const STOPS_AT_TWO: &[Step] = &[
    Len(0),
    PushToLen(&[1, 2, 2, 2]),
    Clear,
    PushToLen(&[1, 2, 2, 2]),
];

const FULL_AT_TWO: &[Step] = &[
    IsFull(false),
    PushAll(&[1]),
    IsFull(false),
    PushAll(&[2]),
    IsFull(true),
    PushAll(&[3, 4]),
    IsFull(true),
    Skip,
    IsFull(false),
];

const OVERWRITTEN_STAY_OUT: &[Step] = &[
    PushAll(&[0, 1, 2]),
    DequeueAll(&[1, 2]),
    PushAll(&[0, 1, 2]),
    DequeueAll(&[1, 2]),
];

const PUT_AFTER_A_DEQUEUE: &[Step] = &[
    PushAll(&[0, 1]),
    Dequeue(Some(0)),
    Push(&[(2, None), (3, None), (4, Some(1))]),
    Holds(&[2, 3, 4]),
    DequeueAll(&[2, 3, 4]),
];

const EXTENDED: &[Step] = &[
    PushAll(&[1, 2]),
    Extend(&[]),
    Holds(&[1, 2]),
    Extend(&[3, 4, 5, 6, 7]),
    Holds(&[5, 6, 7]),
];

const ROUND_THE_SLOTS: &[Step] = &[
    PushAll(&[0, 1, 2, 3, 4, 5, 6, 7, 8]),
    Holds(&[4, 5, 6, 7, 8]),
    Dequeue(Some(4)),
    PushAll(&[9, 10]),
    Holds(&[6, 7, 8, 9, 10]),
];

/// What a push and an extension overwrite.
const OVERWRITING: &[List] = &[
    (FIXED, 1, "the last", &[Extend(&[1, 2, 3]), Holds(&[3])]),
    (FIXED, 2, "the newest", OVERWRITES_THE_FIRST),
    (FIXED, 2, "what was overwritten comes back", PUT_OVER),
    (FIXED, 2, "a clear", PUT_AFTER_A_CLEAR),
    (FIXED, 2, "length", STOPS_AT_TWO),
    (FIXED, 2, "full", FULL_AT_TWO),
    (FIXED, 2, "overwritten", OVERWRITTEN_STAY_OUT),
    (FIXED, 3, "a dequeue", PUT_AFTER_A_DEQUEUE),
    (FIXED, 3, "sources", EXTENDED),
    (FIXED, 5, "round the slots", ROUND_THE_SLOTS),
];

const PUT_WITHOUT_LIMIT: &[Step] = &[
    Push(&[(1, None), (2, None), (3, None)]),
    DequeueAll(&[1, 2, 3]),
];

const NOTHING_OVERWRITTEN: &[Step] = &[
    PushAll(&[0, 1, 2]),
    DequeueAll(&[0, 1, 2]),
    PushAll(&[0, 1, 2]),
    DequeueAll(&[0, 1, 2]),
];

const CLEARED: &[Step] = &[
    IsEmpty(true),
    PushAll(&[1, 2, 3]),
    IsEmpty(false),
    Clear,
    IsEmpty(true),
    Len(0),
];

const IN_ORDER: &[Step] = &[
    PushAll(&[0, 1]),
    Len(2),
    Dequeue(Some(0)),
    Dequeue(Some(1)),
    Len(0),
    Dequeue(None),
];

const SKIPPED: &[Step] = &[PushAll(&[0, 1]), Skip, Holds(&[1]), Skip, Len(0)];

const USED_AGAIN: &[Step] = &[
    PushAll(&[0, 1]),
    DequeueAll(&[0, 1]),
    PushAll(&[0, 1]),
    DequeueAll(&[0, 1]),
    Enqueue(&[(0, None), (1, None)]),
    DequeueAll(&[0, 1]),
    Enqueue(&[(0, None), (1, None)]),
    DequeueAll(&[0, 1]),
];

const SKIPS_NOTHING: &[Step] = &[
    Skip,
    Skip,
    Skip,
    PushAll(&[1]),
    DequeueAll(&[1]),
    Skip,
    Dequeue(None),
];

/// Calls of rings that have room for what is pushed.
const ROOMY: &[List] = &[
    (GROWABLE, 2, "nothing comes back", PUT_WITHOUT_LIMIT),
    (GROWABLE, 2, "grows", &[Len(0), PushToLen(&[1, 2, 3])]),
    (GROWABLE, 2, "nothing overwritten", NOTHING_OVERWRITTEN),
    (EACH, 8, "length", &[Len(0), PushToLen(&[1, 2])]),
    (EACH, 8, "cleared", CLEARED),
    (EACH, 8, "in order", IN_ORDER),
    (EACH, 8, "skipped", SKIPPED),
    (EACH, 8, "used again", USED_AGAIN),
    (EACH, 2, "an empty ring", SKIPS_NOTHING),
];

/// The capacity that is asked for on the heap, and the slots that are made.
const SLOTS: &[(usize, usize)] = &[
    (1, 1),
    (2, 2),
    (3, 4),
    (4, 4),
    (5, 8),
    (8, 8),
    (9, 16),
    (1000, 1024),
];

const ONE_SLOT: &[Step] = &[
    PushAll(&[1, 2]),
    Holds(&[2]),
    PushAll(&[0, 1, 2, 3, 4, 5, 6, 7, 8, 9]),
    Holds(&[9]),
    Slots(1),
];

const FOUR_SLOTS: &[Step] = &[
    Slots(4),
    PushAll(&[1, 2, 3]),
    IsFull(true),
    Holds(&[1, 2, 3]),
    PushAll(&[4]),
    Holds(&[2, 3, 4]),
    Slots(4),
];

const EIGHT_SLOTS: &[Step] = &[
    Slots(8),
    PushAll(&[0, 1, 2, 3, 4, 5, 6]),
    IsFull(true),
    Holds(&[2, 3, 4, 5, 6]),
    Fill(4),
    Holds(&[4, 4, 4, 4, 4]),
    IsFull(true),
    Capacity(5),
    Slots(8),
];

/// Spare slots hold no item.
const SPARE: &[List] = &[
    (FIXED, 8, "new", NEW),
    (FIXED, 1, "one slot", ONE_SLOT),
    (HEAP, 3, "four slots", FOUR_SLOTS),
    (HEAP, 5, "eight slots", EIGHT_SLOTS),
    (&[Kind::Array], 50, "fifty slots", FIFTY_SLOTS),
];

const NEW: &[Step] = &[Capacity(8), Len(0)];

const FIFTY_SLOTS: &[Step] = &[Slots(50), Capacity(50), PushAll(&[5]), Holds(&[5])];

#[test]
fn items_come_and_go(rt: HostRuntime) {
    assert_lists(&rt, OVERWRITING);
    assert_lists(&rt, ROOMY);
    assert_lists(&rt, SPARE);
    let mut array = ConstGenericRingBuffer::<i64, 8>::default();
    assert_steps(&rt, &mut array, NEW);
    let mut heap = AllocRingBuffer::with_capacity(rt.alloc(), 2).expect(&rt, "memory");
    assert_steps(&rt, &mut heap, OVERWRITES_THE_FIRST);
    for (exponent, capacity) in [(0, 1), (2, 4), (10, 1024)] {
        let heap = AllocRingBuffer::with_capacity_power_of_2(rt.alloc(), exponent);
        let mut heap = heap.expect(&rt, "memory");
        assert_steps(&rt, &mut heap, &[Capacity(capacity), Len(0)]);
    }
    for (capacity, slots) in SLOTS {
        let steps = &[Slots(*slots), Capacity(*capacity)];
        let fault = first_fault_on(rt.alloc(), HEAP, *capacity, Calls::Steps(steps));
        assert_equal(&rt, fault, None);
    }
}

/// The numbers from `next` up to `end`.
#[derive(Drop)]
struct Numbers {
    next: u32,
    end: u32,
}

impl Iterator for Numbers {
    type Item = i64;

    ghost remaining = { λ s. at_most (s.end - s.next) };

    fn next(&mut self) -> Option<i64> {
        if self.next >= self.end {
            return None;
        }
        let item = i64::from(self.next);
        self.next += 1;
        Some(item)
    }
}

const LAST_TEN: &[Step] = &[
    IsFull(true),
    DequeueAll(&[990, 991, 992, 993, 994, 995, 996, 997, 998, 999]),
    IsEmpty(true),
];

/// Pushes of 1 and 2, between which the two oldest items leave, which are 1 and 2 as well.
const COMES_AND_GOES: &[Step] = &[
    PushAll(&[1, 2]),
    Dequeue(Some(1)),
    Dequeue(Some(2)),
    PushAll(&[1, 2]),
    Dequeue(Some(1)),
    Dequeue(Some(2)),
    PushAll(&[1, 2]),
    GetSigned(-1, Some(2)),
    GetSigned(-2, Some(1)),
];

#[test]
fn items_come_and_go_for_long(rt: HostRuntime) {
    on_fixed!(&rt, 10, keeps_the_last_ten);
    on_fixed!(&rt, 2, takes_ten_thousand_numbers);
    on_ring!(heap, &rt, 3, keeps_the_last_three);
    on_each!(&rt, 8, comes_and_goes);
}

/// A ring that is pushed onto.
trait Pushed: DoubleEndedRing<i64> + Drop {
    /// Pushes a thousand items onto a heap ring of three.
    fn keeps_the_last_three(mut self, rt: &impl Abort) {
        for item in 0..1000 {
            push_all(rt, &mut self, &[item]);
        }
        assert_steps(rt, &mut self, &[Holds(&[997, 998, 999]), Slots(4)]);
    }

    /// Pushes thousands of items, of which a ring of ten keeps the last.
    fn keeps_the_last_ten(mut self, rt: &impl Abort) {
        for _ in 0..100 {
            for item in 0..1000 {
                assert!(rt; self.enqueue(item).is_ok());
            }
            assert_steps(rt, &mut self, LAST_TEN);
        }
    }

    /// Extends a ring of two by a source of one's own.
    fn takes_ten_thousand_numbers(mut self, rt: &impl Abort) {
        let numbers = Numbers {
            next: 0,
            end: 10_000,
        };
        assert!(rt; self.extend(numbers).is_ok());
        assert_steps(rt, &mut self, &[Holds(&[9998, 9999])]);
    }

    fn comes_and_goes(mut self, rt: &impl Abort) {
        for _ in 0..100_000 {
            assert_steps(rt, &mut self, COMES_AND_GOES);
        }
    }
}

impl<R: DoubleEndedRing<i64> + Drop> Pushed for R {}
