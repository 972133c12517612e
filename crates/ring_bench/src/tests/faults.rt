//! A step that a ring doesn't answer so is found: else a test by steps could not fail.

use super::assert_equal;
use ring_test_support::on_fixed;
use ring_test_support::steps::Outcome::*;
use ring_test_support::steps::Step::*;
use ring_test_support::steps::{Outcome, Step, first_fault};
use ringbuffer::DoubleEndedRing;
use std::process::Abort;

/// Steps on a full ring of 1 and 2, and what comes of each.
const FAULTS: &[(Step, Outcome)] = &[
    (Push(&[(3, None)]), Differs(0, Some(1))),
    (Push(&[(3, Some(1)), (4, None)]), Differs(1, Some(2))),
    (Enqueue(&[(3, Some(2))]), Differs(0, Some(1))),
    (PushToLen(&[2, 3]), Counts(2)),
    (Dequeue(Some(2)), Differs(0, Some(1))),
    (DequeueAll(&[1]), Differs(1, Some(2))),
    (DequeueAll(&[1, 3]), Differs(1, Some(2))),
    (DequeueAll(&[1, 2, 3]), Differs(2, None)),
    (Holds(&[1]), Counts(2)),
    (Holds(&[2, 1]), Differs(0, Some(1))),
    (Len(1), Counts(2)),
    (IsFull(false), Says(true)),
    (Get(1, Some(1)), Differs(0, Some(2))),
    (GetSigned(-1, Some(1)), Differs(0, Some(2))),
    (GetAll(1, &[2, 2]), Differs(1, Some(1))),
    (GetAllSigned(-1, &[2, 2]), Differs(1, Some(1))),
    (Front(Some(2)), Differs(0, Some(1))),
    (Back(Some(1)), Differs(0, Some(2))),
    (Contains(2, false), Says(true)),
    (TryPush(3, Ok(())), Answers(Err(3))),
    (TryPush(3, Err(4)), Answers(Err(3))),
    (Insert(0, 3, Ok(())), Answers(Err(3))),
    (PushFront(3, Ok(None)), Answers(Ok(Some(2)))),
    (Remove(0, Some(2)), Differs(0, Some(1))),
    (PopBack(None), Differs(0, Some(2))),
    (Search(2, Ok(0)), Finds(Ok(1))),
    (Below(2, 2), Counts(1)),
    (Slots(3), Counts(2)),
];

#[test]
fn a_step_with_another_answer_is_found(rt: HostRuntime) {
    on_fixed!(&rt, 2, has_faults);
}

/// A ring that answers otherwise.
trait Faulty: DoubleEndedRing<i64> + Drop {
    fn has_faults(mut self, rt: &impl Abort) {
        for (step, outcome) in FAULTS {
            let found = first_fault(&mut self, &[Clear, PushAll(&[1, 2]), *step, Len(9)]);
            assert_equal(rt, found, Some((2, *outcome)));
        }
        let found = first_fault(&mut self, &[Clear, WriteBack(3)]);
        assert_equal(rt, found, Some((1, NoItem)));
    }
}

impl<R: DoubleEndedRing<i64> + Drop> Faulty for R {}
