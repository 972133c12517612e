//! Calls that are refused memory, and calls that ask for none.

use super::{assert_equal, assert_holds, drought, push_all};
use ring_test_support::commands::{REPLIES_OF_TWO, every_command};
use ring_test_support::kinds::{Calls, EACH, FIXED, Kind, first_fault_on};
use ring_test_support::steps::End::{self, Front};
use ring_test_support::steps::Step::{
    Adds, Back, Clear, Contains, Dequeue, DequeueAll, Drains, Enqueue, Extend, Fill, FillDefault,
    FillWith, Get, GetSigned, Holds, Insert, IsEmpty, KeepNewest, Leaves, Len, Lends, PopBack,
    Push, PushAll, PushFront, Reads, Remove, RemoveRange, RetainEven, RotateLeft, Skip, Swap,
    TryPush, Write, WriteBack, WriteFront, WriteSigned,
};
use ring_test_support::steps::{Outcome, Step, first_fault};
use ring_test_support::{on_each, on_ring};
use ringbuffer::{
    AllocRingBuffer, Command, DoubleEndedRing, GrowableAllocRingBuffer, Reply, RingBuffer,
    RunFault, apply, move_all, run, run_into,
};
use std::alloc::AllocError;
use std::mem::size_of;
use std::process::Abort;

#[test]
fn a_refused_call_leaves_what_there_was_room_for(rt: HostRuntime) {
    on_ring!(growable, &rt, 0, assert_refused);
    GrowableAllocRingBuffer::new(rt.alloc()).assert_refused(&rt);
    on_ring!(growable, &rt, 0, assert_extension_refused);
    on_ring!(growable, &rt, 0, assert_move_refused);
}

#[test]
fn a_refused_slice_leaves_a_growable_ring(rt: HostRuntime) -> Result<(), AllocError> {
    let mut ring = GrowableAllocRingBuffer::with_capacity(rt.alloc(), 3)?;
    push_all(&rt, &mut ring, &[1, 2]);
    let drought = drought(&rt, 0);
    let few = ring.extend_from_slice(&[3, 4, 5]);
    let more = ring.extend_from_slice(&[3; 8]);
    let many = ring.extend_from_slice(&[3; 16]);
    let fitting = ring.extend_from_slice(&[6]);
    drop(drought);
    assert!(rt; few.is_err());
    assert!(rt; more.is_err());
    assert!(rt; many.is_err());
    assert!(rt; fitting.is_ok());
    assert_holds(&rt, &ring, &[1, 2, 6]);
    Ok(())
}

/// Pushes the items onto a new ring of each of these types, and does the calls in a drought.
fn assert_takes_none(
    rt: &(impl Abort + AllocGlobal),
    kinds: &[Kind],
    capacity: usize,
    items: &'static [i64],
    steps: &[Step],
) {
    let calls = Calls::InDrought(items, steps);
    assert_equal(rt, first_fault_on(rt.alloc(), kinds, capacity, calls), None);
}

/// Changes a fixed ring of two.
const CHANGES_OF_TWO: &[Step] = &[
    PushAll(&[1, 2, 3]),
    Enqueue(&[(4, Some(2))]),
    Extend(&[5, 6, 7]),
    Holds(&[6, 7]),
    FillDefault,
    DequeueAll(&[0, 0]),
    Fill(9),
    DequeueAll(&[9, 9]),
    FillWith(8),
    DequeueAll(&[8, 8]),
];

/// Looks at a ring of 1, 2 and 3.
const LOOKS: &[Step] = &[
    IsEmpty(false),
    Get(4, Some(2)),
    GetSigned(-1, Some(3)),
    Step::Front(Some(1)),
    Back(Some(3)),
    Contains(2, true),
    Contains(4, false),
    Holds(&[1, 2, 3]),
];

/// Writes to a ring of 1, 2 and 3, and takes from it.
const WRITES_AND_TAKES: &[Step] = &[
    Write(4, 5),
    WriteSigned(-1, 6),
    Holds(&[1, 5, 6]),
    WriteFront(4),
    WriteBack(7),
    Holds(&[4, 5, 7]),
    Skip,
    Dequeue(Some(5)),
    Clear,
    IsEmpty(true),
    Skip,
    Dequeue(None),
];

/// Changes a ring of 1, 2 and 3 at its ends and between, and walks over it.
const WALKS: &[Step] = &[
    Reads(&[Front, End::Back], &[1, 3]),
    Adds(&[(Front, 3), (End::Back, 6)]),
    Lends(&[Front, Front], &[4, 2]),
    Swap(0, 1),
    RotateLeft(1),
    Holds(&[4, 9, 2]),
    PopBack(Some(2)),
    TryPush(7, Ok(())),
    Remove(0, Some(4)),
    PushFront(5, Ok(None)),
    KeepNewest(2),
    Insert(1, 6, Ok(())),
    Holds(&[9, 6, 7]),
    RemoveRange(0, 1),
    RetainEven,
    Drains(&[Front], &[6]),
    IsEmpty(true),
];

#[test]
fn calls_that_are_never_refused_take_no_memory(rt: HostRuntime) {
    assert_takes_none(&rt, FIXED, 2, &[], CHANGES_OF_TWO);
    assert_takes_none(&rt, EACH, 3, &[1, 2, 3], LOOKS);
    assert_takes_none(&rt, EACH, 3, &[1, 2, 3], WRITES_AND_TAKES);
    assert_takes_none(&rt, EACH, 3, &[1, 2, 3], WALKS);
}

#[test]
fn a_run_on_a_fixed_ring_asks_for_its_replies_alone(rt: HostRuntime) {
    on_ring!(array, &rt, 2, assert_runs_take_none);
    on_ring!(heap, &rt, 2, assert_run_takes_its_replies);
}

#[test]
fn a_refused_run_leaves_the_ring(rt: HostRuntime) {
    on_each!(&rt, 2, assert_run_refused);
}

/// A ring that is used while memory is refused.
trait Starved: DoubleEndedRing<i64> + Drop {
    /// Pushes and extends in a drought, and then again. The ring has no room.
    fn assert_refused(mut self, rt: &(impl Abort + AllocGlobal)) {
        let drought = drought(rt, 0);
        let pushed = self.push(7);
        let by_push = first_fault(&mut self, &[Len(0), Push(&[(1, None)])]);
        let by_pushes = first_fault(&mut self, &[PushAll(&[1])]);
        let by_extension = first_fault(&mut self, &[Extend(&[1])]);
        let by_last_push = first_fault(&mut self, &[Leaves(&[])]);
        drop(drought);
        assert_equal(rt, pushed, Err(7));
        assert_equal(rt, by_push, Some((1, Outcome::Refused)));
        assert_equal(rt, by_pushes, Some((0, Outcome::Refused)));
        assert_equal(rt, by_extension, Some((0, Outcome::Refused)));
        assert_equal(rt, by_last_push, Some((0, Outcome::Refused)));
        let again = first_fault(&mut self, &[Len(0), Push(&[(7, None)]), Holds(&[7])]);
        assert_equal(rt, again, None);
    }

    /// Extends 1 and 2 in a drought. The ring has no room before.
    fn assert_extension_refused(mut self, rt: &(impl Abort + AllocGlobal)) {
        push_all(rt, &mut self, &[1, 2]);
        let drought = drought(rt, 0);
        let extended = self.extend([3, 4, 5]);
        drop(drought);
        assert!(rt; extended.is_err());
        let held = self.len();
        assert!(rt; 2 <= held);
        assert!(rt; held < 5);
        assert_holds(rt, &self, &[1, 2, 3, 4][..held]);
    }

    /// Moves 1, 2 and 3 in a drought onto a ring that has no room. The first comes back.
    fn assert_move_refused(mut self, rt: &(impl Abort + AllocGlobal)) {
        let mut from = AllocRingBuffer::new(rt.alloc(), 3).expect(rt, "memory");
        push_all(rt, &mut from, &[1, 2, 3]);
        let drought = drought(rt, 0);
        let moved = move_all(&mut self, &mut from);
        drop(drought);
        assert_equal(rt, moved, Err(1));
        assert_holds(rt, &self, &[]);
        assert_holds(rt, &from, &[2, 3]);
    }

    /// Runs commands into places in a drought.
    fn assert_runs_take_none(mut self, rt: &(impl Abort + AllocGlobal)) {
        let extension = vec![in rt.alloc(); 2, 3].expect(rt, "memory");
        let commands = vec![in rt.alloc(); Command::Extend(extension), Command::Dequeue];
        let commands = commands.expect(rt, "memory");
        let other_extension = vec![in rt.alloc(); 4, 5].expect(rt, "memory");
        let mut places = [const { None }; 2];
        assert_equal(rt, commands.len(), 2);
        let drought = drought(rt, 0);
        let pushed = apply(&mut self, Command::Push(1));
        let is_run = run_into(&mut self, commands, &mut places);
        let extended = apply(&mut self, Command::Extend(other_extension));
        drop(drought);
        assert_equal(rt, pushed, Ok(Reply::Pushed(None)));
        assert_equal(rt, is_run, Ok(()));
        assert_equal(rt, extended, Ok(Reply::Extended));
        assert!(rt; places == [Some(Reply::Extended), Some(Reply::Dequeued(Some(2)))]);
        assert_holds(rt, &self, &[4, 5]);
    }

    /// Runs every command in a drought that spares the replies.
    fn assert_run_takes_its_replies(mut self, rt: &(impl Abort + AllocGlobal)) {
        let commands = every_command(rt.alloc()).expect(rt, "memory");
        let room = size_of::<Reply<i64>>().saturating_mul(commands.len());
        let drought = drought(rt, room);
        let answered = run(rt.alloc(), &mut self, commands);
        drop(drought);
        let replies = answered.expect(rt, "no request except for the replies");
        assert_equal(rt, replies.as_slice(), REPLIES_OF_TWO.as_slice());
        assert_holds(rt, &self, &[]);
    }

    /// Runs commands in a drought, which come back.
    fn assert_run_refused(mut self, rt: &(impl Abort + AllocGlobal)) {
        push_all(rt, &mut self, &[8]);
        let commands = vec![in rt.alloc(); Command::Push(1)].expect(rt, "memory");
        let drought = drought(rt, 0);
        let refused = run(rt.alloc(), &mut self, commands);
        drop(drought);
        let Err(RunFault::NoRoom(commands)) = refused else {
            panic!(rt; "there was room for the replies");
        };
        assert_equal(rt, commands.as_slice(), [Command::Push(1)].as_slice());
        assert_holds(rt, &self, &[8]);
    }
}

impl<R: DoubleEndedRing<i64> + Drop> Starved for R {}
