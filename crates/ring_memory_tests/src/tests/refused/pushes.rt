//! Pushes and extensions of growable rings that are refused memory.

use super::MANY;
use crate::tests::{
    assert_dropped_with, assert_equal, assert_numbered, drought, items, next, push_first, supply,
};
use ring_test_support::counted::{Counted, Supply};
use ring_test_support::drought::{is_in_turn, spared};
use ring_test_support::refused_in_turn;
use ringbuffer::{
    Command, DoubleEndedRing, GrowableAllocRingBuffer, Refused, Reply, RingBuffer, apply,
};
use std::alloc::AllocError;
use std::process::Abort;

/// Takes the item that the refusal of a push hands back.
fn refused_item<'a>(
    rt: &impl Abort,
    answer: Result<Reply<Counted<'a>>, Refused<Counted<'a>>>,
) -> Counted<'a> {
    match answer {
        Err(Refused::Push(item)) => item,
        _ => panic!(rt; "the push was not refused"),
    }
}

#[test]
fn a_refused_push_hands_its_item_back(rt: HostRuntime) -> Result<(), AllocError> {
    let (rt, supply) = (&rt, supply(&rt, 40));
    let mut ring = GrowableAllocRingBuffer::with_capacity(rt.alloc(), 4)?;
    let room = ring.capacity();
    push_first(rt, &mut ring, &supply, room);
    assert!(rt; ring.is_full());
    let drought = drought(rt, 0);
    let pushed = ring.push(next(rt, &supply)).err();
    let pushed = pushed.expect(rt, "the item that was pushed");
    let enqueued = ring.enqueue(pushed).err();
    let item = enqueued.expect(rt, "the item that was enqueued");
    let item = refused_item(rt, apply(&mut ring, Command::Push(item)));
    let item = ring.push_front(item).err().expect(rt, "the item put first");
    drop(drought);
    assert_equal(rt, (item.number, ring.len()), (room, room));
    assert_numbered(rt, &ring, 0);
    drop(item);
    assert_dropped_with(rt, &supply, ring);
    Ok(())
}

/// Extends a growable ring by a call or by a command, in a drought that spares `spare` bytes. Returns whether that was done.
fn is_extended(
    rt: &(impl Abort + AllocGlobal),
    supply: &Supply,
    by_command: bool,
    spare: usize,
) -> bool {
    let mut ring = GrowableAllocRingBuffer::new(rt.alloc());
    push_first(rt, &mut ring, supply, 2);
    let extension = items(rt, supply, MANY);
    let drought = drought(rt, spare);
    let is_done = if by_command {
        match apply(&mut ring, Command::Extend(extension)) {
            Ok(Reply::Extended) => true,
            Err(Refused::Extend) => false,
            _ => panic!(rt; "an answer to another command"),
        }
    } else {
        ring.extend(extension).is_ok()
    };
    drop(drought);
    let held = ring.len();
    assert!(rt; 2 <= held && held <= MANY + 2);
    assert_equal(rt, is_done, held == MANY + 2);
    assert_numbered(rt, &ring, 0);
    assert_dropped_with(rt, supply, ring);
    is_done
}

#[test]
fn a_refused_extension_leaves_a_beginning(rt: HostRuntime) {
    let supply = supply(&rt, MANY + 2);
    for by_command in [false, true] {
        let refused = refused_in_turn!(
            &rt,
            step,
            { is_extended(&rt, &supply, by_command, spared(step)) }
        );
        assert!(rt; is_in_turn(refused) && refused > 1);
    }
}
