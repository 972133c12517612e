//! Runs of commands that are refused memory part of the way.

use super::{MANY, are_numbered};
use crate::tests::{
    assert_dropped_with, assert_equal, assert_numbered, drought, items, next, supply,
};
use ring_test_support::counted::{Counted, Supply};
use ring_test_support::drought::{Drought, MOST_STEPS, is_in_turn, spared};
use ring_test_support::refused_in_turn;
use ringbuffer::{
    AllocRingBuffer, Command, ConstGenericRingBuffer, GrowableAllocRingBuffer, Reply, RingBuffer,
    RunFault, Stopped, run, run_into,
};
use std::alloc::AllocError;
use std::mem::size_of;
use std::process::Abort;

/// A run on a ring that is new and overwrites nothing: it pushes item 0, extends by others, takes one, and pushes a last item.
#[derive(Drop)]
struct Script {
    extension: usize,
}

impl Script {
    /// Counts the items that the commands have.
    fn items(&self) -> usize {
        self.extension.saturating_add(2)
    }

    /// Makes its commands, with the first items of a supply.
    fn commands<'a>(
        &self,
        rt: &(impl Abort + AllocGlobal),
        supply: &'a Supply,
    ) -> Vec<Command<Counted<'a>>> {
        let first = next(rt, supply);
        let extension = items(rt, supply, self.extension);
        let last = next(rt, supply);
        let commands = vec![in rt.alloc();
            Command::Push(first),
            Command::Extend(extension),
            Command::Dequeue,
            Command::Push(last),
        ];
        commands.expect(rt, "memory")
    }

    /// Tells whether this is command `at`, with its items.
    fn is_command(&self, command: &Command<Counted<'_>>, at: usize) -> bool {
        match command {
            Command::Push(item) if at == 0 => item.number == 0,
            Command::Push(item) => at == 3 && item.number == self.extension.saturating_add(1),
            Command::Extend(items) => {
                at == 1 && items.len() == self.extension && are_numbered(items, 1)
            }
            Command::Dequeue => at == 2,
            _ => false,
        }
    }

    /// Tells whether command `at` is replied to like this.
    fn is_reply(&self, reply: &Reply<Counted<'_>>, at: usize) -> bool {
        match reply {
            Reply::Pushed(None) => at == 0 || at == 3,
            Reply::Extended => at == 1,
            Reply::Dequeued(Some(item)) => at == 2 && item.number == 0,
            _ => false,
        }
    }

    /// Asserts that these are its commands, with their items.
    fn assert_commands(&self, rt: &impl Abort, commands: &[Command<Counted<'_>>]) {
        assert_equal(rt, commands.len(), 4);
        for (i, command) in commands.iter().enumerate() {
            assert_equal(rt, (i, self.is_command(command, i)), (i, true));
        }
    }

    /// Asserts that the places hold the replies to its first `done` commands, and no other.
    fn assert_places(&self, rt: &impl Abort, places: &[Option<Reply<Counted<'_>>>], done: usize) {
        for (i, place) in places.iter().enumerate() {
            let is_right = match place {
                Some(reply) => i < done && self.is_reply(reply, i),
                None => i >= done,
            };
            assert_equal(rt, (i, is_right), (i, true));
        }
    }

    /// Asserts that the ring holds what it does once `done` commands are done, and a beginning of the next. Then it ends.
    fn assert_done<'a, R: RingBuffer<Counted<'a>> + Drop>(
        &self,
        rt: &impl Abort,
        ring: R,
        done: usize,
    ) {
        let first = if done > 2 { 1 } else { 0 };
        let found = ring.len().saturating_add(first);
        let is_right = match done {
            0 => found == 0,
            1 => 1 <= found && found <= self.extension,
            3 => found == self.extension.saturating_add(1),
            _ => done == 4 && found == self.items(),
        };
        assert_equal(rt, (done, found, is_right), (done, found, true));
        assert_numbered(rt, &ring, first);
    }
}

/// Runs a script in a drought that spares `spare` bytes. Returns how many commands were done, if there was room for their
/// replies.
fn done_by_run<'a, R: RingBuffer<Counted<'a>> + Drop>(
    rt: &(impl Abort + AllocGlobal),
    mut ring: R,
    supply: &'a Supply,
    script: &Script,
    spare: usize,
) -> Option<usize> {
    supply.begin_again();
    let commands = script.commands(rt, supply);
    let drought = drought(rt, spare);
    let answered = run(rt.alloc(), &mut ring, commands);
    drop(drought);
    let (done, replies) = match answered {
        Ok(replies) => (Some(4), replies),
        Err(RunFault::Stopped { at, replies }) => (Some(at), replies),
        Err(RunFault::NoRoom(commands)) => {
            script.assert_commands(rt, commands.as_slice());
            (None, Vec::new(rt.alloc()))
        }
    };
    let count = done.unwrap_or(0);
    assert_equal(rt, replies.len(), count);
    for (i, reply) in replies.iter().enumerate() {
        assert_equal(rt, (i, script.is_reply(reply, i)), (i, true));
    }
    script.assert_done(rt, ring, count);
    assert_dropped_with(rt, supply, replies);
    done
}

/// Returns how many bytes the drought of a run spares: none, then the room for its replies, and then ever more.
fn spared_for_run(step: usize) -> usize {
    match step {
        0 => 0,
        1 => size_of::<Reply<Counted>>().saturating_mul(4),
        _ => step.saturating_mul(256).saturating_add(1024),
    }
}

/// Runs a script on a growable ring in one drought after the other, until it is done. Each of these ends is met before, as
/// how many commands were done.
fn assert_run_at_last(rt: &(impl Abort + AllocGlobal), script: &Script, ends: &[Option<usize>]) {
    let supply = supply(rt, script.items());
    let mut met = Vec::new(rt.alloc());
    let _most = Drought::of_most(rt.alloc()).expect(rt, "memory");
    for step in 0..MOST_STEPS {
        let ring = GrowableAllocRingBuffer::new(rt.alloc());
        let done = done_by_run(rt, ring, &supply, script, spared_for_run(step));
        if done == Some(4) {
            for end in ends {
                assert_equal(rt, (*end, met.contains(end)), (*end, true));
            }
            return;
        }
        met.push(done).expect(rt, "memory");
    }
    panic!(rt; "each attempt was refused")
}

#[test]
fn a_run_of_a_growable_ring_stops_where_it_is_refused(rt: HostRuntime) {
    let script = Script { extension: MANY };
    // After the command that takes an item there is room for the next.
    assert_run_at_last(&rt, &script, &[None, Some(0), Some(1)]);
}

// The rings have room for all items, so that the script overwrites none.
#[test]
fn a_run_of_a_fixed_ring_is_refused_its_replies_alone(rt: HostRuntime) -> Result<(), AllocError> {
    let script = Script { extension: 3 };
    let supply = supply(&rt, script.items());
    for (step, done) in [(0, None), (1, Some(4))] {
        let spare = spared_for_run(step);
        let array = ConstGenericRingBuffer::<_, 5>::new();
        assert_equal(&rt, done_by_run(&rt, array, &supply, &script, spare), done);
        let heap = AllocRingBuffer::new(rt.alloc(), 5)?;
        assert_equal(&rt, done_by_run(&rt, heap, &supply, &script, spare), done);
    }
    Ok(())
}

/// Runs a script into places, in a drought that spares `spare` bytes. Returns how many commands were done.
fn done_into_places(
    rt: &(impl Abort + AllocGlobal),
    supply: &Supply,
    script: &Script,
    spare: usize,
) -> usize {
    supply.begin_again();
    let mut ring = GrowableAllocRingBuffer::new(rt.alloc());
    let commands = script.commands(rt, supply);
    let mut places = [const { Some(Reply::Cleared) }; 4];
    assert_eq!(rt; commands.len(), 4);
    let drought = drought(rt, spare);
    let answered = run_into(&mut ring, commands, &mut places);
    drop(drought);
    let done = match answered {
        Ok(()) => 4,
        Err(Stopped { at }) => at,
    };
    script.assert_places(rt, &places, done);
    script.assert_done(rt, ring, done);
    assert_dropped_with(rt, supply, places);
    done
}

#[test]
fn places_hold_the_replies_before_a_refusal(rt: HostRuntime) {
    let script = Script { extension: MANY };
    let supply = supply(&rt, script.items());
    let refused = refused_in_turn!(
        &rt,
        step,
        { done_into_places(&rt, &supply, &script, spared(step)) == 4 }
    );
    assert!(rt; is_in_turn(refused) && refused > 1);
}
