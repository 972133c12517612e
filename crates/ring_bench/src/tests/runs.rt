//! Commands, one by one and in runs.

use super::{assert_equal, assert_holds, push_all};
use ring_test_support::commands::{REPLIES_OF_TWO, every_command};
use ring_test_support::{on_each, on_fixed, on_ring};
use ringbuffer::Command::{self, Dequeue};
use ringbuffer::{Reply, RingBuffer, run, run_into, runs_join};
use std::process::Abort;
use std::slice::from_ref;

/// What a growable ring replies to every command.
const REPLIES_WITHOUT_LIMIT: [Reply<i64>; 6] = [
    Reply::Pushed(None),
    Reply::Extended,
    Reply::Dequeued(Some(1)),
    Reply::Skipped,
    Reply::Dequeued(Some(3)),
    Reply::Cleared,
];

/// Runs the commands over places that hold old replies, and finds these replies.
fn assert_run_into<R: RingBuffer<i64>>(
    rt: &(impl Abort + AllocGlobal),
    ring: &mut R,
    commands: Vec<Command<i64>>,
    replies: &[Reply<i64>],
) {
    let mut places = Vec::with_capacity(rt.alloc(), replies.len()).expect(rt, "memory");
    for _ in replies {
        assert!(rt; places.push(Some(Reply::Cleared)).is_ok());
    }
    assert!(rt; places.len() == commands.len());
    assert_equal(rt, run_into(ring, commands, places.as_mut_slice()), Ok(()));
    for (i, place) in places.iter().enumerate() {
        assert_equal(rt, (i, place.as_ref()), (i, replies.get(i)));
    }
}

/// Runs the commands, and finds these replies.
fn assert_run<R: RingBuffer<i64>>(
    rt: &(impl Abort + AllocGlobal),
    ring: &mut R,
    commands: Vec<Command<i64>>,
    replies: &[Reply<i64>],
) {
    let answered = run(rt.alloc(), ring, commands).expect(rt, "memory for the replies");
    assert_equal(rt, answered.as_slice(), replies);
}

#[test]
fn a_run_makes_its_replies(rt: HostRuntime) {
    on_fixed!(&rt, 2, assert_runs, &REPLIES_OF_TWO);
    on_ring!(growable, &rt, 2, assert_runs, &REPLIES_WITHOUT_LIMIT);
    on_fixed!(&rt, 2, assert_runs_join);
}

#[test]
fn a_run_leaves_what_its_commands_leave(rt: HostRuntime) {
    on_fixed!(&rt, 2, assert_leaves_items);
    on_each!(&rt, 3, assert_run_of_nothing);
    on_each!(&rt, 3, assert_takes_all);
}

/// A ring that commands are run on.
trait Commanded: RingBuffer<i64> + Drop {
    /// Runs every command, into places and for a list, and finds these replies, and nothing left.
    fn assert_runs(mut self, rt: &(impl Abort + AllocGlobal), replies: &[Reply<i64>]) {
        let commands = every_command(rt.alloc()).expect(rt, "memory");
        assert_run_into(rt, &mut self, commands, replies);
        assert_holds(rt, &self, &[]);
        let commands = every_command(rt.alloc()).expect(rt, "memory");
        assert_run(rt, &mut self, commands, replies);
        assert_holds(rt, &self, &[]);
    }

    /// Runs every command by itself, which leaves and replies what one run of all does.
    fn assert_runs_join(mut self, rt: &(impl Abort + AllocGlobal)) {
        runs_join::<i64>();
        let commands = every_command(rt.alloc()).expect(rt, "memory");
        for (command, reply) in commands.into_iter().zip(&REPLIES_OF_TWO) {
            let command = vec![in rt.alloc(); command].expect(rt, "memory");
            assert_run_into(rt, &mut self, command, from_ref(reply));
        }
        assert_holds(rt, &self, &[]);
    }

    fn assert_leaves_items(mut self, rt: &(impl Abort + AllocGlobal)) {
        let extension = vec![in rt.alloc(); 1, 2, 3].expect(rt, "memory");
        let commands = vec![in rt.alloc(); Command::Extend(extension), Command::Push(4)];
        let replies = [Reply::Extended, Reply::Pushed(Some(2))];
        assert_run(rt, &mut self, commands.expect(rt, "memory"), &replies);
        assert_holds(rt, &self, &[3, 4]);
    }

    fn assert_run_of_nothing(mut self, rt: &(impl Abort + AllocGlobal)) {
        push_all(rt, &mut self, &[1, 2, 3]);
        assert_run_into(rt, &mut self, Vec::new(rt.alloc()), &[]);
        assert_run(rt, &mut self, Vec::new(rt.alloc()), &[]);
        assert_holds(rt, &self, &[1, 2, 3]);
    }

    /// Takes more than there is.
    fn assert_takes_all(mut self, rt: &(impl Abort + AllocGlobal)) {
        push_all(rt, &mut self, &[1, 2, 3]);
        let taken = [Some(1), Some(2), Some(3), None].map(Reply::Dequeued);
        let commands = vec![in rt.alloc(); Dequeue, Dequeue, Dequeue, Dequeue];
        assert_run_into(rt, &mut self, commands.expect(rt, "memory"), &taken);
        assert_holds(rt, &self, &[]);
    }
}

impl<R: RingBuffer<i64> + Drop> Commanded for R {}
