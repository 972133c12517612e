//! Runs of commands on any lawful ring.

ghost use Rattle.std.specs.Prelude.{◌≡◌, ℕ, List, [], ◌∷◌, ◌++◌, ◌+◌, ◌-◌, ◌*◌, ◌<◌, ◌≤◌, IfErr, IfOk, IsOk, IsSome, OnOk, None, Some, length, map, replicate, slice_set, take, vec_capacity, vec_len};
ghost use Rattle.ring_core.specs.Contents.{Counts};
ghost use Rattle.ring_core.specs.History.{CountsFew, CountsTwice, KeepsToNumbers, MeaningsAgree, RunsJoinByNumber, contents_after, pushed, replies_of, steps};
ghost use Rattle.ring_core.specs.Replies.{CanStore, Stores};
ghost use Rattle.ring_core.specs.Meaning.{IfNoRoom, IfStopped, IsRefused, RunsJoin, StopsAt, after_all, after_one, places, puts, replies_to, reply_to};

use crate::command::{Command, Refused, Reply, RunFault, Stopped};
use crate::ring::RingBuffer;
use std::alloc::Global;

/// Does the call that the command names.
///
/// # Errors
///
/// Where memory was refused, which no ring with a limit meets.
pub fn apply<T: Drop, R: RingBuffer<T>>(
    ring: &mut R,
    command: Command<T>,
) -> Result<Reply<T>, Refused<T>>
    ensures contents { OnOk result (R.contents ring.new
        ≡ after_one (R.limit ring.old) (R.contents ring.old) command) }
    ensures reply { IfOk result
        (λ reply. reply ≡ reply_to (R.limit ring.old) (R.contents ring.old) command) }
    ensures refused { IfErr result (IsRefused command (R.contents ring.old) (R.contents ring.new)) }
    ensures limit { R.limit ring.new ≡ R.limit ring.old }
    ensures changes { Counts R.limit R.contents R.slot_changes ring.old ring.new (length (puts command)) }
    ensures succeeds { IsSome (R.limit ring.old) → IsOk result }
{
    match command {
        Command::Push(item) => match ring.push(item) {
            Ok(old) => Ok(Reply::Pushed(old)),
            Err(item) => Err(Refused::Push(item)),
        },
        Command::Extend(items) => match ring.extend(items) {
            Ok(()) => Ok(Reply::Extended),
            Err(_) => Err(Refused::Extend),
        },
        Command::Dequeue => Ok(Reply::Dequeued(ring.dequeue())),
        Command::Skip => {
            ring.skip();
            Ok(Reply::Skipped)
        }
        Command::Clear => {
            ring.clear();
            Ok(Reply::Cleared)
        }
    }
}

/// Empties every place.
fn empty<T: Drop>(replies: &mut [Option<Reply<T>>])
    ensures { replies.new ≡ replicate (length replies.old) None }
{
    for place in replies.iter_mut() {
        *place = None;
    }
}

/// What a run stores its replies in.
trait Replies<T: Drop>: Sized {
    ghost use Rattle.std.specs.Prelude.{ℕ, List};
    ghost use Rattle.ring_core.specs.declared.command.Reply.{Reply};

    // Since the first of the two states these replies were stored, and there is room for so many more.
    ghost HasTaken: { Self → Self → List (Reply T) → ℕ → Type 0 };

    // Stores the reply that comes after `at` others.
    fn store(&mut self, at: usize, reply: Reply<T>)
        requires { CanStore HasTaken self.old at }
        ensures { Stores HasTaken self.old self.new at reply };
}

// Each reply goes last in a vector, which has room for it.
impl<T: Drop> Replies<T> for Vec<Reply<T>> {
    ghost HasTaken = { λ _ now replies room. (now.items ≡ replies)
        × (length replies + room ≤ vec_capacity now) };

    #[inline]
    fn store(&mut self, _at: usize, reply: Reply<T>)
        requires { vec_len self.old < vec_capacity self.old }
        ensures items { self.new.items ≡ self.old.items ++ reply ∷ [] }
        ensures room { vec_capacity self.old ≤ vec_capacity self.new }
    {
        self.push(reply).unwrap();
    }
}

/// Places for replies, empty at first.
#[derive(Drop)]
struct Places<'a, T> {
    places: &'a mut [Option<Reply<T>>],
}

// Each reply goes into the place with its number.
impl<'a, T: Drop> Replies<T> for Places<'a, T> {
    ghost HasTaken = { λ first now replies room. (now.places.ghost_name ≡ first.places.ghost_name)
        × (now.places.now ≡ places (length replies + room) replies) };

    #[inline]
    fn store(&mut self, at: usize, reply: Reply<T>)
        requires { at < length self.old.places.now }
        ensures same_reference { self.new.places.ghost_name ≡ self.old.places.ghost_name }
        ensures stored { self.new.places.now ≡ slice_set self.old.places.now at (Some reply) }
    {
        self.places[at] = Some(reply);
    }
}

/// Does the commands in order, and stores the reply to each.
fn run_all<T: Drop, R: RingBuffer<T>, P: Replies<T>>(
    ring: &mut R,
    commands: Vec<Command<T>>,
    replies: &mut P,
) -> Result<(), Stopped>
    requires { P.HasTaken replies.old replies.old [] (length commands.items) }
    ensures never_refused { IsSome (R.limit ring.old) → IsOk result }
    ensures same_limit { R.limit ring.new ≡ R.limit ring.old }
    ensures in_turn { OnOk result (R.contents ring.new
        ≡ after_all (R.limit ring.old) (R.contents ring.old) commands.items) }
    ensures contents { OnOk result (R.contents ring.new
        ≡ contents_after (R.limit ring.old) (R.contents ring.old) commands.items) }
    ensures replies { OnOk result (P.HasTaken replies.old replies.new
        (replies_to (R.limit ring.old) (R.contents ring.old) commands.items) 0) }
    ensures same_replies { replies_of (R.limit ring.old) (R.contents ring.old) commands.items
        ≡ replies_to (R.limit ring.old) (R.contents ring.old) commands.items }
    ensures numbers { KeepsToNumbers (R.limit ring.old) (R.contents ring.old)
        (steps commands.items) }
    ensures changes { Counts R.limit R.contents R.slot_changes ring.old ring.new (length (pushed (steps commands.items))) }
    ensures few_changes { CountsFew R.limit R.contents R.slot_changes ring.old ring.new commands.items }
    ensures twice { CountsTwice R.limit R.contents R.slot_changes ring.old ring.new commands.items }
    ensures stopped { IfErr result
        (λ s. StopsAt (R.limit ring.old) (R.contents ring.old) commands.items s.at
        (R.contents ring.new)) }
    ensures replies_before { IfErr result
        (λ s. P.HasTaken replies.old replies.new
        (replies_to (R.limit ring.old) (R.contents ring.old) (take s.at commands.items))
        (length commands.items - s.at)) }
{
    // For the proof: the contents are within the limit.
    let _ = ring.len();
    let mut at = 0;
    for command in commands {
        let Ok(reply) = apply(ring, command) else {
            return Err(Stopped { at });
        };
        replies.store(at, reply);
        at += 1;
    }
    Ok(())
}

/// Does the commands in order, and puts the reply to each into the place with its number. It takes no memory.
///
/// # Errors
///
/// Where memory was refused, which no ring with a limit meets. The places from the refused command on hold `None`, and
/// the commands that were not done are dropped.
pub fn run_into<T: Drop, R: RingBuffer<T>>(
    ring: &mut R,
    commands: Vec<Command<T>>,
    replies: &mut [Option<Reply<T>>],
) -> Result<(), Stopped>
    requires { length replies.old ≡ length commands.items }
    ensures never_refused { IsSome (R.limit ring.old) → IsOk result }
    ensures same_limit { R.limit ring.new ≡ R.limit ring.old }

    // Each command in turn does what it does to a list.
    ensures in_turn { OnOk result (R.contents ring.new
        ≡ after_all (R.limit ring.old) (R.contents ring.old) commands.items) }
    ensures replies_in_turn { OnOk result (replies.new
        ≡ map Some (replies_to (R.limit ring.old) (R.contents ring.old) commands.items)) }

    // By item numbers: what is left and replied is what the numbers held after each step say.
    ensures contents { OnOk result (R.contents ring.new
        ≡ contents_after (R.limit ring.old) (R.contents ring.old) commands.items) }
    ensures replies { OnOk result (replies.new
        ≡ map Some (replies_of (R.limit ring.old) (R.contents ring.old) commands.items)) }
    ensures numbers { KeepsToNumbers (R.limit ring.old) (R.contents ring.old)
        (steps commands.items) }
    ensures changes { Counts R.limit R.contents R.slot_changes ring.old ring.new (length (pushed (steps commands.items))) }
    ensures few_changes { CountsFew R.limit R.contents R.slot_changes ring.old ring.new commands.items }
    ensures twice { CountsTwice R.limit R.contents R.slot_changes ring.old ring.new commands.items }

    // A run that stopped did the commands before, and part of the one that was refused.
    ensures stopped { IfErr result
        (λ s. StopsAt (R.limit ring.old) (R.contents ring.old) commands.items s.at
        (R.contents ring.new)) }
    ensures replies_before { IfErr result
        (λ s. replies.new ≡ places (length commands.items)
        (replies_to (R.limit ring.old) (R.contents ring.old) (take s.at commands.items))) }
{
    empty(replies);
    run_all(ring, commands, &mut Places { places: replies })
}

/// Does the commands in order, and returns the reply to each. It takes the memory for all replies first.
///
/// # Errors
///
/// `NoRoom` where that memory was refused, and `Stopped` where a command was; the commands that were not done are then
/// dropped.
pub fn run<T: Drop, R: RingBuffer<T>>(
    alloc: Global,
    ring: &mut R,
    commands: Vec<Command<T>>,
) -> Result<Vec<Reply<T>>, RunFault<T>>
    ensures never_stopped { IsSome (R.limit ring.old) → IfErr result (λ f. IfStopped f (λ _ _. ⊥)) }
    ensures same_limit { R.limit ring.new ≡ R.limit ring.old }

    // Each command in turn does what it does to a list.
    ensures in_turn { OnOk result (R.contents ring.new
        ≡ after_all (R.limit ring.old) (R.contents ring.old) commands.items) }
    ensures replies_in_turn { IfOk result
        (λ r. r.items ≡ replies_to (R.limit ring.old) (R.contents ring.old) commands.items) }

    // By item numbers: what is left and replied is what the numbers held after each step say.
    ensures contents { OnOk result (R.contents ring.new
        ≡ contents_after (R.limit ring.old) (R.contents ring.old) commands.items) }
    ensures replies { IfOk result
        (λ r. r.items ≡ replies_of (R.limit ring.old) (R.contents ring.old) commands.items) }
    ensures numbers { KeepsToNumbers (R.limit ring.old) (R.contents ring.old)
        (steps commands.items) }
    ensures changes { Counts R.limit R.contents R.slot_changes ring.old ring.new (length (pushed (steps commands.items))) }
    ensures few_changes { CountsFew R.limit R.contents R.slot_changes ring.old ring.new commands.items }
    ensures twice { CountsTwice R.limit R.contents R.slot_changes ring.old ring.new commands.items }

    // A run that found no room did nothing.
    ensures no_room { IfErr result
        (λ f. IfNoRoom f (λ back. (back ≡ commands) × (ring.new ≡ ring.old))) }

    // A run that stopped did the commands before, and part of the one that was refused.
    ensures stopped { IfErr result
        (λ f. IfStopped f (λ at _. StopsAt (R.limit ring.old)
        (R.contents ring.old) commands.items at (R.contents ring.new))) }
    ensures replies_before { IfErr result
        (λ f. IfStopped f (λ at r. r
        ≡ replies_to (R.limit ring.old) (R.contents ring.old) (take at commands.items))) }
{
    let Ok(mut replies) = Vec::with_capacity(alloc, commands.len()) else {
        // For the proof: the contents are within the limit.
        let _ = ring.len();
        return Err(RunFault::NoRoom(commands));
    };
    match run_all(ring, commands, &mut replies) {
        Ok(()) => Ok(replies),
        Err(stopped) => Err(RunFault::Stopped {
            at: stopped.at,
            replies,
        }),
    }
}

/// Shows by its contract that both meanings of a run are the same on a ring that is within its limit, and that runs join
/// by both. It does nothing.
pub fn runs_join<T>()
    ensures meanings { MeaningsAgree T }
    ensures in_turn { RunsJoin T }
    ensures by_number { RunsJoinByNumber T }
{}
