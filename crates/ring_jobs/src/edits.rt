//! Histories, queues and lists that change at both ends and in the middle, and runs of commands.

ghost use Rattle.std.specs.Prelude.{◌<◌};

use crate::digest::Digest;
use crate::random::Random;
use ring_uses::undo::History;
use ringbuffer::{
    AllocRingBuffer, Command, ConstGenericRingBuffer, DoubleEndedRing, GrowableAllocRingBuffer,
    Reply, RingBuffer, RingBufferExt, binary_search, retain, run as run_commands, run_into,
};
use std::alloc::{AllocError, Global};

/// How many commands a run has.
const COMMANDS: usize = 2048;

/// What an editor can take back.
#[derive(Clone, Copy)]
struct Change {
    at: [u64; 4],
    text: [u64; 4],
}

/// Edits rings of each kind `rounds` times, and returns a digest of what came out.
pub fn run(alloc: Global, seed: u64, rounds: u32) -> Result<u64, AllocError> {
    let mut random = Random::new(seed);
    let mut digest = Digest::new();
    let mut large = AllocRingBuffer::new(alloc, 65536)?;
    let mut times = AllocRingBuffer::new(alloc, 65536)?;
    let mut small = ConstGenericRingBuffer::<u64, 1000>::new();
    let mut list = GrowableAllocRingBuffer::new(alloc);
    let mut history = History::new(alloc, 1000)?;
    let mut heap = AllocRingBuffer::new(alloc, 1000)?;
    let mut array = ConstGenericRingBuffer::<u64, 100>::new();
    let mut queue = GrowableAllocRingBuffer::new(alloc);
    let mut replies = places(alloc)?;
    refill(&mut large, 65536, &mut random, &mut digest);
    refill(&mut small, 1000, &mut random, &mut digest);
    refill(&mut list, 20000, &mut random, &mut digest);
    let mut now = 0u64;
    for round in 0..rounds {
        exchange(&mut large, 8, &mut random, &mut digest);
        exchange(&mut small, 128, &mut random, &mut digest);
        exchange(&mut list, 16, &mut random, &mut digest);
        turn(&mut small, &mut random, &mut digest);
        cut(&mut small, &mut random, &mut digest);
        refill(&mut small, 20, &mut random, &mut digest);
        if round % 16 == 0 {
            turn(&mut large, &mut random, &mut digest);
            cut(&mut large, &mut random, &mut digest);
            keep_most(&mut large, &mut random, &mut digest);
            refill(&mut large, 20000, &mut random, &mut digest);
            digest_slices(large.as_slices(), &mut digest);
            digest_slices(list.as_slices(), &mut digest);
            digest_slices(times.as_slices(), &mut digest);
        }
        keep_most(&mut small, &mut random, &mut digest);
        refill(&mut small, 100, &mut random, &mut digest);
        now = find_times(&mut times, now, &mut random, &mut digest);
        undo_some(&mut history, &mut random, &mut digest);
        work_both_ends(&mut list, &mut random, &mut digest);
        work_both_ends(&mut small, &mut random, &mut digest);
        run_all(alloc, &mut heap, &mut random, &mut digest)?;
        run_all(alloc, &mut queue, &mut random, &mut digest)?;
        run_in_place(alloc, &mut array, &mut replies, &mut random, &mut digest)?;
        queue.keep_newest(5000);
        digest_items(&small, &mut digest);
        digest_items(&array, &mut digest);
        digest_slices(heap.as_slices(), &mut digest);
        digest_slices(queue.as_slices(), &mut digest);
    }
    Ok(digest.value())
}

/// Pushes so many random numbers.
fn refill<R: RingBuffer<u64>>(
    ring: &mut R,
    count: usize,
    random: &mut Random,
    digest: &mut Digest,
) {
    for _ in 0..count {
        digest.add_push(ring.push(random.number()));
    }
}

/// Adds each item of a ring to the digest.
#[inline(never)]
fn digest_items<R: RingBuffer<u64>>(ring: &R, digest: &mut Digest) {
    let mut digested = *digest;
    digested.add(ring.len() as u64);
    for item in ring.iter() {
        digested.add(*item);
    }
    *digest = digested;
}

/// Adds each item of a ring that lies in two slices to the digest.
fn digest_slices(items: (&[u64], &[u64]), digest: &mut Digest) {
    let (first, second) = items;
    digest.add((first.len() as u64).wrapping_add(second.len() as u64));
    digest.add_each(first);
    digest.add_each(second);
}

/// Takes items out at random indexes, and puts others in.
#[inline(never)]
fn exchange<R: DoubleEndedRing<u64>>(
    ring: &mut R,
    count: u32,
    random: &mut Random,
    digest: &mut Digest,
) {
    for _ in 0..count {
        let from = random.below(65536);
        let to = random.below(65536);
        let len = ring.len();
        if len > 0 {
            digest.add_option(ring.remove(from % len));
        }
        let len = ring.len();
        let _ = ring.insert(to.min(len), random.number());
    }
}

/// Turns a ring by a random number of items, and swaps some.
#[inline(never)]
fn turn<R: DoubleEndedRing<u64>>(ring: &mut R, random: &mut Random, digest: &mut Digest) {
    let count = random.below(65536);
    if count <= ring.len() {
        ring.rotate_left(count);
    } else {
        ring.rotate_right(ring.len() / 3);
    }
    for _ in 0..16 {
        let i = random.below(1000);
        let j = random.below(1000);
        if i < ring.len() && j < ring.len() {
            ring.swap(i, j);
        }
    }
    digest.add_option(ring.front().copied());
}

/// Drops some items in the middle.
#[inline(never)]
fn cut<R: DoubleEndedRing<u64>>(ring: &mut R, random: &mut Random, digest: &mut Digest) {
    let from = random.below(1000);
    ring.remove_range(from..from + 20);
    digest.add(ring.len() as u64);
}

/// Drops about one item in eight.
#[inline(never)]
fn keep_most<R: RingBuffer<u64>>(ring: &mut R, random: &mut Random, digest: &mut Digest) {
    let dropped = random.number() % 8;
    let _ = retain(ring, |item| *item % 8 != dropped);
    digest.add(ring.len() as u64);
}

/// Pushes times that rise, and searches for some. Returns the last.
#[inline(never)]
fn find_times(
    times: &mut AllocRingBuffer<u64>,
    now: u64,
    random: &mut Random,
    digest: &mut Digest,
) -> u64 {
    let mut now = now;
    for _ in 0..512 {
        now = now.wrapping_add(random.below(100) as u64);
        digest.add_push(times.push(now));
    }
    for _ in 0..128 {
        let time = now.wrapping_sub(random.below(4000000) as u64);
        match binary_search(times, &time) {
            Ok(index) => digest.add(index as u64),
            Err(index) => digest.add(!(index as u64)),
        }
    }
    now
}

/// Records changes, and takes some back.
#[inline(never)]
fn undo_some(history: &mut History<Change>, random: &mut Random, digest: &mut Digest) {
    for _ in 0..64 {
        for _ in 0..random.below(12) {
            let number = random.number();
            history.record(Change {
                at: [number; 4],
                text: [!number; 4],
            });
        }
        for _ in 0..random.below(10) {
            if let Some(change) = history.undo() {
                digest.add_each(&change.at);
                digest.add_each(&change.text);
            }
        }
    }
}

/// Puts items in at both ends, and takes as many out at both.
#[inline(never)]
fn work_both_ends<R: DoubleEndedRing<u64>>(ring: &mut R, random: &mut Random, digest: &mut Digest) {
    for _ in 0..256 {
        let number = random.number();
        digest.add_push(ring.push_front(number));
        digest.add_option(ring.pop_back());
        digest.add_push(ring.push(number));
        digest.add_option(ring.dequeue());
    }
}

/// Makes commands: most are pushes and dequeues, some extensions, few clear.
fn commands(alloc: Global, random: &mut Random) -> Result<Vec<Command<u64>>, AllocError> {
    let mut commands = Vec::with_capacity(alloc, COMMANDS)?;
    for _ in 0..COMMANDS {
        let number = random.number();
        commands.push(match random.below(512) {
            0 => Command::Clear,
            1..8 => Command::Extend(vec![in alloc; number; 20]?),
            8..100 => Command::Skip,
            100..200 => Command::Dequeue,
            _ => Command::Push(number),
        })?;
    }
    Ok(commands)
}

/// Adds what a reply hands back to the digest.
fn digest_reply(reply: &Reply<u64>, digest: &mut Digest) {
    match reply {
        Reply::Pushed(old) => digest.add_option(*old),
        Reply::Dequeued(item) => digest.add_option(*item),
        Reply::Extended => digest.add(1),
        Reply::Skipped => digest.add(2),
        Reply::Cleared => digest.add(3),
    }
}

/// Runs commands, with a vector of their replies.
#[inline(never)]
fn run_all<R: RingBuffer<u64>>(
    alloc: Global,
    ring: &mut R,
    random: &mut Random,
    digest: &mut Digest,
) -> Result<(), AllocError> {
    let commands = commands(alloc, random)?;
    let Ok(replies) = run_commands(alloc, ring, commands) else {
        return Err(AllocError);
    };
    for reply in &replies {
        digest_reply(reply, digest);
    }
    Ok(())
}

/// Makes a place for each reply of a run.
fn places(alloc: Global) -> Result<Vec<Option<Reply<u64>>>, AllocError> {
    let mut places = Vec::with_capacity(alloc, COMMANDS)?;
    for _ in 0..COMMANDS {
        places.push(None)?;
    }
    Ok(places)
}

/// Runs commands, with their replies in places that were made before.
#[inline(never)]
fn run_in_place(
    alloc: Global,
    ring: &mut ConstGenericRingBuffer<u64, 100>,
    replies: &mut [Option<Reply<u64>>],
    random: &mut Random,
    digest: &mut Digest,
) -> Result<(), AllocError> {
    let commands = commands(alloc, random)?;
    if commands.len() != replies.len() {
        return Ok(());
    }
    let _ = run_into(ring, commands, replies);
    for reply in replies.iter() {
        if let Some(reply) = reply {
            digest_reply(reply, digest);
        }
    }
    Ok(())
}
