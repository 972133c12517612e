//! The last lines of a log, with snapshots, comparisons and searches now and then.

ghost use Rattle.std.specs.Prelude.{◌<◌};

use crate::digest::Digest;
use crate::random::Random;
use ring_uses::tail::LogTail;
use ringbuffer::{AllocRingBuffer, DoubleEndedRing, RingBuffer, RingBufferExt};
use std::alloc::{AllocError, Global};
use std::hash::{FoldHasher, Hash, Hasher};

/// How many different lines a round has.
const LINES: u32 = 256;

/// How many lines a round pushes.
const PUSHES: u32 = 4000;

/// Lines of up to 400 bytes. Half of them share a long beginning.
#[derive(Drop)]
struct Lines {
    lines: Vec<String>,
}

impl Lines {
    /// Makes new lines.
    fn new(alloc: Global, random: &mut Random) -> Result<Lines, AllocError> {
        let mut lines = Vec::with_capacity(alloc, LINES as usize)?;
        let mut shared = String::new(alloc);
        append(&mut shared, random, 25)?;
        for number in 0..LINES {
            let mut line = String::new(alloc);
            if number % 2 == 0 {
                line.push_str(shared.as_str())?;
            }
            let most = if number % 2 == 0 { 25 } else { 50 };
            let words = random.below(most);
            append(&mut line, random, words)?;
            lines.push(line)?;
        }
        Ok(Lines { lines })
    }

    /// Returns a random line.
    fn line(&self, random: &mut Random) -> Result<String, AllocError> {
        match self.lines.get(random.below(LINES)) {
            Some(line) => line.clone(),
            None => Err(AllocError),
        }
    }
}

/// Appends so many words of eight bytes.
fn append(line: &mut String, random: &mut Random, words: usize) -> Result<(), AllocError> {
    for _ in 0..words {
        let word = random.number() >> 36;
        write!(line, "{word:07x} ")?;
    }
    Ok(())
}

/// Feeds `rounds` times some thousand lines to three logs, looks at them now and then, and returns a digest of what was
/// seen.
pub fn run(alloc: Global, seed: u64, rounds: u32) -> Result<u64, AllocError> {
    let mut random = Random::new(seed);
    let mut digest = Digest::new();
    let mut tail = LogTail::new(alloc, 20000)?;
    let mut log = AllocRingBuffer::new(alloc, 5000)?;
    let mut last = AllocRingBuffer::new(alloc, 5000)?;
    let mut recent = AllocRingBuffer::new(alloc, 1000)?;
    let mut kept = AllocRingBuffer::new(alloc, 1000)?;
    for _ in 0..rounds {
        let lines = Lines::new(alloc, &mut random)?;
        for _ in 0..PUSHES {
            tail.feed(lines.line(&mut random)?);
        }
        digest_lengths(&tail, &mut digest);
        for number in 0..PUSHES {
            let pushed = log.push(lines.line(&mut random)?);
            digest_push(pushed, number % 4 == 0, &mut digest);
        }
        last = look(alloc, &log, &last, &lines, &mut random, &mut digest)?;
        for number in 0..100 {
            digest_push(recent.push(lines.line(&mut random)?), true, &mut digest);
            if number % 10 == 0 {
                compare(&recent, &kept, &mut digest);
                keep(&recent, &mut kept)?;
                compare(&recent, &kept, &mut digest);
            }
        }
        drain_some(&mut recent, &mut digest);
    }
    Ok(digest.value())
}

/// Adds how many bytes each line of a log has to the digest.
#[inline(never)]
fn digest_lengths(tail: &LogTail, digest: &mut Digest) {
    let mut digested = *digest;
    for line in tail.iter() {
        digested.add(line.len() as u64);
    }
    *digest = digested;
}

/// Adds the line that gave way for another to the digest, if one did: all its bytes, or only how many they are.
#[inline]
fn digest_push(pushed: Result<Option<String>, String>, is_whole: bool, digest: &mut Digest) {
    let Ok(Some(old)) = pushed else {
        return;
    };
    if is_whole {
        digest.add_bytes(old.as_bytes());
    } else {
        digest.add(old.len() as u64);
    }
}

/// Reads the newest lines, searches for lines, compares with the last snapshot, and returns a new one.
#[inline(never)]
fn look(
    alloc: Global,
    log: &AllocRingBuffer<String>,
    last: &AllocRingBuffer<String>,
    lines: &Lines,
    random: &mut Random,
    digest: &mut Digest,
) -> Result<AllocRingBuffer<String>, AllocError> {
    for line in log.range(log.len().saturating_sub(50)..) {
        digest.add_bytes(line.as_bytes());
    }
    for _ in 0..8 {
        let mut line = lines.line(random)?;
        digest.add(u64::from(log.contains(&line)));
        line.push_str("!")?;
        digest.add(u64::from(log.contains(&line)));
    }
    compare(log, last, digest);
    let snapshot = log.clone()?;
    compare(log, &snapshot, digest);
    let mut hasher = FoldHasher::default();
    log.hash(&mut hasher);
    digest.add(hasher.finish());
    let copies = log.to_vec(alloc)?;
    digest.add(copies.len() as u64);
    for line in &copies {
        digest.add_bytes(line.as_bytes());
    }
    Ok(snapshot)
}

/// Makes a snapshot in the memory of another, which is as large.
fn keep(
    log: &AllocRingBuffer<String>,
    kept: &mut AllocRingBuffer<String>,
) -> Result<(), AllocError> {
    if log.len() > kept.capacity() {
        return Ok(());
    }
    DoubleEndedRing::clone_into(log, kept)
}

/// Adds how two logs compare to the digest.
#[inline(never)]
fn compare(log: &AllocRingBuffer<String>, other: &AllocRingBuffer<String>, digest: &mut Digest) {
    digest.add(u64::from(log == other));
    let order = log.cmp(other);
    digest.add(u64::from(order.is_lt()));
    digest.add(u64::from(order.is_gt()));
}

/// Keeps the newest 500 lines, and takes out half of those.
#[inline(never)]
fn drain_some(log: &mut AllocRingBuffer<String>, digest: &mut Digest) {
    log.keep_newest(500);
    let count = log.len() / 2;
    for line in log.drain().take(count) {
        digest.add_bytes(line.as_bytes());
    }
}
