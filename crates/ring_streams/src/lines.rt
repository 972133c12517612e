//! A text that comes in small pieces, is read line by line, and whose last bytes are kept.

ghost use Rattle.std.specs.Prelude.{IsSome};

use crate::Task;
use crate::digest::Digest;
use crate::random::Random;
use ringbuffer::{
    AllocRingBuffer, ConstGenericRingBuffer, CopyRingBuffer, GrowableAllocRingBuffer, LastBytes,
    RingBuffer, RingBufferExt,
};
use std::alloc::{AllocError, Global};
use std::io;
use std::io::{BufRead, Write};

/// How many bytes wait, and how many are kept.
const ROOM: usize = 1000;

/// How many words of eight bytes a round's text has.
const WORDS: u32 = 8192;

type InArray = ConstGenericRingBuffer<u8, 1000>;

type InPlainArray = CopyRingBuffer<u8, 1000>;

/// Sends texts through a ring of a type, and returns a digest of the lines and of what was kept.
pub fn run(ring: &str, task: Task) -> Result<u64, AllocError> {
    let alloc = task.alloc;
    match ring {
        "array" => over(task, InArray::new(), InArray::new()),
        "copy" => over(task, InPlainArray::new(0), InPlainArray::new(0)),
        "heap" => {
            let lines = AllocRingBuffer::new(alloc, ROOM)?;
            over(task, lines, AllocRingBuffer::new(alloc, ROOM)?)
        }
        // The last bytes are kept by a limit, which no growable ring has.
        _ => {
            let lines = GrowableAllocRingBuffer::new(alloc);
            over(task, lines, AllocRingBuffer::new(alloc, ROOM)?)
        }
    }
}

/// Sends texts through one ring, and keeps the last bytes in the other.
fn over<R: BufRead + Write + Drop, L: RingBuffer<u8> + Drop>(
    task: Task,
    mut lines: R,
    kept: L,
) -> Result<u64, AllocError>
    requires { IsSome (L.limit kept) }
{
    let mut random = Random::new(task.seed);
    let mut digest = Digest::new();
    let mut last = LastBytes::new(kept);
    let mut text = Vec::with_capacity(task.alloc, 16 * WORDS as usize)?;
    let mut line = String::new(task.alloc);
    for _ in 0..task.rounds {
        write_text(&mut text, &mut random)?;
        // A ring that fails took no memory, so its bytes stay.
        let (text, line) = (text.as_slice(), &mut line);
        let _ = relay(&mut lines, &mut last, text, line, &mut random, &mut digest);
        for byte in last.ring().iter() {
            digest.add(u64::from(*byte));
        }
    }
    Ok(digest.value())
}

/// Writes a new text in place of the old one: lines of up to 200 bytes.
fn write_text(text: &mut Vec<u8>, random: &mut Random) -> Result<(), AllocError> {
    text.clear();
    let mut words = 0;
    for _ in 0..WORDS {
        let letters = random.number() & 0x1f1f_1f1f_1f1f_1f1f | 0x4040_4040_4040_4040;
        text.extend_from_slice(&letters.to_le_bytes())?;
        if words == 0 {
            words = random.below(25);
            text.extend_from_slice(b"\n")?;
        } else {
            words -= 1;
        }
    }
    text.extend_from_slice(b"\n")
}

/// Writes a text in pieces of 1 to 64 bytes to a ring and a log, and reads each line from the ring once it is whole.
#[inline(never)]
fn relay<R: BufRead + Write, L: Write>(
    ring: &mut R,
    last: &mut L,
    text: &[u8],
    line: &mut String,
    random: &mut Random,
    digest: &mut Digest,
) -> io::Result<()> {
    let mut rest = text;
    for _ in 0..text.len() {
        if rest.is_empty() {
            break;
        }
        let piece = rest.len().min(1 + random.below(64));
        let (now, later) = rest.split_at(piece);
        digest.add(ring.write(now)? as u64);
        last.write_all(now)?;
        rest = later;
        for byte in now {
            if *byte == b'\n' {
                line.clear();
                digest.add(ring.read_line(line)? as u64);
                digest.add_bytes(line.as_bytes());
            }
        }
    }
    Ok(())
}
