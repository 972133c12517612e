//! Bytes on their way through rings, in pieces, and read line by line.

ghost use Rattle.std.specs.Prelude.{◌<◌};

use crate::digest::Digest;
use crate::random::Random;
use ring_uses::pipe::Pipe;
use ringbuffer::{
    AllocRingBuffer, ConstGenericRingBuffer, GrowableAllocRingBuffer, LastBytes, RingBufferExt,
};
use std::alloc::{AllocError, Global};
use std::io;
use std::io::{BufRead, Read, Write};

/// How many words of eight bytes a round's text has.
const WORDS: u32 = 8192;

/// The largest piece, in bytes.
const MOST: usize = 1 << 16;

/// Sends the bytes of `rounds` texts through pipes of each kind, and returns a digest of what came out.
pub fn run(alloc: Global, seed: u64, rounds: u32) -> Result<u64, AllocError> {
    let mut random = Random::new(seed);
    let mut digest = Digest::new();
    let mut text = Vec::with_capacity(alloc, 16 * WORDS as usize)?;
    let mut pipes = Pipes::new(alloc)?;
    let mut buffer = vec![in alloc; 0u8; MOST]?;
    for round in 0..rounds {
        write_text(&mut text, &mut random)?;
        // A pipe that fails took no memory, so its bytes stay.
        let _ = pipes.relay(text.as_slice(), &mut random, &mut buffer, &mut digest);
        if round % 4 == 0 {
            pipes.digest_last(&mut digest);
        }
    }
    Ok(digest.value())
}

/// Writes a new text in place of the old one: lines of up to 200 bytes.
fn write_text(text: &mut Vec<u8>, random: &mut Random) -> Result<(), AllocError> {
    text.clear();
    let mut words = 0;
    for _ in 0..WORDS {
        let letters = random.number() & 0x3f3f_3f3f_3f3f_3f3f | 0x4040_4040_4040_4040;
        text.extend_from_slice(&(letters & 0x5f5f_5f5f_5f5f_5f5f).to_le_bytes())?;
        if words == 0 {
            words = random.below(25);
            text.extend_from_slice(b"\n")?;
        } else {
            words -= 1;
        }
    }
    text.extend_from_slice(b"\n")
}

/// Pipes of each kind, which keep what is on its way from one round to the next.
#[derive(Drop)]
struct Pipes {
    pipe: Pipe,
    heap: AllocRingBuffer<u8>,
    array: ConstGenericRingBuffer<u8, 1000>,
    grow: GrowableAllocRingBuffer<u8>,
    lines: AllocRingBuffer<u8>,
    last: LastBytes<AllocRingBuffer<u8>>,
    last_in_array: LastBytes<ConstGenericRingBuffer<u8, 1000>>,
    line: String,
}

impl Pipes {
    fn new(alloc: Global) -> Result<Pipes, AllocError> {
        Ok(Pipes {
            pipe: Pipe::new(alloc, 1 << 20)?,
            heap: AllocRingBuffer::new(alloc, 10000)?,
            array: ConstGenericRingBuffer::new(),
            grow: GrowableAllocRingBuffer::new(alloc),
            lines: AllocRingBuffer::new(alloc, 4096)?,
            last: LastBytes::new(AllocRingBuffer::new(alloc, 100000)?),
            last_in_array: LastBytes::new(ConstGenericRingBuffer::new()),
            line: String::new(alloc),
        })
    }

    /// Sends a text through all pipes.
    fn relay(
        &mut self,
        text: &[u8],
        random: &mut Random,
        buffer: &mut [u8],
        digest: &mut Digest,
    ) -> io::Result<()> {
        // Large pieces.
        for _ in 0..4 {
            send_on(&mut self.pipe, text, random, buffer, 65536, digest);
        }
        // A piece of some KB at a time.
        stream(&mut self.heap, text, random, buffer, 4096, digest)?;
        stream(&mut self.grow, text, random, buffer, 4096, digest)?;
        stream(&mut self.array, text, random, buffer, 512, digest)?;
        // Pieces of 1 to 7 bytes.
        let (few, rest) = text.split_at(text.len() / 8);
        stream(&mut self.heap, few, random, buffer, 7, digest)?;
        stream(&mut self.grow, few, random, buffer, 7, digest)?;
        stream(&mut self.array, few, random, buffer, 7, digest)?;
        log(&mut self.last, text, random, 4096, digest)?;
        log(&mut self.last_in_array, text, random, 4096, digest)?;
        log(&mut self.last, few, random, 7, digest)?;
        read_lines(&mut self.lines, rest, &mut self.line, digest)?;
        read_blocks(&mut self.lines, rest, random, digest)
    }

    /// Adds all bytes that the logs keep to the digest.
    fn digest_last(&self, digest: &mut Digest) {
        let (first, second) = self.last.ring().as_slices();
        digest.add_bytes(first);
        digest.add_bytes(second);
        for byte in self.last_in_array.ring().iter() {
            digest.add(u64::from(*byte));
        }
    }
}

/// Sends a text through a pipe in pieces of up to `most` bytes, and takes out about as many as came in.
#[inline(never)]
fn send_on(
    pipe: &mut Pipe,
    text: &[u8],
    random: &mut Random,
    buffer: &mut [u8],
    most: u32,
    digest: &mut Digest,
)
    requires { 0 < most }
{
    let mut rest = text;
    for _ in 0..text.len() {
        if rest.is_empty() {
            break;
        }
        let piece = rest.len().min(1 + random.below(most));
        let (now, later) = rest.split_at(piece);
        digest.add(pipe.receive(now) as u64);
        rest = later;
        let places = buffer.len().min(1 + random.below(most));
        let sent = pipe.send(&mut buffer[..places]);
        digest_piece(buffer, sent, digest);
    }
}

/// Adds the number of bytes that came out to the digest, and all of them.
#[inline]
fn digest_piece(buffer: &[u8], count: usize, digest: &mut Digest) {
    digest.add(count as u64);
    if count <= buffer.len() {
        digest.add_bytes(&buffer[..count]);
    }
}

/// Writes a text to a ring in pieces of up to `most` bytes, and reads about as many as were written.
#[inline(never)]
fn stream<R: Read + Write>(
    ring: &mut R,
    text: &[u8],
    random: &mut Random,
    buffer: &mut [u8],
    most: u32,
    digest: &mut Digest,
) -> io::Result<()>
    requires { 0 < most }
{
    let mut rest = text;
    for _ in 0..text.len() {
        if rest.is_empty() {
            break;
        }
        let piece = rest.len().min(1 + random.below(most));
        let (now, later) = rest.split_at(piece);
        digest.add(ring.write(now)? as u64);
        rest = later;
        let places = buffer.len().min(1 + random.below(most));
        let count = ring.read(&mut buffer[..places])?;
        digest_piece(buffer, count, digest);
    }
    Ok(())
}

/// Writes a text to the end of a log, in pieces of up to `most` bytes.
#[inline(never)]
fn log<W: Write>(
    last: &mut W,
    text: &[u8],
    random: &mut Random,
    most: u32,
    digest: &mut Digest,
) -> io::Result<()>
    requires { 0 < most }
{
    let mut rest = text;
    for _ in 0..text.len() {
        if rest.is_empty() {
            break;
        }
        let piece = rest.len().min(1 + random.below(most));
        let (now, later) = rest.split_at(piece);
        last.write_all(now)?;
        rest = later;
        digest.add(piece as u64);
    }
    Ok(())
}

/// Writes a text to a ring in pieces, and reads up to eight lines after each.
#[inline(never)]
fn read_lines(
    ring: &mut AllocRingBuffer<u8>,
    text: &[u8],
    line: &mut String,
    digest: &mut Digest,
) -> io::Result<()> {
    for piece in text.chunks(1111) {
        digest.add(ring.write(piece)? as u64);
        for _ in 0..8 {
            line.clear();
            digest.add(ring.read_line(line)? as u64);
            digest.add_bytes(line.as_bytes());
        }
    }
    Ok(())
}

/// Writes a text to a ring in pieces, and looks at the bytes that lie side by side there before it takes them out. They lie
/// in two rows at most.
#[inline(never)]
fn read_blocks(
    ring: &mut AllocRingBuffer<u8>,
    text: &[u8],
    random: &mut Random,
    digest: &mut Digest,
) -> io::Result<()> {
    for piece in text.chunks(1000) {
        digest.add(ring.write(piece)? as u64);
        for _ in 0..2 {
            let mut left = random.below(800);
            for _ in 0..2 {
                let bytes = ring.fill_buf()?;
                let count = bytes.len().min(left);
                digest.add_bytes(&bytes[..count]);
                ring.consume(count);
                left = left.saturating_sub(count);
            }
            digest.add(left as u64);
        }
    }
    Ok(())
}
