//! A jitter buffer: frames of a telephone call come in, or are lost and made up, and go out in blocks.

ghost use Rattle.std.specs.Prelude.{◌<◌, ◌≤◌};

use crate::Task;
use crate::digest::Digest;
use crate::random::Random;
use ringbuffer::{
    AllocRingBuffer, ConstGenericRingBuffer, CopyRingBuffer, DoubleEndedRing, FixedRing,
    GrowableAllocRingBuffer, RingBuffer, TakesCopies,
};
use std::alloc::{AllocError, Global};

/// The most samples that wait.
const LIMIT: usize = 1920;

/// The most samples of a frame.
const MOST: usize = 960;

/// How many frames of samples and of bytes come in a round.
const FRAMES: u32 = 50;

/// A sample, or a byte that stands for one.
trait Sample: Copy + Drop {
    /// Makes a sample of some bits.
    fn of_bits(bits: u64) -> Self;

    /// Adds samples to a digest.
    fn digest(samples: &[Self], digest: &mut Digest);
}

impl Sample for i16 {
    #[inline]
    fn of_bits(bits: u64) -> i16 {
        (bits & 0x7fff) as i16
    }

    #[inline]
    fn digest(samples: &[i16], digest: &mut Digest) {
        digest.add_samples(samples);
    }
}

impl Sample for u8 {
    #[inline]
    fn of_bits(bits: u64) -> u8 {
        (bits & 0xff) as u8
    }

    #[inline]
    fn digest(samples: &[u8], digest: &mut Digest) {
        digest.add_bytes(samples);
    }
}

/// A ring that takes frames in and gives them out.
trait Frames<T: Sample>: DoubleEndedRing<T> {
    /// Puts a frame last. The oldest samples give way.
    fn bring(&mut self, frame: &[T]);

    /// Takes the oldest samples out, and returns how many.
    fn take(&mut self, output: &mut [T]) -> usize;
}

impl<T: Sample, S: TakesCopies<T>> Frames<T> for FixedRing<T, S> {
    fn bring(&mut self, frame: &[T]) {
        self.extend_from_slice(frame);
    }

    fn take(&mut self, output: &mut [T]) -> usize {
        self.dequeue_into(output)
    }
}

impl<T: Sample> Frames<T> for GrowableAllocRingBuffer<T> {
    fn bring(&mut self, frame: &[T]) {
        // A refused frame is lost.
        let _ = self.extend_from_slice(frame);
        self.keep_newest(LIMIT);
    }

    fn take(&mut self, output: &mut [T]) -> usize {
        self.dequeue_into(output)
    }
}

type InArray<T> = ConstGenericRingBuffer<T, 1920>;

type InPlainArray<T> = CopyRingBuffer<T, 1920>;

/// Sends frames through rings of a type, and returns a digest of what went out.
pub fn run(ring: &str, task: Task) -> Result<u64, AllocError> {
    let alloc = task.alloc;
    match ring {
        "array" => over(task, InArray::<i16>::new(), InArray::<u8>::new()),
        "copy" => over(
            task,
            InPlainArray::<i16>::new(0),
            InPlainArray::<u8>::new(0),
        ),
        "heap" => {
            let samples = AllocRingBuffer::<i16>::new(alloc, LIMIT)?;
            over(task, samples, AllocRingBuffer::<u8>::new(alloc, LIMIT)?)
        }
        _ => {
            let samples = GrowableAllocRingBuffer::<i16>::new(alloc);
            over(task, samples, GrowableAllocRingBuffer::<u8>::new(alloc))
        }
    }
}

/// Sends frames of samples through one ring, and of bytes through the other.
fn over<A: Frames<i16> + Drop, B: Frames<u8> + Drop>(
    task: Task,
    mut samples: A,
    mut bytes: B,
) -> Result<u64, AllocError> {
    let mut random = Random::new(task.seed);
    let mut digest = Digest::new();
    let mut wide = Buffers::new(task.alloc)?;
    let mut narrow = Buffers::new(task.alloc)?;
    for _ in 0..task.rounds {
        for _ in 0..FRAMES {
            pass(&mut samples, &mut wide, &mut random, &mut digest)?;
            pass(&mut bytes, &mut narrow, &mut random, &mut digest)?;
        }
    }
    Ok(digest.value())
}

/// The frame that came last, and what went out last.
#[derive(Drop)]
struct Buffers<T> {
    frame: Vec<T>,
    output: Vec<T>,
}

impl<T: Sample> Buffers<T> {
    fn new(alloc: Global) -> Result<Buffers<T>, AllocError> {
        let mut output = Vec::with_capacity(alloc, MOST)?;
        for _ in 0..MOST {
            output.push(T::of_bits(0))?;
        }
        Ok(Buffers {
            frame: Vec::with_capacity(alloc, MOST)?,
            output,
        })
    }
}

/// Puts a frame in, unless it is lost, and takes a block out. One in 16 frames is lost, and the newest samples stand for it; one
/// in 32 blocks is passed over.
#[inline(never)]
fn pass<T: Sample, R: Frames<T>>(
    ring: &mut R,
    buffers: &mut Buffers<T>,
    random: &mut Random,
    digest: &mut Digest,
) -> Result<(), AllocError> {
    let len = 160 + random.below(801);
    if random.one_in(16) {
        conceal(ring, len, &mut buffers.frame)?;
    } else {
        renew(&mut buffers.frame, len, random)?;
    }
    ring.bring(buffers.frame.as_slice());
    let places = 160 + random.below(801);
    let is_passed_over = random.one_in(32);
    let places = places.min(buffers.output.len());
    let block = &mut buffers.output.as_mut_slice()[..places];
    let count = ring.take(block);
    digest.add(count as u64);
    if !is_passed_over && count <= block.len() {
        T::digest(&block[..count], digest);
    }
    Ok(())
}

/// Makes a new frame, of eight samples a number.
fn renew<T: Sample>(frame: &mut Vec<T>, len: usize, random: &mut Random) -> Result<(), AllocError> {
    frame.clear();
    let mut bits = 0;
    for k in 0..len {
        if k % 8 == 0 {
            bits = random.number();
        }
        frame.push(T::of_bits(bits >> (k % 8)))?;
    }
    Ok(())
}

/// Makes a frame of the newest samples of a ring, read at delays.
fn conceal<T: Sample, R: RingBuffer<T>>(
    ring: &R,
    len: usize,
    frame: &mut Vec<T>,
) -> Result<(), AllocError>
    requires { len ≤ 960 }
{
    frame.clear();
    for k in 0..len {
        if let Some(sample) = ring.get_signed(k as isize - len as isize) {
            frame.push(*sample)?;
        }
    }
    Ok(())
}
