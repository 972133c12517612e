//! Blocks of samples of a signal: pushed by slices, read at delays and by blocks, copied, compared.

ghost use Rattle.std.specs.Prelude.{◌<◌};

use crate::digest::Digest;
use crate::random::Random;
use ringbuffer::{
    AllocRingBuffer, ConstGenericRingBuffer, GrowableAllocRingBuffer, RingBuffer, RingBufferExt,
};
use std::alloc::{AllocError, Global};
use std::num::f64_to_bits_with_nan;

/// The largest block.
const BLOCK: usize = 512;

/// Blocks of samples of each type.
#[derive(Drop)]
struct Blocks {
    bits16: Vec<i16>,
    bits64: Vec<i64>,
    floats: Vec<f64>,
}

impl Blocks {
    /// Makes blocks of no samples.
    fn new(alloc: Global) -> Result<Blocks, AllocError> {
        Ok(Blocks {
            bits16: Vec::with_capacity(alloc, BLOCK)?,
            bits64: Vec::with_capacity(alloc, BLOCK)?,
            floats: Vec::with_capacity(alloc, BLOCK)?,
        })
    }

    /// Makes new blocks of 64 to 512 samples.
    fn renew(&mut self, random: &mut Random) -> Result<(), AllocError> {
        self.bits16.clear();
        self.bits64.clear();
        self.floats.clear();
        for _ in 0..64 + random.below(449) {
            let number = random.number();
            self.bits16.push((number & 0x7fff) as i16)?;
            self.bits64.push(number.cast_signed())?;
            self.floats
                .push(((number & 0xffff) as u16) as f64 - 32768.0)?;
        }
        Ok(())
    }
}

/// Sends blocks through rings of each kind `rounds` times, and returns a digest of what was read.
pub fn run(alloc: Global, seed: u64, rounds: u32) -> Result<u64, AllocError> {
    let mut random = Random::new(seed);
    let mut digest = Digest::new();
    let mut blocks = Blocks::new(alloc)?;
    let mut delay = ConstGenericRingBuffer::<i16, 480>::new();
    let mut history = ConstGenericRingBuffer::<i64, 1000>::new();
    let mut kept = ConstGenericRingBuffer::<i64, 1000>::new();
    let mut signal = AllocRingBuffer::new(alloc, 3000)?;
    let mut wide = AllocRingBuffer::new(alloc, 48000)?;
    let mut queue = GrowableAllocRingBuffer::new(alloc);
    for round in 0..rounds {
        let reads_all = round % 4 == 0;
        for number in 0..16 {
            blocks.renew(&mut random)?;
            read_at_delays(
                &mut delay,
                blocks.bits16.as_slice(),
                &mut random,
                &mut digest,
            );
            let is_whole = reads_all && number == 15;
            filter(&mut signal, blocks.floats.as_slice(), is_whole, &mut digest);
            history.extend_from_slice(blocks.bits64.as_slice());
            let is_whole = is_whole && round % 64 == 16;
            read_back(&mut wide, blocks.bits64.as_slice(), is_whole, &mut digest);
            pass_on(
                &mut queue,
                blocks.bits64.as_slice(),
                &mut random,
                &mut digest,
            )?;
            digest_few(blocks.bits64.as_slice(), &mut digest);
        }
        snapshot(&history, &mut kept, &mut digest)?;
        copy_out(alloc, &blocks, &mut digest)?;
        if reads_all {
            digest_items(&kept, &mut digest);
            history.fill(i64::from(round))?;
            signal.fill(f64::from(round))?;
            digest_items(&history, &mut digest);
            let (first, second) = signal.as_slices();
            digest.add_floats(first);
            digest.add_floats(second);
        }
    }
    Ok(digest.value())
}

/// Pushes a block, and reads samples at delays and a block of the oldest.
#[inline(never)]
fn read_at_delays(
    ring: &mut ConstGenericRingBuffer<i16, 480>,
    block: &[i16],
    random: &mut Random,
    digest: &mut Digest,
) {
    ring.extend_from_slice(block);
    let mut digested = *digest;
    for _ in 0..64 {
        let delay = -1 - random.below(480) as isize;
        if let Some(sample) = ring.get_signed(delay) {
            digested.add_signed(i64::from(*sample));
        }
    }
    let mut output = [0i16; 256];
    digested.add(ring.copy_to_slice(&mut output) as u64);
    digested.add_samples(&output);
    let mut oldest = [0i16; 64];
    digested.add(ring.dequeue_into(&mut oldest) as u64);
    digested.add_samples(&oldest);
    *digest = digested;
}

/// Pushes a block, one sample after the other, and adds up the newest samples. Now and then it reads all samples.
#[inline(never)]
fn filter(ring: &mut AllocRingBuffer<f64>, block: &[f64], is_whole: bool, digest: &mut Digest) {
    let _ = ring.extend(block.iter().copied());
    let (first, second) = ring.as_slices();
    digest.add(first.len() as u64);
    digest.add(second.len() as u64);
    digest.add_option(first.first().map(|sample| f64_to_bits_with_nan(*sample)));
    if is_whole {
        digest.add_floats(first);
        digest.add_floats(second);
    }
    let mut sum = 0.0;
    let mut digested = *digest;
    for sample in ring.range(ring.len().saturating_sub(64)..) {
        sum += *sample;
        digested.add(f64_to_bits_with_nan(*sample));
    }
    digested.add(f64_to_bits_with_nan(sum));
    *digest = digested;
}

/// Pushes a block, and lays the ring out in one piece. Now and then it reads all samples.
#[inline(never)]
fn read_back(ring: &mut AllocRingBuffer<i64>, block: &[i64], is_whole: bool, digest: &mut Digest) {
    ring.extend_from_slice(block);
    if ring.len() % 16 == 0 {
        let samples = ring.make_contiguous();
        digest.add_option(samples.first().map(|sample| sample.cast_unsigned()));
        if is_whole {
            digest.add_each_signed(samples);
        }
    }
    let mut digested = *digest;
    for sample in ring.range(..256) {
        digested.add_signed(*sample);
    }
    *digest = digested;
}

/// Puts a block into a queue, and takes blocks out while it holds more than some thousand samples.
#[inline(never)]
fn pass_on(
    queue: &mut GrowableAllocRingBuffer<i64>,
    block: &[i64],
    random: &mut Random,
    digest: &mut Digest,
) -> Result<(), AllocError> {
    queue.extend_from_slice(block)?;
    queue.extend(block.iter().copied())?;
    let mut output = [0i64; BLOCK];
    for _ in 0..8 {
        if queue.len() < 8000 {
            break;
        }
        let count = queue.dequeue_into(&mut output[..64 + random.below(449)]);
        digest.add(count as u64);
        digest.add_each_signed(&output[..count.min(BLOCK)]);
    }
    Ok(())
}

/// Makes small rings of 40 samples of a block, each nine later than the one before, pushes the next few samples onto each,
/// and adds up what they hold, each sample in other bits.
#[inline(never)]
fn digest_few(block: &[i64], digest: &mut Digest) {
    let mut digested = *digest;
    let mut rest = block;
    for few in block.split_at(block.len().min(40)).1.chunks(9) {
        let mut ring = ConstGenericRingBuffer::<i64, 48>::new();
        ring.extend_from_slice(rest.split_at(rest.len().min(40)).0);
        rest = rest.split_at(rest.len().min(9)).1;
        for sample in few {
            if let Ok(Some(old)) = ring.push(*sample) {
                digested.add_signed(old);
            }
        }
        let mut sum = 0u64;
        for sample in &ring {
            sum = sum.rotate_left(1).wrapping_add(sample.cast_unsigned());
        }
        digested.add(sum);
    }
    *digest = digested;
}

/// Clones a ring, compares it with its clone and with the last one that was kept, and keeps it.
#[inline(never)]
fn snapshot(
    ring: &ConstGenericRingBuffer<i64, 1000>,
    kept: &mut ConstGenericRingBuffer<i64, 1000>,
    digest: &mut Digest,
) -> Result<(), AllocError> {
    let mut copy = ring.clone()?;
    digest.add(u64::from(*ring == copy));
    digest.add(u64::from(*kept == copy));
    if let Some(sample) = copy.back_mut() {
        *sample = sample.wrapping_add(1);
    }
    digest.add(u64::from(*ring == copy));
    ring.clone_into(kept)
}

/// Adds each sample of a ring to the digest.
fn digest_items(ring: &ConstGenericRingBuffer<i64, 1000>, digest: &mut Digest) {
    let mut digested = *digest;
    for sample in ring.iter() {
        digested.add_signed(*sample);
    }
    *digest = digested;
}

/// Makes rings of the samples of a block, and copies them out.
#[inline(never)]
fn copy_out(alloc: Global, blocks: &Blocks, digest: &mut Digest) -> Result<(), AllocError> {
    let samples = blocks.bits64.as_slice();
    let array = ConstGenericRingBuffer::<i64, 1000>::from_slice(samples)?;
    digest.add_option(array.back().map(|sample| sample.cast_unsigned()));
    digest.add_each_signed(array.to_vec(alloc)?.as_slice());
    if samples.is_empty() {
        return Ok(());
    }
    let heap = AllocRingBuffer::from_slice(alloc, samples)?;
    digest.add_option(heap.back().map(|sample| sample.cast_unsigned()));
    digest.add_each_signed(heap.to_vec_copied(alloc)?.as_slice());
    digest.add(u64::from(heap.contains(&7)));
    digest.add(u64::from(array.contains(&7)));
    Ok(())
}
