//! Windows over a series of samples: sums, moments, the least, the greatest, and folds, each read after each push.

ghost use Rattle.std.specs.Prelude.{◌<◌};

use crate::digest::Digest;
use crate::random::Random;
use ringbuffer::RingBuffer;
use std::alloc::{AllocError, Global};
use window::{
    AllocWindowFold, AllocWindowMax, AllocWindowMin, AllocWindowMoments, AllocWindowSum, Candidate,
    ConstGenericWindowFold, ConstGenericWindowMax, ConstGenericWindowMin, ConstGenericWindowSum,
    GrowableAllocWindowFold, GrowableAllocWindowMin, GrowableAllocWindowSum, Kept, Matrix, Monoid,
    Order, PolynomialHash, WindowFold, WindowLeast, WindowSum,
};

/// How many samples a round has.
const SAMPLES: u32 = 8192;

/// A random walk with ties, which rises for some thousands of samples and falls for as many.
#[derive(Clone, Copy)]
struct Walk {
    sample: i64,
    steps: u32,
    drift: i64,
}

impl Walk {
    /// Returns a walk that has taken no step.
    fn new() -> Walk {
        Walk {
            sample: 0,
            steps: 0,
            drift: 0,
        }
    }

    /// Returns the next sample. Each is within 2^31 of 0.
    #[inline]
    fn sample(&mut self, random: &mut Random) -> i64 {
        if self.steps == 0 {
            self.steps = 2000 + random.below(6000) as u32;
            self.drift = random.below(5) as i64 - 2;
        }
        self.steps -= 1;
        let step = random.below(9) as i64 - 4;
        let sample = self.sample.wrapping_add(step).wrapping_add(self.drift);
        self.sample = sample.clamp(-1000000000, 1000000000);
        self.sample
    }
}

/// Puts the next samples in place of the old ones.
fn renew(samples: &mut Vec<i64>, walk: &mut Walk, random: &mut Random) -> Result<(), AllocError> {
    samples.clear();
    for _ in 0..SAMPLES {
        samples.push(walk.sample(random))?;
    }
    Ok(())
}

/// Pushes `rounds` stretches of a series onto windows of each kind, and returns a digest of what was read after each push.
pub fn run(alloc: Global, seed: u64, rounds: u32) -> Result<u64, AllocError> {
    let mut random = Random::new(seed);
    let mut digest = Digest::new();
    sums(alloc, &mut random, rounds, &mut digest)?;
    leasts(alloc, &mut random, rounds, &mut digest)?;
    large_leasts(alloc, &mut random, rounds, &mut digest)?;
    folds(alloc, &mut random, rounds, &mut digest)?;
    Ok(digest.value())
}

/// Pushes samples onto windows that know their sum.
fn sums(
    alloc: Global,
    random: &mut Random,
    rounds: u32,
    digest: &mut Digest,
) -> Result<(), AllocError> {
    let mut walk = Walk::new();
    let mut samples = Vec::with_capacity(alloc, SAMPLES as usize)?;
    let mut heap = AllocWindowSum::on_heap(alloc, 1000)?;
    let mut array = ConstGenericWindowSum::<100>::in_array();
    let mut queue = GrowableAllocWindowSum::growable(alloc);
    let mut moments = AllocWindowMoments::on_heap(alloc, 100)?;
    for _ in 0..rounds {
        renew(&mut samples, &mut walk, random)?;
        slide_sum(&mut heap, &samples, usize::MAX, digest);
        slide_sum(&mut array, &samples, usize::MAX, digest);
        slide_sum(&mut queue, &samples, 1000, digest);
        slide_moments(&mut moments, &samples, digest);
    }
    Ok(())
}

/// Pushes samples onto windows that know their least sample, or their greatest.
fn leasts(
    alloc: Global,
    random: &mut Random,
    rounds: u32,
    digest: &mut Digest,
) -> Result<(), AllocError> {
    let mut walk = Walk::new();
    let mut samples = Vec::with_capacity(alloc, SAMPLES as usize)?;
    let mut heap = AllocWindowMin::on_heap(alloc, 1000)?;
    let mut small = ConstGenericWindowMin::<i64, 3>::in_array();
    let mut greatest = ConstGenericWindowMax::<i64, 100>::in_array();
    let mut queue = GrowableAllocWindowMin::growable(alloc);
    for _ in 0..rounds {
        renew(&mut samples, &mut walk, random)?;
        slide_least(&mut heap, &samples, usize::MAX, digest);
        slide_least(&mut small, &samples, usize::MAX, digest);
        slide_least(&mut greatest, &samples, usize::MAX, digest);
        slide_least(&mut queue, &samples, 1000, digest);
    }
    Ok(())
}

/// Pushes samples onto large windows that know their least sample, or their greatest: a walk, and a long rise and fall.
fn large_leasts(
    alloc: Global,
    random: &mut Random,
    rounds: u32,
    digest: &mut Digest,
) -> Result<(), AllocError> {
    let mut walk = Walk::new();
    let mut samples = Vec::with_capacity(alloc, SAMPLES as usize)?;
    let mut greatest = AllocWindowMax::on_heap(alloc, 65536)?;
    let mut least = AllocWindowMin::on_heap(alloc, 65536)?;
    let mut tide = 0;
    for _ in 0..rounds {
        renew(&mut samples, &mut walk, random)?;
        slide_least(&mut greatest, &samples, usize::MAX, digest);
        tide = slide_tide(&mut least, tide, digest);
    }
    Ok(())
}

/// Pushes bytes and matrices onto windows that fold them.
fn folds(
    alloc: Global,
    random: &mut Random,
    rounds: u32,
    digest: &mut Digest,
) -> Result<(), AllocError> {
    let mut walk = Walk::new();
    let mut samples = Vec::with_capacity(alloc, SAMPLES as usize)?;
    let mut hash = AllocWindowFold::on_heap(alloc, 1000)?;
    let mut product = ConstGenericWindowFold::<Matrix, 100>::in_array();
    let mut queue = GrowableAllocWindowFold::growable(alloc);
    for _ in 0..rounds {
        renew(&mut samples, &mut walk, random)?;
        slide_hash(&mut hash, &samples, digest);
        slide_product(&mut product, &samples, usize::MAX, digest);
        slide_product(&mut queue, &samples, 1000, digest);
    }
    Ok(())
}

/// Pushes samples onto a window, takes the oldest out where there are more than `most`, and reads the sum each time.
#[inline(never)]
fn slide_sum<R: RingBuffer<i64>>(
    window: &mut WindowSum<R>,
    samples: &[i64],
    most: usize,
    digest: &mut Digest,
) {
    let mut digested = *digest;
    for sample in samples {
        digested.add_signed_push(window.push(*sample));
        if window.len() > most {
            digested.add_option(window.dequeue().map(i64::cast_unsigned));
        }
        digested.add((window.sum().unsigned_abs() & 0xffff_ffff_ffff_ffff) as u64);
    }
    *digest = digested;
}

/// Pushes samples onto a window, and reads their variance each time.
#[inline(never)]
fn slide_moments(window: &mut AllocWindowMoments, samples: &[i64], digest: &mut Digest) {
    let mut digested = *digest;
    for sample in samples {
        let Ok(sample) = i32::try_from(*sample) else {
            continue;
        };
        if let Ok(old) = window.push(sample) {
            digested.add_option(old.map(|old| i64::from(old).cast_unsigned()));
        }
        if window.fits_variance()
            && let Some(variance) = window.variance()
        {
            digested.add((variance.numerator.unsigned_abs() & 0xffff_ffff_ffff_ffff) as u64);
        }
    }
    *digest = digested;
}

/// Pushes samples onto a window, takes the oldest out where there are more than `most`, and reads the least each time.
#[inline(never)]
fn slide_least<O: Order<i64>, R: RingBuffer<Candidate<i64>>>(
    window: &mut WindowLeast<i64, O, R>,
    samples: &[i64],
    most: usize,
    digest: &mut Digest,
) {
    let mut digested = *digest;
    for sample in samples {
        let _ = window.push(*sample);
        if window.len() > most {
            digested.add_option(window.dequeue().map(i64::cast_unsigned));
        }
        digested.add_option(window.least().map(|least| least.cast_unsigned()));
    }
    *digest = digested;
}

/// Pushes samples that rise for 65,536 of them and then fall for as many, the first of which is the `tide`th of all.
/// Returns the number of the next.
#[inline(never)]
fn slide_tide(window: &mut AllocWindowMin<i64>, tide: u32, digest: &mut Digest) -> u32 {
    let mut digested = *digest;
    let mut number = tide;
    for _ in 0..SAMPLES {
        let height = i64::from(number % 65536);
        let is_rising = number / 65536 % 2 == 0;
        let _ = window.push(if is_rising { height } else { 65536 - height });
        digested.add_option(window.least().map(|least| least.cast_unsigned()));
        number = number.wrapping_add(1);
    }
    *digest = digested;
    number
}

/// Pushes the low bytes of samples onto a window, and reads their hash each time.
#[inline(never)]
fn slide_hash(window: &mut AllocWindowFold<PolynomialHash>, samples: &[i64], digest: &mut Digest) {
    let mut digested = *digest;
    for sample in samples {
        let byte = (sample.cast_unsigned() & 255) as u8;
        if let Ok(old) = window.push(PolynomialHash::of_byte(byte)) {
            digested.add_option(old.map(|old| old.hash()));
        }
        digested.add(window.fold().hash());
    }
    *digest = digested;
}

/// Adds each entry of a matrix to the digest.
#[inline]
fn digest_matrix(matrix: &Matrix, digest: &mut Digest) {
    digest.add(matrix.a);
    digest.add(matrix.b);
    digest.add(matrix.c);
    digest.add(matrix.d);
}

/// Adds a matrix that left a window to the digest, if one did.
#[inline]
fn digest_gone(gone: Option<Matrix>, digest: &mut Digest) {
    match gone {
        Some(matrix) => digest_matrix(&matrix, digest),
        None => digest.add_option(None),
    }
}

/// Pushes matrices onto a window, takes the oldest out where there are more than `most`, and reads their product each
/// time.
#[inline(never)]
fn slide_product<R: RingBuffer<Kept<Matrix>>>(
    window: &mut WindowFold<Matrix, R>,
    samples: &[i64],
    most: usize,
    digest: &mut Digest,
) {
    let mut digested = *digest;
    for sample in samples {
        let number = sample.cast_unsigned();
        let matrix = Matrix {
            a: 1,
            b: number,
            c: 1,
            d: 3,
        };
        if let Ok(old) = window.push(matrix) {
            digest_gone(old, &mut digested);
        }
        if window.len() > most {
            digest_gone(window.dequeue(), &mut digested);
        }
        digest_matrix(&window.fold(), &mut digested);
    }
    *digest = digested;
}
