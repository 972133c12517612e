//! Bytes through `std::io`.
ghost use Rattle.std.specs.Prelude.{IsSome};

use crate::case::Case;
use ringbuffer::{LastBytes, RingBuffer};
use std::alloc::{AllocError, Global};
use std::io::{BufRead, Read, Write};

/// Returns whether a call is one of `std::io`.
pub fn has(call: &str) -> bool {
    matches!(call, "write_read" | "write_consume" | "last_bytes")
}

/// Makes the call of a case on a ring that is empty, and returns what it found, as a number.
pub fn by<R: RingBuffer<u8> + Read + BufRead + Write + Drop>(
    alloc: Global,
    mut ring: R,
    case: Case<'_>,
) -> Result<u64, AllocError> {
    case.fill(&mut ring);
    let bytes = case.block::<u8>(alloc)?;
    let mut output = case.block::<u8>(alloc)?;
    Ok(match case.call {
        "write_read" => write_read(
            &mut ring,
            bytes.as_slice(),
            output.as_mut_slice(),
            case.times,
        ),
        _ => write_consume(&mut ring, bytes.as_slice(), case.times),
    })
}

#[inline(never)]
fn write_read<R: Read + Write>(ring: &mut R, bytes: &[u8], output: &mut [u8], times: u32) -> u64 {
    let mut sum = 0u64;
    for _ in 0..times {
        sum ^= ring.write(bytes).unwrap_or(0) as u64;
        sum ^= ring.read(output).unwrap_or(0) as u64;
    }
    sum
}

#[inline(never)]
fn write_consume<R: BufRead + Write>(ring: &mut R, bytes: &[u8], times: u32) -> u64 {
    let mut sum = 0u64;
    for _ in 0..times {
        sum ^= ring.write(bytes).unwrap_or(0) as u64;
        let lent = ring.fill_buf().map_or(0, |bytes| bytes.len());
        sum ^= lent as u64;
        ring.consume(lent.min(bytes.len()));
    }
    sum
}

/// Writes blocks to the end of a log over a ring that is empty, and returns what it found, as a number.
pub fn log<R: RingBuffer<u8> + Drop>(
    alloc: Global,
    ring: R,
    case: Case<'_>,
) -> Result<u64, AllocError>
    requires { IsSome (R.limit ring) }
{
    let bytes = case.block::<u8>(alloc)?;
    Ok(last_bytes(ring, bytes.as_slice(), case.times))
}

#[inline(never)]
fn last_bytes<R: RingBuffer<u8> + Drop>(ring: R, bytes: &[u8], times: u32) -> u64
    requires { IsSome (R.limit ring) }
{
    let mut log = LastBytes::new(ring);
    let mut sum = 0u64;
    for _ in 0..times {
        sum ^= log.write(bytes).unwrap_or(0) as u64;
    }
    sum
}
