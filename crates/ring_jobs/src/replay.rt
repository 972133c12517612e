//! Scripts that the program `ringrun` runs, from bytes in memory to bytes in memory.

use crate::digest::Digest;
use crate::random::Random;
use crate::script::{Numerals, Shape, write_script};
use ringrun_service::serve;
use std::alloc::{AllocError, Global};
use std::io;
use std::io::{Read, Write};

/// Bytes that are read from memory.
#[derive(Drop)]
struct Source<'a> {
    rest: &'a [u8],
}

impl Read for Source<'_> {
    fn read(&mut self, buf: &mut [u8]) -> io::Result<usize> {
        let count = buf.len().min(self.rest.len());
        let (given, left) = self.rest.split_at(count);
        buf[..count].copy_from_slice(given);
        self.rest = left;
        Ok(count)
    }
}

/// What was written, in memory.
#[derive(Drop)]
struct Sink {
    bytes: Vec<u8>,
}

impl Write for Sink {
    fn write(&mut self, buf: &[u8]) -> io::Result<usize> {
        self.bytes.extend_from_slice(buf)?;
        Ok(buf.len())
    }

    fn flush(&mut self) -> io::Result<()> {
        Ok(())
    }
}

/// The shapes of scripts, in turn. Most lines that users write are of the first.
const SHAPES: [Shape; 8] = [
    Shape::Mixed,
    Shape::Mixed,
    Shape::LongNumbers,
    Shape::Mixed,
    Shape::Mixed,
    Shape::SingleItems,
    Shape::Mixed,
    Shape::BadEnd,
];

/// Serves `rounds` scripts, each on a ring of each kind, and returns a digest of the statuses and of all that was written.
pub fn run(alloc: Global, seed: u64, rounds: u32) -> Result<u64, AllocError> {
    let mut random = Random::new(seed);
    let mut digest = Digest::new();
    let mut script = Vec::new(alloc);
    let heap = arguments(alloc, "heap", "1000")?;
    let array = arguments(alloc, "array", "10")?;
    let grow = arguments(alloc, "grow", "0")?;
    let numerals = Numerals::new(alloc, &mut random)?;
    for round in 0..rounds {
        let shape = SHAPES[round as usize % 8];
        write_script(&mut script, &mut random, &numerals, shape)?;
        serve_script(alloc, heap.as_slice(), script.as_slice(), &mut digest);
        serve_script(alloc, array.as_slice(), script.as_slice(), &mut digest);
        serve_script(alloc, grow.as_slice(), script.as_slice(), &mut digest);
    }
    Ok(digest.value())
}

fn arguments(alloc: Global, kind: &str, capacity: &str) -> Result<Vec<String>, AllocError> {
    let mut words = Vec::with_capacity(alloc, 2)?;
    words.push(String::from_str(alloc, kind)?)?;
    words.push(String::from_str(alloc, capacity)?)?;
    Ok(words)
}

/// Serves a script, and adds its status and what it wrote to the digest.
fn serve_script(alloc: Global, words: &[String], script: &[u8], digest: &mut Digest) {
    let mut input = Source { rest: script };
    let mut output = Sink {
        bytes: Vec::new(alloc),
    };
    let mut errors = Sink {
        bytes: Vec::new(alloc),
    };
    let status = serve(alloc, words, &mut input, &mut output, &mut errors);
    digest.add(u64::from(status));
    digest.add_bytes(output.bytes.as_slice());
    digest.add_bytes(errors.bytes.as_slice());
}
