//! `ring_streams JOB RING SEED ROUNDS`: does a job on a stream over rings of one type, and prints a digest of what came out.
//!
//! JOB is `frames` or `lines`. RING is `array`, `copy`, `heap` or `grow`; the digest is the same over each. SEED and ROUNDS are
//! numbers below 2^32.
#![tactic(auto)]

mod digest;
mod frames;
mod lines;
mod random;

use std::alloc::Global;
use std::rt::Env;
use std::{env, io};

fn main(rt: HostRuntime) -> io::Result<()> {
    let words: Vec<String> = env::args(&rt)?.skip(1).collect(rt.alloc())?;
    let [job, ring, seed, rounds] = words.as_slice() else {
        return eprintln!(rt; "usage: ring_streams JOB RING SEED ROUNDS");
    };
    let (Ok(seed), Ok(rounds)) = (seed.parse::<u32>(), rounds.parse::<u32>()) else {
        return eprintln!(rt; "SEED and ROUNDS are numbers below 2^32");
    };
    let task = Task {
        alloc: rt.alloc(),
        seed: u64::from(seed),
        rounds,
    };
    let digest = match job.as_str() {
        "frames" => frames::run(ring, task)?,
        _ => lines::run(ring, task)?,
    };
    println!(rt; "{digest}")
}

/// How often a job is done, and on which inputs.
#[derive(Clone, Copy)]
struct Task {
    alloc: Global,
    seed: u64,
    rounds: u32,
}
