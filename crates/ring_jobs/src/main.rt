//! `ring_jobs JOB SEED ROUNDS`: does a job that users of the rings wait for, so many times on inputs of its own, and prints a
//! digest of all results.
//!
//! JOB is `replay`, `windows`, `tail`, `pipe`, `samples`, `edits`, or `all` for one after the other. SEED and ROUNDS are
//! numbers below 2^32. Each seed gives other inputs of the same kinds and sizes.
#![tactic(auto)]

mod digest;
mod edits;
mod pipe;
mod random;
mod replay;
mod samples;
mod script;
mod tail;
mod windows;

use std::alloc::{AllocError, Global};
use std::rt::Env;
use std::{env, io};

fn main(rt: HostRuntime) -> io::Result<()> {
    let words = words(&rt)?;
    let [job, seed, rounds] = words.as_slice() else {
        return eprintln!(rt; "usage: ring_jobs JOB SEED ROUNDS");
    };
    let (Ok(seed), Ok(rounds)) = (seed.parse::<u32>(), rounds.parse::<u32>()) else {
        return eprintln!(rt; "SEED and ROUNDS are numbers below 2^32");
    };
    let digest = match job.as_str() {
        "all" => all(rt.alloc(), u64::from(seed), rounds)?,
        job => one(rt.alloc(), job, u64::from(seed), rounds)?,
    };
    println!(rt; "{digest}")
}

/// Returns the program's arguments after its name.
fn words(rt: &(impl Env + AllocGlobal)) -> io::Result<Vec<String>> {
    Ok(env::args(rt)?.skip(1).collect(rt.alloc())?)
}

/// Does the job of this name, if there is one, and returns its digest.
fn one(alloc: Global, job: &str, seed: u64, rounds: u32) -> Result<u64, AllocError> {
    match job {
        "replay" => replay::run(alloc, seed, rounds),
        "windows" => windows::run(alloc, seed, rounds),
        "tail" => tail::run(alloc, seed, rounds),
        "pipe" => pipe::run(alloc, seed, rounds),
        "samples" => samples::run(alloc, seed, rounds),
        "edits" => edits::run(alloc, seed, rounds),
        _ => Ok(0),
    }
}

/// Does all jobs, and returns a digest of their digests.
fn all(alloc: Global, seed: u64, rounds: u32) -> Result<u64, AllocError> {
    let mut digest = digest::Digest::new();
    for job in ["replay", "windows", "tail", "pipe", "samples", "edits"] {
        digest.add(one(alloc, job, seed, rounds)?);
    }
    Ok(digest.value())
}
