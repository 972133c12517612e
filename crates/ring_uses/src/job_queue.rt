//! A bounded queue of jobs, which refuses one where it is full.

ghost use Rattle.std.specs.Prelude.{◌≡◌, ◌+◌, ◌<◌, ◌≤◌, ◌↔◌, [], ◌∷◌, ◌++◌, IfErr, IfOk, IsErr, OnOk, drop, length, slice_get, take};

use ringbuffer::{AllocRingBuffer, RingBuffer};
use std::alloc::{AllocError, Global};
use std::marker::Model;

/// The jobs that wait, the next one first, at most a number that was said when the queue was made.
#[derive(Drop)]
pub struct JobQueue<T> {
    jobs: AllocRingBuffer<T>,
}

impl<T> Model for JobQueue<T> {
    ghost use Rattle.ring_uses.specs.Jobs.{Jobs};

    ghost Value = { Jobs T };

    ghost view = { λ q. record { jobs = q.jobs.items; most = q.jobs.capacity } };
}

impl<T: Drop> JobQueue<T> {
    /// Makes a queue that no job waits in, and at most `most` may. It asks for memory here and in no other call.
    ///
    /// # Errors
    ///
    /// Where memory was refused.
    pub fn new(alloc: Global, most: usize) -> Result<Self, AllocError>
        requires { 0 < most }
        ensures { IfOk result (λ queue. queue ≡ record { jobs = []; most = most }) }
    {
        Ok(JobQueue {
            jobs: AllocRingBuffer::new(alloc, most)?,
        })
    }

    /// Returns how many jobs wait.
    pub fn waiting(&self) -> usize
        ensures value { result ≡ length self.now.jobs }
        ensures within { result ≤ self.now.most }
    {
        self.jobs.len()
    }

    /// Takes in a job as the last.
    ///
    /// # Errors
    ///
    /// Hands the job back if the queue is full, which stays as it was.
    pub fn submit(&mut self, job: T) -> Result<(), T>
        ensures taken { OnOk result
            (self.new ≡ record self.old { jobs = self.old.jobs ++ job ∷ [] }) }
        ensures refused { IfErr result (λ back. (back ≡ job) × (self.new ≡ self.old)) }
        ensures full { IsErr result ↔ (length self.old.jobs ≡ self.old.most) }
    {
        self.jobs.try_push(job)
    }

    /// Takes out the next job.
    pub fn next(&mut self) -> Option<T>
        ensures job { result ≡ slice_get self.old.jobs 0 }
        ensures rest { self.new ≡ record self.old { jobs = drop 1 self.old.jobs } }
    {
        self.jobs.dequeue()
    }

    /// Takes out the job at an index that one waits at.
    pub fn cancel(&mut self, index: usize) -> Option<T>
        requires { index < length self.old.jobs }
        ensures job { result ≡ slice_get self.old.jobs index }
        ensures rest { self.new
            ≡ record self.old {
              jobs = take index self.old.jobs ++ drop (index + 1) self.old.jobs;
            } }
    {
        self.jobs.remove(index)
    }
}
