//! A pipe of bytes, and a copy through it.

ghost use Rattle.std.specs.Prelude.{◌≡◌, ℕ, ◌+◌, ◌-◌, ◌<◌, ◌≤◌, [], ◌++◌, IfOk, IfSome, IsNone, None, OnErr, OnOk, Some, drop, length, min, nat_eq, position, take};

use ringbuffer::{AllocRingBuffer, DoubleEndedRingExt, RingBufferExt};
use std::alloc::{AllocError, Global};
use std::io::{Read, Write};
use std::marker::Model;

/// Bytes on their way, oldest first. What has come in goes out, in order and once.
#[derive(Drop)]
pub struct Pipe {
    bytes: AllocRingBuffer<u8>,
}

impl Model for Pipe {
    ghost use Rattle.ring_uses.specs.Bytes.{Bytes};

    ghost Value = { Bytes };

    ghost view = { λ p. record { bytes = p.bytes.items; capacity = p.bytes.capacity } };
}

impl Pipe {
    /// Makes a pipe with no byte on its way and room for `capacity` of them.
    ///
    /// # Errors
    ///
    /// Where memory was refused.
    pub fn new(alloc: Global, capacity: usize) -> Result<Self, AllocError>
        requires { 0 < capacity }
        ensures { IfOk result (λ pipe. pipe ≡ record { bytes = []; capacity = capacity }) }
    {
        Ok(Pipe {
            bytes: AllocRingBuffer::new(alloc, capacity)?,
        })
    }

    /// Takes in the first of these bytes, as many as there is room for, and returns how many. It overwrites none.
    pub fn receive(&mut self, input: &[u8]) -> usize
        ensures count { result
            ≡ min (length input.now) (self.old.capacity - length self.old.bytes) }
        ensures bytes { self.new
            ≡ record self.old { bytes = self.old.bytes ++ take result input.now } }
        ensures within { length self.new.bytes ≤ self.new.capacity }
    {
        self.bytes.write(input).unwrap_or(0)
    }

    /// Hands out the oldest bytes, as many as there are places for, and returns how many. The other places stay.
    pub fn send(&mut self, output: &mut [u8]) -> usize
        ensures count { result ≡ min (length output.old) (length self.old.bytes) }
        ensures sent { output.new ≡ take result self.old.bytes ++ drop result output.old }
        ensures rest { self.new ≡ record self.old { bytes = drop result self.old.bytes } }
    {
        self.bytes.read(output).unwrap_or(0)
    }

    /// Takes out the next line with its end, or returns `None` while none has come in whole.
    ///
    /// # Errors
    ///
    /// Where memory was refused. The line stays.
    pub fn next_line(&mut self, alloc: Global) -> Result<Option<Vec<u8>>, AllocError>
        ensures line { (i : ℕ) → position (λ byte. nat_eq byte 10) self.old.bytes ≡ Some i
            → IfOk result (λ next. IfSome next (λ line. line.items ≡ take (i + 1) self.old.bytes)) }
        ensures rest { (i : ℕ) → position (λ byte. nat_eq byte 10) self.old.bytes ≡ Some i
            → OnOk result (self.new ≡ record self.old { bytes = drop (i + 1) self.old.bytes }) }
        ensures none { position (λ byte. nat_eq byte 10) self.old.bytes ≡ None
            → IfOk result (λ next. IsNone next × (self.new ≡ self.old)) }
        ensures refused { OnErr result (self.new ≡ self.old) }
    {
        let Some(end) = self.bytes.iter().position(|byte| *byte == b'\n') else {
            return Ok(None);
        };
        Ok(Some(self.bytes.drain_range(..=end, alloc)?))
    }
}

/// Copies `input` to `output` through an empty pipe, a part at a time.
pub fn relay(pipe: &mut Pipe, input: &[u8], output: &mut [u8])
    requires capacity { 0 < pipe.old.capacity }
    requires empty { pipe.old.bytes ≡ [] }
    requires places { length output.old ≡ length input.now }
    ensures copied { output.new ≡ input.now }
    ensures empty { pipe.new.bytes ≡ [] }
{
    let mut received = 0;
    let mut sent = 0;
    while sent < output.len() {
        received += pipe.receive(&input[received..]);
        sent += pipe.send(&mut output[sent..]);
    }
}
