//! Rings of bytes as readers and writers of `std::io`.
ghost use Rattle.std.specs.Prelude.{◌≡◌, ◌-◌, [], ◌++◌, drop, length, min, take, None, Ok, Some, IfSome, IsOk, IfOk, IfErr, OnErr, OnOk};
ghost use Rattle.std.specs.IoError.{error_kind};
ghost use Rattle.ringbuffer.specs.contracts.grow.GrowableAllocRingBuffer.{the_row as growable_row};
ghost use Rattle.std.specs.Borrow.{sem, u8 as byte};
ghost use Rattle.std.specs.Io.{ReadsAtMost, StartsWith, WritesAtMost};
ghost use Rattle.std.specs.Io.BufRead.{DropsConsumable, FillKeeps, Rests};
ghost use Rattle.std.specs.Io.KnownBytes.{Keeps, ReadConsumes, WriteAppends};
ghost use Rattle.ring_core.specs.Contents.{IsWithin};
ghost use Rattle.ringbuffer.specs.View.{after_extend_from_slice, after_keep_newest, after_takes};
ghost use Rattle.ringbuffer.specs.contracts.fixed.FixedRing.{the_row as fixed_row};

use crate::fixed::{FixedRing, TakesCopies};
use crate::grow::GrowableAllocRingBuffer;
use ring_core::RingBuffer;
use ring_slots::RingSlots;
use std::io::{BufRead, ErrorKind, Read, Result, Write};
use std::slice;

/// Returns how many of the bytes of `buf` fit into a ring below its limit.
fn count_that_fits<R: RingBuffer<u8>>(ring: &R, buf: &[u8]) -> usize
    ensures count { IfSome (R.limit ring.now)
        (λ n. result ≡ min (length buf.now) (n - length (R.contents ring.now))) }
    ensures within { IsWithin (R.contents ring.now) (R.limit ring.now) }
{
    buf.len().min(ring.capacity() - ring.len())
}

/// A read takes out the oldest bytes, as many as `buf` has places. An empty ring has ended.
impl<S: RingSlots<u8>> Read for FixedRing<u8, S> {
    ghost remaining = { λ ring. Some ring.items };

    fn read(&mut self, buf: &mut [u8]) -> Result<usize>
        ensures bound { ReadsAtMost result buf.new }
        ensures bytes { ReadConsumes (Some self.old.items) (Some self.new.items) result buf.new }
        ensures count { result ≡ Ok (min (length buf.old) (length self.old.items)) }
        ensures rest { IfOk result (λ n. self.new ≡ after_takes n self.old) }
        ensures others { IfOk result (λ n. drop n buf.new ≡ drop n buf.old) }
    {
        Ok(self.dequeue_into(buf))
    }
}

/// `fill_buf` lends the oldest bytes up to the last slot. In an array of Options it lends the oldest byte alone, since each
/// byte lies in a slot of its own there.
impl<S: RingSlots<u8>> BufRead for FixedRing<u8, S> {
    fn fill_buf(&mut self) -> Result<&[u8]>
        ensures front { IfOk result (λ s. StartsWith self.old.items s.now) }
        ensures end { IfOk result (λ s. length s.now ≡ 0 → self.old.items ≡ []) }
        ensures* after_borrow { sem 𝓛 (Rests (fixed_row byte S.row S.RingSlots) self.entry (λ new.
            FillKeeps (Some self.old.items) (Some new.items) None result)) }
        ensures ok { IsOk result }
    {
        Ok(self.first_bytes())
    }

    fn consume(&mut self, amount: usize)
        ensures bytes { DropsConsumable (Some self.old.items) (Some self.new.items) None amount }
        ensures rest { self.new.items ≡ drop amount self.old.items }
        ensures after { self.new ≡ after_keep_newest (length self.old.items - amount) self.old }
    {
        // An array of Options lends one byte at a time.
        if !S::goes_by_stretch() && amount == 1 {
            let _ = self.take_first();
            return;
        }
        let kept = self.len().saturating_sub(amount);
        self.keep_newest(kept);
    }
}

impl<S: RingSlots<u8>> FixedRing<u8, S> {
    /// Returns the oldest bytes that lie side by side, which `fill_buf` lends, from a ring that stays as it is: none of an
    /// empty ring alone.
    pub fn first_bytes(&self) -> &[u8]
        ensures front { StartsWith self.now.items result.now }
        ensures end { length result.now ≡ 0 → self.now.items ≡ [] }
    {
        if let Some((first, _)) = self.rows() {
            return first;
        }
        if self.is_empty() {
            return &[];
        }
        slice::from_ref(self.at(0))
    }
}

/// A write puts in as many bytes as there is room for, and overwrites none: onto a full ring it puts 0, which ends
/// `write_all` with the error `WriteZero`.
impl<S: TakesCopies<u8>> Write for FixedRing<u8, S> {
    ghost contents = { λ ring. Some ring.items };

    fn write(&mut self, buf: &[u8]) -> Result<usize>
        ensures bound { WritesAtMost result buf.now }
        ensures bytes { WriteAppends (Some self.old.items) (Some self.new.items) result buf.now }
        ensures count { result
            ≡ Ok (min (length buf.now) (S.limit self.old.capacity - length self.old.items)) }
        ensures after { IfOk result (λ n. self.new
            ≡ after_extend_from_slice (S.limit self.old.capacity) self.old (take n buf.now)) }
    {
        let count = count_that_fits(self, buf);
        self.extend_from_slice(&buf[..count]);
        Ok(count)
    }

    fn flush(&mut self) -> Result<()>
        ensures bytes { Keeps (Some self.old.items) (Some self.new.items) }
        ensures ok { IsOk result }
        ensures unchanged { self.new ≡ self.old }
    {
        Ok(())
    }
}

/// A read takes out the oldest bytes, as many as `buf` has places. An empty ring has ended.
impl Read for GrowableAllocRingBuffer<u8> {
    ghost remaining = { λ ring. Some ring };

    fn read(&mut self, buf: &mut [u8]) -> Result<usize>
        ensures bound { ReadsAtMost result buf.new }
        ensures bytes { ReadConsumes (Some self.old) (Some self.new) result buf.new }
        ensures count { result ≡ Ok (min (length buf.old) (length self.old)) }
        ensures rest { IfOk result (λ n. self.new ≡ drop n self.old) }
        ensures others { IfOk result (λ n. drop n buf.new ≡ drop n buf.old) }
    {
        Ok(self.dequeue_into(buf))
    }
}

/// `fill_buf` lends the oldest bytes, up to the end of the memory that they lie in.
impl BufRead for GrowableAllocRingBuffer<u8> {
    fn fill_buf(&mut self) -> Result<&[u8]>
        ensures front { IfOk result (λ s. StartsWith self.old s.now) }
        ensures end { IfOk result (λ s. length s.now ≡ 0 → self.old ≡ []) }
        ensures* after_borrow { sem 𝓛 (Rests (growable_row byte) self.entry (λ new.
            FillKeeps (Some self.old) (Some new) None result)) }
        ensures ok { IsOk result }
    {
        let (first, _) = self.as_slices();
        Ok(first)
    }

    fn consume(&mut self, amount: usize)
        ensures bytes { DropsConsumable (Some self.old) (Some self.new) None amount }
        ensures rest { self.new ≡ drop amount self.old }
    {
        let count = amount.min(self.len());
        self.drop_first(count);
    }
}

/// A write puts in all bytes, or none if memory was refused.
impl Write for GrowableAllocRingBuffer<u8> {
    ghost contents = { λ ring. Some ring };

    fn write(&mut self, buf: &[u8]) -> Result<usize>
        ensures bound { WritesAtMost result buf.now }
        ensures bytes { WriteAppends (Some self.old) (Some self.new) result buf.now }
        ensures count { IfOk result (λ n. n ≡ length buf.now) }
        ensures ok { OnOk result (self.new ≡ self.old ++ buf.now) }
        ensures err { OnErr result (self.new ≡ self.old) }
        ensures kind { IfErr result (λ e. error_kind e ≡ ErrorKind.OutOfMemory) }
    {
        self.extend_from_slice(buf)?;
        Ok(buf.len())
    }

    fn flush(&mut self) -> Result<()>
        ensures bytes { Keeps (Some self.old) (Some self.new) }
        ensures ok { IsOk result }
        ensures unchanged { self.new ≡ self.old }
    {
        Ok(())
    }
}
