//! A writer that keeps the newest bytes of a stream.
ghost use Rattle.std.specs.Prelude.{◌≡◌, ◌++◌, IsOk, IsSome, Ok, Some, length};
ghost use Rattle.std.specs.Io.{WritesAtMost};
ghost use Rattle.std.specs.Io.KnownBytes.{Keeps, WriteAppends};
ghost use Rattle.ring_core.specs.Contents.{keep_last};

use crate::ring::RingBuffer;
use crate::written::WrittenBytes;
use std::io::{Result, Write};
use std::marker::Model;
use std::snapshot::Snapshot;

/// Fewer bytes than these are pushed one at a time.
const FEW: usize = 16;

/// A writer that takes all bytes and keeps the newest, as many as the limit of its ring: the last bytes of a stream.
///
/// A contract sees what the ring held at first and all bytes written since as one list, `written`, and the limit. The
/// list takes no memory.
#[derive(Drop)]
pub struct LastBytes<R: RingBuffer<u8>> {
    ring: R,
    start: Snapshot<R>,
    since: WrittenBytes,
}

impl<R: RingBuffer<u8>> Model for LastBytes<R> {
    ghost use Rattle.std.specs.Prelude.{◌≡◌, ◌++◌, IsSome};
    ghost use Rattle.ring_core.specs.Contents.{keep_last};
    ghost use Rattle.ring_core.specs.Stream.{Stream};

    ghost Value = { Stream };

    ghost view = { λ w. record { written = R.contents w.start.value ++ w.since.bytes; limit = R.limit w.ring } };

    ghost invariant = { λ w. IsSome (R.limit w.ring)
        × (R.contents w.ring
        ≡ keep_last (R.limit w.ring) (R.contents w.start.value ++ w.since.bytes)) };
}

impl<R: RingBuffer<u8>> LastBytes<R> {
    /// Returns a writer onto a ring, whose bytes come first.
    pub fn new(ring: R) -> Self
        requires { IsSome (R.limit ring) }
        ensures written { result.written ≡ R.contents ring }
        ensures limit { result.limit ≡ R.limit ring }
    {
        // For the proof: the contents are within the limit.
        let _ = ring.len();
        LastBytes {
            start: Snapshot::of(&ring),
            ring,
            since: WrittenBytes::none(),
        }
    }

    /// Returns the ring, which holds the newest bytes.
    pub fn ring(&self) -> &R
        ensures bytes { R.contents result.now ≡ keep_last self.now.limit self.now.written }
        ensures limit { R.limit result.now ≡ self.now.limit }
    {
        &self.ring
    }

    /// Returns the ring without its writer.
    pub fn into_ring(self) -> R
        ensures bytes { R.contents result ≡ keep_last self.limit self.written }
        ensures limit { R.limit result ≡ self.limit }
    {
        self.ring
    }
}

/// A write takes all bytes, and the oldest that are too many give way. It is never refused. Bytes that later ones of the
/// same write would overwrite are passed over.
impl<R: RingBuffer<u8>> Write for LastBytes<R> {
    ghost contents = { λ w. Some w.written };

    fn write(&mut self, buf: &[u8]) -> Result<usize>
        ensures bound { WritesAtMost result buf.now }
        ensures bytes { WriteAppends (Some self.old.written) (Some self.new.written) result buf.now }
        ensures all { result ≡ Ok (length buf.now) }
        ensures after { self.new ≡ record self.old { written = self.old.written ++ buf.now } }
    {
        push_newest(&mut self.ring, buf);
        self.since = self.since.and(buf);
        Ok(buf.len())
    }

    fn flush(&mut self) -> Result<()>
        ensures bytes { Keeps (Some self.old.written) (Some self.new.written) }
        ensures ok { IsOk result }
        ensures unchanged { self.new ≡ self.old }
    {
        Ok(())
    }
}

/// Pushes bytes onto a ring that has a limit, as if one at a time. Those that later ones would overwrite are passed over.
fn push_newest<R: RingBuffer<u8>>(ring: &mut R, bytes: &[u8])
    requires { IsSome (R.limit ring.old) }
    ensures contents { R.contents ring.new
        ≡ keep_last (R.limit ring.old) (R.contents ring.old ++ bytes.now) }
    ensures limit { R.limit ring.new ≡ R.limit ring.old }
{
    // A single byte needs no source to be made of it.
    if let [byte] = bytes {
        let _ = ring.push(*byte);
        return;
    }
    let (_, newest) = bytes.split_at(bytes.len().saturating_sub(ring.capacity()));
    if newest.len() < FEW {
        let _ = ring.extend(newest.iter().copied());
    } else {
        let _ = ring.extend_from_slice(newest);
    }
}
