//! The end of a log, as bytes, by a writer that keeps the newest.

ghost use Rattle.std.specs.Prelude.{◌≡◌, ◌<◌, ◌++◌, IfOk, OnOk, Some};
ghost use Rattle.ringbuffer.specs.Contents.{keep_last};

use ringbuffer::{AllocRingBuffer, GrowableAllocRingBuffer, LastBytes, RingBuffer};
use std::alloc::{AllocError, Global};
use std::io::{self, Write};

/// Makes a log that keeps its last bytes, as many as `limit` says.
pub fn start(alloc: Global, limit: usize) -> Result<LastBytes<AllocRingBuffer<u8>>, AllocError>
    requires { 0 < limit }
    ensures { IfOk result (λ log. log.limit ≡ Some limit) }
{
    Ok(LastBytes::new(AllocRingBuffer::new(alloc, limit)?))
}

/// Writes a text to the end of a log.
pub fn note(log: &mut LastBytes<AllocRingBuffer<u8>>, text: &str) -> io::Result<()>
    ensures { OnOk result (log.new.written ≡ log.old.written ++ text.now) }
{
    log.write_all(text.as_bytes())
}

/// Copies all bytes of a stream to the end of a log.
pub fn copy_into(
    log: &mut LastBytes<AllocRingBuffer<u8>>,
    stream: &mut GrowableAllocRingBuffer<u8>,
) -> io::Result<u64>
    ensures { OnOk result (log.new.written ≡ log.old.written ++ stream.old) }
{
    io::copy(stream, log)
}

/// Ends a log, and returns the ring that holds its last bytes.
pub fn finish(log: LastBytes<AllocRingBuffer<u8>>) -> AllocRingBuffer<u8>
    ensures { result.items ≡ keep_last log.limit log.written }
{
    log.into_ring()
}
