//! The last lines of a log, and of a text.

ghost use Rattle.std.specs.Prelude.{◌≡◌, ◌<◌, [], ◌∷◌, ◌++◌, IfOk, Some, map, string_bytes};
ghost use Rattle.std.specs.Str.Lines.{lines};
ghost use Rattle.ringbuffer.specs.Contents.{keep_last};
ghost use Rattle.ringbuffer.specs.Walk.{ReadsInOrder, iterator_to_come};

use ringbuffer::{AllocRingBuffer, RingBuffer, RingBufferExt, RingBufferIterator};
use std::alloc::{AllocError, Global};
use std::marker::Model;

/// The last lines that were fed to it, up to a limit, oldest first.
#[derive(Drop)]
pub struct LogTail {
    lines: AllocRingBuffer<String>,
}

impl Model for LogTail {
    ghost use Rattle.std.specs.Prelude.{map, string_bytes};
    ghost use Rattle.ring_uses.specs.Log.{Log};

    ghost Value = { Log };

    ghost view = { λ t. record { lines = map string_bytes t.lines.items; limit = t.lines.capacity } };
}

impl LogTail {
    /// Makes a log of no lines, with room for `limit` of them.
    ///
    /// # Errors
    ///
    /// Where memory was refused.
    pub fn new(alloc: Global, limit: usize) -> Result<Self, AllocError>
        requires { 0 < limit }
        ensures { IfOk result (λ tail. tail ≡ record { lines = []; limit = limit }) }
    {
        Ok(LogTail {
            lines: AllocRingBuffer::new(alloc, limit)?,
        })
    }

    /// Takes in a line. At the limit the oldest line is dropped.
    pub fn feed(&mut self, line: String)
        ensures { self.new ≡ record self.old
            { lines = keep_last (Some self.old.limit) (self.old.lines ++ string_bytes line ∷ []) } }
    {
        let _ = self.lines.push(line);
    }

    /// Walks over the lines, oldest first.
    pub fn iter(&self) -> RingBufferIterator<'_, String, AllocRingBuffer<String>>
        ensures left { map string_bytes
            (iterator_to_come ⟦<AllocRingBuffer<String> as RingBuffer<String>>⟧.contents result)
            ≡ self.now.lines }
        ensures runs { ReadsInOrder ⟦<AllocRingBuffer<String> as RingBuffer<String>>⟧.contents }
    {
        self.lines.iter()
    }
}

/// Returns the last `n` lines of a text, in order, or all of them where there are fewer.
///
/// # Errors
///
/// Where memory was refused. There must be room for `n` lines, also where the text has fewer.
pub fn last_lines<'a>(alloc: Global, text: &'a str, n: usize) -> Result<Vec<&'a str>, AllocError>
    ensures { IfOk result
        (λ last. map (λ line. line.now) last.items ≡ keep_last (Some n) (lines text.now)) }
{
    if n == 0 {
        return Ok(Vec::new(alloc));
    }
    let mut last = AllocRingBuffer::new(alloc, n)?;
    let _ = last.extend(text.lines());
    last.into_iter().collect(alloc)
}
