//! The text of the replies, and of the items at the end.

ghost use Rattle.std.specs.Prelude.{◌≡◌, ◌++◌, OnOk, codes};
ghost use Rattle.std.specs.Fmt.{signed_decimal};
ghost use Rattle.ringrun_service.specs.Replies.{items_line, reply_line};

use decimal::push_decimal;
use ringbuffer::{Reply, RingBuffer, RingBufferIterator};
use std::alloc::AllocError;

/// Puts the line of `reply` at the end of `text`. Inline, it takes no reply through memory.
///
/// # Errors
///
/// Where memory was refused.
#[inline(always)]
pub fn push_reply(text: &mut Vec<u8>, reply: &Reply<i64>) -> Result<(), AllocError>
    ensures { OnOk result (text.new.items ≡ text.old.items ++ reply_line reply.now) }
{
    match reply {
        Reply::Pushed(overwritten) => match overwritten {
            Some(old) => push_number_line(text, b"pushed over ", old),
            None => text.extend_from_slice(b"pushed\n"),
        },
        Reply::Extended => text.extend_from_slice(b"extended\n"),
        Reply::Dequeued(taken) => match taken {
            Some(item) => push_number_line(text, b"dequeued ", item),
            None => text.extend_from_slice(b"dequeued none\n"),
        },
        Reply::Skipped => text.extend_from_slice(b"skipped\n"),
        Reply::Cleared => text.extend_from_slice(b"cleared\n"),
    }
}

/// Puts a line of these words and this number at the end of `text`.
#[inline(always)]
fn push_number_line(text: &mut Vec<u8>, words: &[u8], number: &i64) -> Result<(), AllocError>
    ensures { OnOk result (text.new.items
        ≡ text.old.items ++ words.now ++ signed_decimal number.now ++ codes "\n") }
{
    text.extend_from_slice(words)?;
    push_decimal(text, *number)?;
    Ok(text.push(b'\n')?)
}

/// Puts a line of the items that `ring` holds at the end of `text`.
///
/// # Errors
///
/// Where memory was refused.
pub fn push_items<R: RingBuffer<i64>>(text: &mut Vec<u8>, ring: &R) -> Result<(), AllocError>
    ensures { OnOk result (text.new.items ≡ text.old.items ++ items_line (R.contents ring.now)) }
{
    text.extend_from_slice(b"items")?;
    for item in RingBufferIterator::new(ring) {
        text.push(b' ')?;
        push_decimal(text, *item)?;
    }
    text.extend_from_slice(b"\n")
}
