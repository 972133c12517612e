//! Calls of rings of bytes, as readers and writers of `std::io`, and rings of characters that are made of texts.

ghost use Rattle.std.specs.Prelude.{IsSome};

use super::copies::PlayedCopies;
use super::items::Maker;
use super::makers::try_out;
use super::player::{Done, Player};
use ringbuffer::{
    AllocRingBuffer, ConstGenericRingBuffer, CopyRingBuffer, GrowableAllocRingBuffer, LastBytes,
    RingBuffer,
};
use std::alloc::AllocError;
use std::io::{self, BufRead, Read, Write};

/// The array rings that are made of texts.
type Letters = ConstGenericRingBuffer<char, 5>;

/// The rings of plain items that are made of texts.
type PlainLetters = CopyRingBuffer<char, 5>;

/// A ring of bytes with calls of its own.
pub trait PlayedBytes: PlayedCopies<u8> + BufRead + Write {
    fn play_bytes<M: Maker<u8> + Maker<char>>(&mut self, player: &mut Player<M>) -> Done;
}

/// Makes a call of a reader or a writer.
fn play_stream<M: Maker<u8>, R: RingBuffer<u8> + BufRead + Write>(
    ring: &mut R,
    player: &mut Player<M>,
) -> Done {
    let mut bytes: Vec<u8> = player.items()?;
    match player.up_to(8) {
        0 => note_count(ring.read(&mut bytes), player),
        1 => player.note(ring.read_exact(&mut bytes).is_ok() as u64),
        2 => {
            let end = player.item();
            note_count(ring.read_until(end, &mut bytes), player);
        }
        3 => note_count(ring.read_to_end(&mut bytes), player),
        4 => return lend(ring, player),
        5 => note_count(ring.write(&bytes), player),
        6 => player.note(ring.write_all(&bytes).is_ok() as u64),
        7 => {
            let (number, letter) = (player.draw() % 1000, 'r');
            player.note(write!(ring, "{number}{letter}{number}").is_ok() as u64);
        }
        _ => {
            let written = io::copy(&mut bytes.as_slice(), ring);
            player.note(written.is_ok() as u64);
        }
    }
    player.note_each(&bytes);
    Ok(())
}

/// Notes what a read or a write returned.
fn note_count<M>(count: io::Result<usize>, player: &mut Player<M>) {
    match count {
        Ok(count) => player.note(count as u64),
        Err(_) => player.note(u64::MAX),
    }
}

/// Looks at the bytes that are lent, which are the oldest ones, and passes over some.
fn lend<M: Maker<u8>, R: RingBuffer<u8> + BufRead>(ring: &mut R, player: &mut Player<M>) -> Done {
    let held = ring.to_vec(player.alloc)?;
    let Ok(lent) = ring.fill_buf() else {
        return Err(AllocError);
    };
    player.note_item(lent.first());
    player.note(held.starts_with(lent) as u64);
    ring.consume(player.some());
    Ok(())
}

/// Writes bytes onto the newest that a ring keeps.
fn keep_last<M: Maker<u8>, R: RingBuffer<u8>>(
    ring: R,
    player: &mut Player<M>,
) -> Result<R, AllocError>
where
    R: Drop,
    requires { IsSome (R.limit ring) }
{
    let mut last = LastBytes::new(ring);
    for _ in 0..2 {
        let bytes: Vec<u8> = player.items()?;
        note_count(last.write(&bytes), player);
    }
    player.note_ring(last.ring());
    Ok(last.into_ring())
}

/// Draws a text.
fn text<M: Maker<char>>(player: &mut Player<M>) -> Result<String, AllocError> {
    let mut text = String::new(player.alloc);
    for _ in 0..player.some() {
        text.push(player.item())?;
    }
    Ok(text)
}

// Makers of rings of characters that take a text, in memory that they are given or with none. Of an empty text no ring is made.
macro_rules! play_text {
    ($type:ident, $player:expr) => {
        play_text!(made $player, text, $type::from_text(&text), $type::from_string(text))
    };
    ($type:ident, $player:expr, $alloc:expr) => {
        play_text!(
            made $player, text,
            $type::from_text($alloc, &text)?,
            $type::from_string($alloc, text)?
        )
    };
    (made $player:expr, $text:ident, $of_text:expr, $of_string:expr) => {{
        let $text = text($player)?;
        if $text.is_empty() {
            return Ok(());
        }
        let made = if $player.flip() {
            $of_text
        } else {
            $of_string
        };
        try_out(made, $player)
    }};
}

/// Draws three bytes.
fn three<M: Maker<u8>>(player: &mut Player<M>) -> [u8; 3] {
    [player.item(), player.item(), player.item()]
}

// Makers of heap rings and of growable rings that take three bytes.
macro_rules! play_three {
    ($type:ident, $player:expr) => {{
        let (alloc, mut bytes) = ($player.alloc, three($player));
        let made = match $player.up_to(2) {
            0 => $type::from_array(alloc, [Some(bytes[0]), Some(bytes[1]), Some(bytes[2])])?,
            1 => $type::from_array_ref(alloc, &bytes)?,
            _ => $type::from_mut_array(alloc, &mut bytes)?,
        };
        try_out(made, $player)
    }};
}

/// Makers of array rings that take three bytes.
fn play_array_of_three<M: Maker<u8>>(player: &mut Player<M>) -> Done {
    let mut bytes = three(player);
    let made = match player.up_to(2) {
        0 => ConstGenericRingBuffer::from_array([Some(bytes[0]), Some(bytes[1]), Some(bytes[2])]),
        1 => ConstGenericRingBuffer::from_array_ref(&bytes)?,
        _ => ConstGenericRingBuffer::from_mut_array(&mut bytes)?,
    };
    try_out(made, player)
}

impl<const CAP: usize> PlayedBytes for ConstGenericRingBuffer<u8, CAP> {
    fn play_bytes<M: Maker<u8> + Maker<char>>(&mut self, player: &mut Player<M>) -> Done {
        match player.up_to(11) {
            1 => *self = keep_last(self.clone()?, player)?,
            0 => return play_text!(Letters, player),
            2 => return play_array_of_three(player),
            _ => return play_stream(self, player),
        }
        Ok(())
    }
}

/// Makers of rings of plain items that take three bytes.
fn play_plain_of_three<M: Maker<u8>>(player: &mut Player<M>) -> Done {
    let mut bytes = three(player);
    let made = match player.up_to(2) {
        0 => CopyRingBuffer::from_array(bytes),
        1 => CopyRingBuffer::from_array_ref(&bytes),
        _ => CopyRingBuffer::from_mut_array(&mut bytes),
    };
    try_out(made, player)
}

impl<const CAP: usize> PlayedBytes for CopyRingBuffer<u8, CAP> {
    fn play_bytes<M: Maker<u8> + Maker<char>>(&mut self, player: &mut Player<M>) -> Done {
        match player.up_to(11) {
            1 => *self = keep_last(self.copied(), player)?,
            0 => return play_text!(PlainLetters, player),
            2 => return play_plain_of_three(player),
            _ => return play_stream(self, player),
        }
        Ok(())
    }
}

impl PlayedBytes for AllocRingBuffer<u8> {
    fn play_bytes<M: Maker<u8> + Maker<char>>(&mut self, player: &mut Player<M>) -> Done {
        match player.up_to(11) {
            1 => *self = keep_last(self.clone()?, player)?,
            0 => return play_text!(AllocRingBuffer, player, player.alloc),
            2 => return play_three!(AllocRingBuffer, player),
            _ => return play_stream(self, player),
        }
        Ok(())
    }
}

impl PlayedBytes for GrowableAllocRingBuffer<u8> {
    fn play_bytes<M: Maker<u8> + Maker<char>>(&mut self, player: &mut Player<M>) -> Done {
        match player.up_to(11) {
            0 => play_text!(GrowableAllocRingBuffer, player, player.alloc),
            2 => play_three!(GrowableAllocRingBuffer, player),
            _ => play_stream(self, player),
        }
    }
}
