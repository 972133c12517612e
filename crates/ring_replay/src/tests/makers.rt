//! Rings that are made of other collections, and of each other.

use super::copies::Plain;
use super::items::Maker;
use super::player::{Done, Player};
use ringbuffer::{
    AllocRingBuffer, ConstGenericRingBuffer, CopyRingBuffer, GrowableAllocRingBuffer, RingBuffer,
};
use std::alloc::AllocError;
use std::collections::{LinkedList, VecDeque};

/// A ring type that is made of collections, and that others are made of.
pub trait Made<T: Clone + Drop> {
    /// Makes a ring, and notes what it holds.
    fn play_makers<M: Maker<T>>(&mut self, player: &mut Player<M>) -> Done;
}

/// Pushes onto a ring that was made, and notes what it then holds.
pub fn try_out<T: Drop, M: Maker<T>, R: RingBuffer<T> + Drop>(
    mut ring: R,
    player: &mut Player<M>,
) -> Done {
    match ring.push(player.item()) {
        Ok(old) => player.note_taken(old),
        Err(_) => return Err(AllocError),
    }
    player.note_ring(&ring);
    Ok(())
}

/// Draws a linked list.
fn list<T: Drop, M: Maker<T>>(player: &mut Player<M>) -> Result<LinkedList<T>, AllocError> {
    let mut items = LinkedList::new(player.alloc);
    for _ in 0..player.some() {
        items.push_back(player.item())?;
    }
    Ok(items)
}

/// Makes a heap ring of capacity 7.
fn heap<T: Drop, M: Maker<T>>(player: &mut Player<M>) -> Result<AllocRingBuffer<T>, AllocError> {
    let mut ring = AllocRingBuffer::new(player.alloc, 7)?;
    ring.extend(player.items()?)?;
    Ok(ring)
}

// Makes a ring in an array of a collection. Plain items come with a filler, and what clones may be refused.
macro_rules! of_collection {
    ($player:expr, $call:expr, ($($filler:ident)?), [$($may_fail:tt)?]) => {
        match $call {
            2 => Self::from_linked_list($($filler,)? list($player)?),
            3 => Self::from_alloc($($filler,)? heap($player)?),
            _ => {
                let mut items: Vec<T> = $player.items()?;
                match $call {
                    4 => Self::from_iter($($filler,)? items),
                    5 => Self::from_vec($($filler,)? items),
                    6 => Self::from_deque($($filler,)? VecDeque::from(items)),
                    7 => Self::from_slice($($filler,)? &items)$($may_fail)?,
                    8 => Self::from_mut_slice($($filler,)? &mut items)$($may_fail)?,
                    _ => Self::from_growable($($filler,)? GrowableAllocRingBuffer::from(items)),
                }
            }
        }
    };
}

impl<T: Clone + Drop, const CAP: usize> Made<T> for ConstGenericRingBuffer<T, CAP> {
    fn play_makers<M: Maker<T>>(&mut self, player: &mut Player<M>) -> Done {
        let (alloc, call) = (player.alloc, player.up_to(9));
        if CAP == 0 {
            return Ok(());
        }
        match call {
            0 => {
                let items = self.to_vec(alloc)?;
                if !items.is_empty() {
                    return try_out(AllocRingBuffer::from_vec(alloc, items)?, player);
                }
            }
            1 => {
                let made = GrowableAllocRingBuffer::from_vec(alloc, self.to_vec(alloc)?)?;
                return try_out(made, player);
            }
            _ => *self = of_collection!(player, call, (), [?]),
        }
        Ok(())
    }
}

impl<T: Plain, const CAP: usize> Made<T> for CopyRingBuffer<T, CAP> {
    fn play_makers<M: Maker<T>>(&mut self, player: &mut Player<M>) -> Done {
        let (alloc, call) = (player.alloc, player.up_to(9));
        if CAP == 0 {
            return Ok(());
        }
        let filler = T::default();
        match call {
            0 => {
                if !self.is_empty() {
                    return try_out(AllocRingBuffer::from_const(alloc, self.copied())?, player);
                }
            }
            1 => {
                let made = GrowableAllocRingBuffer::from_const(alloc, self.copied())?;
                return try_out(made, player);
            }
            _ => *self = of_collection!(player, call, (filler), []),
        }
        Ok(())
    }
}

impl<T: Clone + Drop> Made<T> for AllocRingBuffer<T> {
    fn play_makers<M: Maker<T>>(&mut self, player: &mut Player<M>) -> Done {
        let (alloc, call) = (player.alloc, player.up_to(5));
        match call {
            0 => try_out(
                GrowableAllocRingBuffer::from_alloc(alloc, self.clone()?)?,
                player,
            ),
            1 => {
                let items = list(player)?;
                if items.is_empty() {
                    return Ok(());
                }
                try_out(AllocRingBuffer::from_linked_list(alloc, items)?, player)
            }
            _ => {
                let mut items: Vec<T> = player.items()?;
                if items.is_empty() {
                    return Ok(());
                }
                let made = match call {
                    2 => AllocRingBuffer::from_vec(alloc, items)?,
                    3 => AllocRingBuffer::from_deque(alloc, VecDeque::from(items))?,
                    4 => AllocRingBuffer::from_slice(alloc, &items)?,
                    _ => AllocRingBuffer::from_mut_slice(alloc, &mut items)?,
                };
                try_out(made, player)
            }
        }
    }
}

impl<T: Clone + Drop> Made<T> for GrowableAllocRingBuffer<T> {
    fn play_makers<M: Maker<T>>(&mut self, player: &mut Player<M>) -> Done {
        let (alloc, call) = (player.alloc, player.up_to(5));
        match call {
            0 => {
                let twin = self.clone()?;
                if !twin.is_empty() {
                    return try_out(AllocRingBuffer::from_growable(alloc, twin)?, player);
                }
            }
            1 => *self = Self::from_linked_list(alloc, list(player)?)?,
            _ => {
                let mut items: Vec<T> = player.items()?;
                *self = match call {
                    2 => Self::from_iter(alloc, items)?,
                    3 => Self::from_vec(alloc, items)?,
                    4 => Self::from_slice(alloc, &items)?,
                    _ => Self::from_mut_slice(alloc, &mut items)?,
                };
            }
        }
        Ok(())
    }
}
