//! The calls that each ring type has of its own.

use super::calls::fill;
use super::copies::Plain;
use super::items::Maker;
use super::makers::Made;
use super::player::{Done, Player};
use ring_slots::RingSlots;
use ringbuffer::{
    AllocRingBuffer, ConstGenericRingBuffer, CopyRingBuffer, DoubleEndedRing, FixedRing,
    GrowableAllocRingBuffer, RingBuffer, move_all,
};
use std::alloc::AllocError;
use std::collections::VecDeque;

/// A ring with calls of its own.
pub trait Played<T: Clone + Drop>: DoubleEndedRing<T> + Clone + Made<T> + Drop {
    fn play_own<M: Maker<T>>(&mut self, player: &mut Player<M>) -> Done;

    /// Adds items by std's `Extend`.
    fn extend_by_std(&mut self, items: Vec<T>) -> Done;
}

// Calls that all types have.
macro_rules! play_ends {
    ($ring:expr, $player:expr) => {
        match $player.up_to(7) {
            0 => $player.note_taken($ring.pop_back()),
            1 => $ring.truncate($player.kept_of($ring.len())),
            2 => $ring.keep_newest($player.kept_of($ring.len())),
            3 => {
                let position = $player.position();
                if !$ring.is_empty() {
                    $player.note_item(Some(&$ring[position]));
                }
            }
            4 => {
                let (position, item) = ($player.position(), $player.item());
                if !$ring.is_empty() {
                    $ring[position] = item;
                }
            }
            5 => $player.note_ring(&$ring.clone()?),
            6 => {
                for item in $ring.clone()?.into_iter() {
                    $player.note_item(Some(&item));
                }
            }
            _ => {
                let mut twin = $ring.clone()?;
                twin.keep_newest(3);
                if move_all($ring, &mut twin).is_err() {
                    return Err(AllocError);
                }
                $player.note(twin.len() as u64);
            }
        }
    };
}

/// Calls of fixed rings.
fn play_middle<T: Clone + Drop, M: Maker<T>, S: RingSlots<T>>(
    ring: &mut FixedRing<T, S>,
    player: &mut Player<M>,
) {
    let (item, index) = (player.item(), player.up_to(ring.len()));
    match player.up_to(7) {
        0 => player.note_taken(ring.try_push(item).err()),
        1 => player.note_taken(ring.push_front(item)),
        2 => player.note_taken(ring.insert(index, item).err()),
        3 => player.note_taken(ring.remove(index)),
        4 => ring.rotate_left(index),
        5 => ring.rotate_right(index),
        6 => {
            let other = player.up_to(ring.len());
            if index < ring.len() && other < ring.len() {
                ring.swap(index, other);
            }
        }
        _ => {
            player.note(ring.capacity() as u64);
            player.note(ring.buffer_size() as u64);
            player.note(ring.is_full() as u64);
        }
    }
}

/// Calls at the ends of fixed rings, by an index, and of their clones.
fn play_fixed_ends<T: Clone + Drop, M: Maker<T>, S: RingSlots<T>>(
    ring: &mut FixedRing<T, S>,
    player: &mut Player<M>,
) -> Done
where
    FixedRing<T, S>: Clone,
{
    play_ends!(ring, player);
    Ok(())
}

// Calls of rings that lie in memory of their own.
macro_rules! play_slices {
    ($ring:expr, $player:expr) => {
        if $player.flip() {
            let (older, newer) = $ring.as_slices();
            $player.note(older.is_empty() as u64);
            $player.note_each(older);
            $player.note_each(newer);
        } else {
            let items = $ring.make_contiguous();
            $player.note_each(items);
            $player.write(items.last_mut());
        }
    };
}

// Clones the items onto a ring that holds some of them.
macro_rules! play_clone_into {
    ($ring:expr, $player:expr) => {{
        let mut twin = $ring.clone()?;
        twin.truncate(3);
        DoubleEndedRing::clone_into($ring, &mut twin)?;
        $player.note_ring(&twin);
    }};
}

/// Calls of rings in an array, but for copies onto another ring.
fn play_array<T: Clone + Drop, M: Maker<T>, S: RingSlots<T>>(
    call: usize,
    ring: &mut FixedRing<T, S>,
    player: &mut Player<M>,
) -> Done
where
    FixedRing<T, S>: Clone,
{
    match call {
        0..=6 => return play_fixed_ends(ring, player),
        7..=13 => play_middle(ring, player),
        _ => return fill(ring, player),
    }
    Ok(())
}

impl<T: Clone + Drop, const CAP: usize> Played<T> for ConstGenericRingBuffer<T, CAP> {
    fn play_own<M: Maker<T>>(&mut self, player: &mut Player<M>) -> Done {
        let call = player.up_to(15);
        if call < 15 {
            return play_array(call, self, player);
        }
        let items: Vec<T> = player.items()?;
        if 0 < CAP {
            let mut ring = ConstGenericRingBuffer::<T, CAP>::from_iter(items);
            player.note_ring(&ring);
            self.clone_into(&mut ring)?;
            player.note_ring(&ring);
        }
        Ok(())
    }

    fn extend_by_std(&mut self, items: Vec<T>) -> Done {
        Extend::extend(self, items)
    }
}

/// The calls are those of array rings, so that the answers are.
impl<T: Plain, const CAP: usize> Played<T> for CopyRingBuffer<T, CAP> {
    fn play_own<M: Maker<T>>(&mut self, player: &mut Player<M>) -> Done {
        let call = player.up_to(15);
        if call < 15 {
            return play_array(call, self, player);
        }
        let items: Vec<T> = player.items()?;
        if 0 < CAP {
            let mut ring = CopyRingBuffer::<T, CAP>::from_iter(T::default(), items);
            player.note_ring(&ring);
            self.copy_into(&mut ring);
            player.note_ring(&ring);
        }
        Ok(())
    }

    fn extend_by_std(&mut self, items: Vec<T>) -> Done {
        Extend::extend(self, items)
    }
}

impl<T: Clone + Drop> Played<T> for AllocRingBuffer<T> {
    fn play_own<M: Maker<T>>(&mut self, player: &mut Player<M>) -> Done {
        match player.up_to(16) {
            0..=5 => play_fixed_ends(self, player)?,
            6..=11 => play_middle(self, player),
            12 => play_slices!(self, player),
            13 => self.set_capacity(player.up_to(299) + 1)?,
            14 => fill(self, player)?,
            15 => play_clone_into!(self, player),
            _ => {
                let ring = GrowableAllocRingBuffer::<T>::from(player.items()?);
                if !ring.is_empty() {
                    player.note_ring(&AllocRingBuffer::from_growable(player.alloc, ring)?);
                }
            }
        }
        Ok(())
    }

    fn extend_by_std(&mut self, items: Vec<T>) -> Done {
        Extend::extend(self, items)
    }
}

/// Calls at the ends of growable rings, by an index, and of their clones.
fn play_growable_ends<T: Clone + Drop, M: Maker<T>>(
    ring: &mut GrowableAllocRingBuffer<T>,
    player: &mut Player<M>,
) -> Done {
    play_ends!(ring, player);
    Ok(())
}

impl<T: Clone + Drop> Played<T> for GrowableAllocRingBuffer<T> {
    fn play_own<M: Maker<T>>(&mut self, player: &mut Player<M>) -> Done {
        match player.up_to(8) {
            0..=4 => play_growable_ends(self, player)?,
            5 => play_slices!(self, player),
            6 => {
                let len = self.len();
                fill(self, player)?;
                self.truncate(len);
            }
            7 => play_clone_into!(self, player),
            _ => *self = GrowableAllocRingBuffer::from(VecDeque::from(player.items()?)),
        }
        Ok(())
    }

    fn extend_by_std(&mut self, items: Vec<T>) -> Done {
        Extend::extend(self, items)
    }
}
