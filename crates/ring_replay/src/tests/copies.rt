//! The calls that copy items, or compare them.

use super::comparing;
use super::items::{Maker, Wide};
use super::player::{Done, Player};
use super::rings::Played;
use ringbuffer::{
    AllocRingBuffer, ConstGenericRingBuffer, CopyRingBuffer, DoubleEndedRing, FixedRing,
    GrowableAllocRingBuffer, RingBuffer, TakesCopies,
};
use std::fmt::Debug;
use std::hash::Hash;

/// What items are that are copied, compared, hashed and printed too.
pub trait Plain: Copy + Clone + Default + Ord + Hash + Debug + Drop {}

impl Plain for u64 {}

impl Plain for u8 {}

impl Plain for () {}

impl Plain for Wide {}

/// A ring with calls of its own that copy items, or compare them.
pub trait PlayedCopies<T: Plain>: Played<T> {
    fn play_copies<M: Maker<T>>(&mut self, player: &mut Player<M>) -> Done;
}

// Calls that copy items, or compare them.
macro_rules! play_copies {
    ($ring:expr, $player:expr, $items:ident, $extended:expr) => {{
        let (mut $items, item) = ($player.items()?, $player.item());
        match $player.up_to(6) {
            0 => $extended,
            1 => {
                $player.note($ring.copy_to_slice(&mut $items) as u64);
                $player.note_each(&$items);
            }
            2 => {
                $player.note($ring.dequeue_into(&mut $items) as u64);
                $player.note_each(&$items);
            }
            3 => $player.note($ring.contains(&item) as u64),
            4 => {
                let mut list = $ring.to_vec($player.alloc)?;
                if $player.flip() {
                    $player.write(list.last_mut());
                }
                $player.note($ring.eq_slice(&list) as u64);
            }
            5 => {
                let mut twin = $ring.clone()?;
                $player.write(twin.back_mut());
                $player.note((twin == *$ring) as u64);
                $player.note((twin < *$ring) as u64);
            }
            _ => {
                let len = $ring.len();
                $ring.fill_default()?;
                $ring.truncate(len);
            }
        }
        Ok(())
    }};
}

/// Calls of fixed rings that copy items, or compare them.
fn play_fixed_copies<T: Plain, M: Maker<T>, S: TakesCopies<T>>(
    ring: &mut FixedRing<T, S>,
    player: &mut Player<M>,
) -> Done
where
    FixedRing<T, S>: Clone,
{
    play_copies!(ring, player, items, ring.extend_from_slice(&items))
}

/// Calls of rings in an array that copy items, or compare them.
fn play_array_copies<T: Plain, M: Maker<T>, S: TakesCopies<T>>(
    ring: &mut FixedRing<T, S>,
    player: &mut Player<M>,
) -> Done
where
    FixedRing<T, S>: Clone,
{
    match player.up_to(3) {
        0..=1 => return play_fixed_copies(ring, player),
        2 => player.note_each(&ring.to_vec_copied(player.alloc)?),
        _ => return comparing::play(ring, player),
    }
    Ok(())
}

impl<T: Plain, const CAP: usize> PlayedCopies<T> for ConstGenericRingBuffer<T, CAP> {
    fn play_copies<M: Maker<T>>(&mut self, player: &mut Player<M>) -> Done {
        play_array_copies(self, player)
    }
}

impl<T: Plain, const CAP: usize> PlayedCopies<T> for CopyRingBuffer<T, CAP> {
    fn play_copies<M: Maker<T>>(&mut self, player: &mut Player<M>) -> Done {
        play_array_copies(self, player)
    }
}

impl<T: Plain> PlayedCopies<T> for AllocRingBuffer<T> {
    fn play_copies<M: Maker<T>>(&mut self, player: &mut Player<M>) -> Done {
        match player.up_to(8) {
            0..=3 => return play_fixed_copies(self, player),
            4..=6 => comparing::play(self, player)?,
            7 => player.note_each(&self.to_vec_copied(player.alloc)?),
            _ => {
                let mut twin = self.clone()?;
                twin.set_capacity(player.up_to(299) + 1)?;
                comparing::compare(&twin, self, player);
            }
        }
        Ok(())
    }
}

/// Calls of growable rings that copy items, or compare them.
fn play_growable_copies<T: Plain, M: Maker<T>>(
    ring: &mut GrowableAllocRingBuffer<T>,
    player: &mut Player<M>,
) -> Done {
    play_copies!(ring, player, items, ring.extend_from_slice(&items)?)
}

impl<T: Plain> PlayedCopies<T> for GrowableAllocRingBuffer<T> {
    fn play_copies<M: Maker<T>>(&mut self, player: &mut Player<M>) -> Done {
        match player.up_to(8) {
            0..=3 => return play_growable_copies(self, player),
            4..=6 => comparing::play(self, player)?,
            7 => {
                // The items are listed after they were copied onto a ring that held some of them.
                let mut twin = self.clone()?;
                twin.truncate(3);
                self.copy_into(&mut twin)?;
                player.note_each(&twin.to_vec_copied(player.alloc)?);
            }
            _ => {
                let deque = self.clone()?.into_deque();
                player.note_item(deque.back());
                player.note_item(self.as_ref().get(1));
                player.write(self.as_mut().front_mut());
            }
        }
        Ok(())
    }
}
