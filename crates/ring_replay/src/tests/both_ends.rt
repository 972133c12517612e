//! Calls by the traits of rings that change at both ends, of collections that are extended, and of what is cloned.

use super::items::Maker;
use super::player::{Done, Player};
use super::rings::Played;
use ringbuffer::{
    DoubleEndedRing, DoubleEndedRingExt, RingBufferDrainingIterator, RingBufferExt,
    RingBufferIntoIterator,
};
use std::alloc::AllocError;

// Takes items from both ends of a walk that hands them out.
macro_rules! take {
    ($walk:expr, $player:expr) => {{
        let mut walk = $walk;
        for _ in 0..$player.some() {
            $player.note(walk.len() as u64);
            if $player.flip() {
                $player.note_taken(walk.next());
            } else {
                $player.note_taken(walk.next_back());
            }
        }
    }};
}

/// Makes a call.
pub fn play<T: Clone + Drop, M: Maker<T>, R: Played<T>>(
    ring: &mut R,
    player: &mut Player<M>,
) -> Done {
    match player.up_to(10) {
        0 => return push_front(ring, player),
        1 => player.note_taken(ring.pop_back()),
        2 => ring.truncate(player.kept_of(ring.len())),
        3 => ring.keep_newest(player.kept_of(ring.len())),
        4 => return ring.extend_by_std(player.items()?),
        5 => take!(RingBufferDrainingIterator::new(ring), player),
        6 => take!(RingBufferIntoIterator::new(ring.clone()?), player),
        7 => return take_out(ring, player),
        _ => play_middle(ring, player),
    }
    Ok(())
}

/// Makes a call at an index, or of a range.
fn play_middle<T: Clone + Drop, M: Maker<T>, R: DoubleEndedRing<T>>(
    ring: &mut R,
    player: &mut Player<M>,
) {
    let (item, index) = (player.item(), player.up_to(ring.len()));
    match player.up_to(6) {
        0 => player.note_taken(ring.try_push(item).err()),
        1 => player.note_taken(ring.insert(index, item).err()),
        2 => player.note_taken(ring.remove(index)),
        3 => ring.rotate_left(index),
        4 => ring.rotate_right(index),
        5 => {
            let other = player.up_to(ring.len());
            if index < ring.len() && other < ring.len() {
                ring.swap(index, other);
            }
        }
        _ => {
            let end = player.up_to(ring.len().saturating_add(2));
            ring.remove_range(index..end);
        }
    }
}

/// Takes out all items, those from an index on, or those of a range.
fn take_out<T: Clone + Drop, M: Maker<T>, R: DoubleEndedRing<T>>(
    ring: &mut R,
    player: &mut Player<M>,
) -> Done {
    let (index, alloc) = (player.up_to(ring.len()), player.alloc);
    let taken = match player.up_to(2) {
        0 => ring.take_all(alloc)?,
        1 => ring.split_off(index, alloc)?,
        _ => {
            let end = player.up_to(ring.len().saturating_add(2));
            ring.drain_range(index..end, alloc)?
        }
    };
    player.note_each(&taken);
    Ok(())
}

fn push_front<T: Clone + Drop, M: Maker<T>, R: DoubleEndedRing<T>>(
    ring: &mut R,
    player: &mut Player<M>,
) -> Done {
    match ring.push_front(player.item()) {
        Ok(old) => player.note_taken(old),
        Err(_) => return Err(AllocError),
    }
    Ok(())
}
