//! Calls that pick items: a filter, a search, a change of each item, and walks over a range.

use super::calls::walk;
use super::items::Maker;
use super::player::{Done, Player};
use ringbuffer::{
    RingBuffer, RingBufferExt, RingBufferIterator, RingBufferMutIterator, partition_point, retain,
};
use std::alloc::AllocError;

/// Makes a call that picks items.
pub fn play<T: Clone + Drop, M: Maker<T>, R: RingBuffer<T>>(
    ring: &mut R,
    player: &mut Player<M>,
) -> Done {
    match player.up_to(5) {
        0 => return filter(ring, player),
        1 => {
            raise(ring, player);
            let sought = player.draw() % 300;
            let maker = &player.maker;
            let index = partition_point(ring, |item| maker.rank(item) < sought);
            player.note(index as u64);
        }
        2 => {
            let maker = &player.maker;
            ring.map_each(|item| maker.make(maker.read(item).wrapping_mul(3) % 1000));
        }
        3 => {
            let bound = player.draw() % 1000;
            let maker = &player.maker;
            let count = ring.dequeue_while(|item| maker.rank(item) < bound);
            player.note(count as u64);
        }
        _ => walk_range(ring, player),
    }
    Ok(())
}

/// Keeps the items whose number lacks one of two bits.
fn filter<T: Clone + Drop, M: Maker<T>, R: RingBuffer<T>>(
    ring: &mut R,
    player: &mut Player<M>,
) -> Done {
    let bits = 3u64 << player.up_to(8);
    let maker = &player.maker;
    match retain(ring, |item| maker.read(item) & bits != bits) {
        Ok(()) => Ok(()),
        Err(_) => Err(AllocError),
    }
}

/// Writes items in rising order.
pub fn raise<T: Clone + Drop, M: Maker<T>, R: RingBuffer<T>>(ring: &mut R, player: &mut Player<M>) {
    let mut number = player.draw() % 100;
    let len = ring.len();
    let mut cursor = RingBufferMutIterator::new(ring);
    for _ in 0..len {
        if let Some(place) = cursor.next() {
            *place = player.maker.make(number);
        }
        number = number.saturating_add(player.draw() % 3).min(250);
    }
}

/// Walks over the items at the indexes of a range, whose bounds may lie past the end.
fn walk_range<T: Clone + Drop, M: Maker<T>, R: RingBuffer<T>>(ring: &R, player: &mut Player<M>) {
    let most = ring.len().saturating_add(2);
    let (start, end) = (player.up_to(most), player.up_to(most));
    let mut range = match player.up_to(3) {
        0 => RingBufferIterator::range(ring, start..),
        1 => RingBufferIterator::range(ring, ..end),
        2 => RingBufferIterator::range(ring, start..=end),
        _ => RingBufferIterator::range(ring, start..end),
    };
    walk(&mut range, player);
}
