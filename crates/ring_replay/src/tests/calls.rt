//! The calls of the trait, and of the walks.

use super::items::Maker;
use super::player::{Done, Player};
use super::rings::Played;
use super::{both_ends, commands, picking};
use ringbuffer::{
    RingBuffer, RingBufferDrainingIterator, RingBufferIterator, RingBufferMutIterator,
};
use std::alloc::AllocError;

/// Pushes and takes, so that the items may begin at any slot.
pub fn rotate<T: Clone + Drop, M: Maker<T>, R: RingBuffer<T>>(
    ring: &mut R,
    player: &mut Player<M>,
) {
    for _ in 0..player.up_to(player.most.saturating_mul(2)) {
        let _ = ring.push(player.item());
        ring.skip();
    }
}

/// Makes a call.
pub fn play<T: Clone + Drop, M: Maker<T>, R: Played<T>>(
    ring: &mut R,
    player: &mut Player<M>,
) -> Done {
    match player.up_to(13) {
        0..=3 => put(ring, player)?,
        4..=5 => take(ring, player),
        6 => read(ring, player)?,
        7 => write(ring, player),
        8 => both_ends::play(ring, player)?,
        9 => picking::play(ring, player)?,
        10 => commands::play(ring, player)?,
        11 => ring.play_makers(player)?,
        _ => ring.play_own(player)?,
    }
    Ok(())
}

fn put<T: Clone + Drop, M: Maker<T>, R: RingBuffer<T>>(
    ring: &mut R,
    player: &mut Player<M>,
) -> Done {
    let item = player.item();
    let pushed = match player.up_to(15) {
        0 => return ring.extend(player.items()?),
        1..=3 => ring.enqueue(item),
        _ => ring.push(item),
    };
    match pushed {
        Ok(old) => player.note_taken(old),
        Err(_) => return Err(AllocError),
    }
    Ok(())
}

fn take<T: Clone + Drop, M: Maker<T>, R: RingBuffer<T>>(ring: &mut R, player: &mut Player<M>) {
    match player.up_to(31) {
        0 => ring.clear(),
        1..=4 => drain(ring, player),
        5..=9 => ring.skip(),
        _ => player.note_taken(ring.dequeue()),
    }
}

fn drain<T: Clone + Drop, M: Maker<T>, R: RingBuffer<T>>(ring: &mut R, player: &mut Player<M>) {
    let mut walk = RingBufferDrainingIterator::new(ring);
    player.note(walk.size_hint().0 as u64);
    for _ in 0..player.some() {
        player.note_taken(walk.next());
    }
}

fn read<T: Clone + Drop, M: Maker<T>, R: RingBuffer<T>>(ring: &R, player: &mut Player<M>) -> Done {
    let (position, signed) = (player.position(), player.signed_position());
    match player.up_to(8) {
        0 => player.note_item(ring.get(position)),
        1 => player.note_item(ring.get_signed(signed)),
        2 => player.note_item(ring.peek()),
        3 => player.note_item(ring.front()),
        4 => player.note_item(ring.back()),
        5 => player.note(ring.is_empty() as u64),
        6 => walk(&mut RingBufferIterator::new(ring), player),
        7 => pass(RingBufferIterator::new(ring), player),
        _ => player.note_each(&ring.to_vec(player.alloc)?),
    }
    Ok(())
}

/// Takes steps of a walk from both ends.
pub fn walk<T: Clone + Drop, M: Maker<T>, R: RingBuffer<T>>(
    walk: &mut RingBufferIterator<'_, T, R>,
    player: &mut Player<M>,
) {
    for _ in 0..player.some() {
        player.note(walk.len() as u64);
        if player.flip() {
            player.note_item(walk.next());
        } else {
            player.note_item(walk.next_back());
        }
    }
}

/// Passes over items, and goes to the end.
fn pass<T: Clone + Drop, M: Maker<T>, R: RingBuffer<T>>(
    mut walk: RingBufferIterator<'_, T, R>,
    player: &mut Player<M>,
) {
    let passed = player.some();
    player.note_item(walk.nth(passed));
    if player.flip() {
        player.note(walk.count() as u64);
    } else {
        player.note_item(walk.last());
    }
}

fn write<T: Clone + Drop, M: Maker<T>, R: RingBuffer<T>>(ring: &mut R, player: &mut Player<M>) {
    let (position, signed) = (player.position(), player.signed_position());
    match player.up_to(4) {
        0 => player.write(ring.get_mut(position)),
        1 => player.write(ring.get_mut_signed(signed)),
        2 => player.write(ring.front_mut()),
        3 => player.write(ring.back_mut()),
        _ => {
            let mut cursor = RingBufferMutIterator::new(ring);
            for _ in 0..player.some() {
                step(&mut cursor, player);
            }
        }
    }
}

/// Writes the next item from one end.
fn step<T: Clone + Drop, M: Maker<T>, R: RingBuffer<T>>(
    cursor: &mut RingBufferMutIterator<'_, T, R>,
    player: &mut Player<M>,
) {
    player.note(cursor.size_hint().0 as u64);
    if player.flip() {
        player.write(cursor.next());
    } else {
        player.write(cursor.next_back());
    }
}

/// Fills a ring.
pub fn fill<T: Clone + Drop, M: Maker<T>, R: RingBuffer<T>>(
    ring: &mut R,
    player: &mut Player<M>,
) -> Done {
    if player.flip() {
        return ring.fill(player.item());
    }
    let mut number = player.draw();
    let maker = &player.maker;
    ring.fill_with(|| {
        number = number.wrapping_add(1);
        maker.make(number % 1000)
    })
}
