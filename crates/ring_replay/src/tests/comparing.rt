//! Calls that compare rings, hash them, and print them.

use super::copies::Plain;
use super::items::Maker;
use super::picking::raise;
use super::player::{Done, Player};
use ringbuffer::{RingBuffer, binary_search};
use std::cmp::Ordering;
use std::fmt::Debug;
use std::hash::{DefaultHasher, Hash, Hasher};

/// Makes a call.
pub fn play<T: Plain, M: Maker<T>, R: RingBuffer<T> + Clone + Ord + Hash + Debug + Drop>(
    ring: &mut R,
    player: &mut Player<M>,
) -> Done {
    match player.up_to(3) {
        0 => search(ring, player),
        1 => {
            let mut twin = ring.clone()?;
            if player.flip() {
                twin.skip();
            }
            let position = player.position();
            player.write(twin.get_mut(position));
            compare(&twin, ring, player);
        }
        2 => {
            let mut hasher = DefaultHasher::new();
            ring.hash(&mut hasher);
            player.note(hasher.finish());
        }
        _ => {
            let mut twin = ring.clone()?;
            for _ in 3..twin.len() {
                twin.skip();
            }
            note_text(&twin, player)?;
        }
    }
    Ok(())
}

/// Searches among items that rise.
fn search<T: Plain, M: Maker<T>, R: RingBuffer<T>>(ring: &mut R, player: &mut Player<M>) {
    raise(ring, player);
    let sought = player.draw() % 250;
    match binary_search(ring, &player.maker.make(sought)) {
        Ok(index) => player.note(index as u64),
        Err(index) => player.note(!(index as u64)),
    }
}

/// Notes how one ring compares to another.
pub fn compare<M, R: Ord>(one: &R, other: &R, player: &mut Player<M>) {
    player.note((one == other) as u64);
    player.note((one <= other) as u64);
    player.note(number_of(Some(one.cmp(other))));
    player.note(number_of(one.partial_cmp(other)));
}

fn number_of(order: Option<Ordering>) -> u64 {
    match order {
        Some(Ordering::Less) => 1,
        Some(Ordering::Equal) => 2,
        Some(Ordering::Greater) => 3,
        None => 4,
    }
}

/// Notes what a ring prints, in one line and in several.
fn note_text<M, R: Debug>(ring: &R, player: &mut Player<M>) -> Done {
    let text = format!(in player.alloc; "{ring:?} {ring:#?}")?;
    for byte in text.as_bytes() {
        player.note(u64::from(*byte));
    }
    Ok(())
}
