//! What a run is, and how a ring plays one. The methods have their bodies in traits: a call of a function over rings would
//! be proved anew for each type and each capacity of an array.

use super::bytes::PlayedBytes;
use super::calls;
use super::copies::{Plain, PlayedCopies};
use super::digests::DIGESTS;
use super::items::{Maker, Values};
use super::player::Player;
use super::rings::Played;
use std::alloc::Global;
use std::process::Abort;

/// How often a run looks at what its ring holds, and how many calls come between.
const BLOCKS: usize = 4;

const CALLS: usize = 256;

/// A run: its number, its ring, and the capacity that this is made with.
#[derive(Clone, Copy, Debug, PartialEq, Drop)]
pub struct Run {
    number: usize,
    ring: &'static str,
    items: &'static str,
    capacity: usize,
}

impl Run {
    /// Makes the run before the first of a kind of items.
    pub fn before(number: usize, items: &'static str) -> Run {
        Run {
            number,
            ring: "",
            items,
            capacity: 0,
        }
    }

    /// Makes the run after this.
    pub fn next(self, ring: &'static str, capacity: usize) -> Run {
        Run {
            number: self.number.wrapping_add(1),
            ring,
            items: self.items,
            capacity,
        }
    }
}

/// Makes the player of a run.
fn begin<T: Clone + Drop, M: Maker<T>, R: Played<T>>(
    ring: &mut R,
    run: Run,
    maker: M,
    alloc: Global,
) -> Player<M> {
    let mut player = Player::new(maker, alloc, run.capacity, run.number);
    calls::rotate(ring, &mut player);
    player
}

/// Notes what a ring holds, and how many items there are.
fn look<T: Clone + Drop, M: Maker<T>, R: Played<T>>(ring: &R, player: &mut Player<M>) {
    player.note_ring(ring);
    let (count, sum) = player.maker.alive();
    player.note(count);
    player.note(sum);
}

/// Asserts that a run's digest is that of the same calls in Rust.
fn assert_agrees(rt: &impl Abort, run: Run, digest: u32) {
    let wanted = DIGESTS.get(run.number.wrapping_sub(1)).copied();
    assert_eq!(rt; (run, Some(digest)), (run, wanted));
}

/// A ring that plays runs.
pub trait Replays<T: Clone + Drop>: Played<T> {
    /// Plays a run that copies no item.
    fn replay<M: Maker<T> + Drop>(&mut self, rt: &(impl Abort + AllocGlobal), maker: M, run: Run) {
        let mut player = begin(self, run, maker, rt.alloc());
        for _ in 0..BLOCKS {
            for _ in 0..CALLS {
                calls::play(self, &mut player).expect(rt, "memory");
            }
            look(self, &mut player);
        }
        assert_agrees(rt, run, player.digest());
    }
}

impl<T: Clone + Drop, R: Played<T>> Replays<T> for R {}

/// A ring that plays runs of items that can be copied.
pub trait ReplaysCopies<T: Plain>: PlayedCopies<T> {
    /// Plays a run, of which every fourth call copies or compares items.
    fn replay_copies<M: Maker<T> + Drop>(
        &mut self,
        rt: &(impl Abort + AllocGlobal),
        maker: M,
        run: Run,
    ) {
        let mut player = begin(self, run, maker, rt.alloc());
        for _ in 0..BLOCKS {
            for call in 1..=CALLS {
                if call % 4 == 0 {
                    self.play_copies(&mut player).expect(rt, "memory");
                } else {
                    calls::play(self, &mut player).expect(rt, "memory");
                }
            }
            look(self, &mut player);
        }
        assert_agrees(rt, run, player.digest());
    }
}

impl<T: Plain, R: PlayedCopies<T>> ReplaysCopies<T> for R {}

/// A ring that plays runs of bytes.
pub trait ReplaysBytes: PlayedBytes {
    /// Plays a run, of which every fourth call copies or compares bytes, or reads or writes a stream.
    fn replay_bytes(&mut self, rt: &(impl Abort + AllocGlobal), maker: Values, run: Run) {
        let mut player = begin::<u8, Values, Self>(self, run, maker, rt.alloc());
        for _ in 0..BLOCKS {
            for call in 1..=CALLS {
                if call % 4 != 0 {
                    calls::play(self, &mut player).expect(rt, "memory");
                } else if player.flip() {
                    self.play_copies(&mut player).expect(rt, "memory");
                } else {
                    self.play_bytes(&mut player).expect(rt, "memory");
                }
            }
            look::<u8, Values, Self>(self, &mut player);
        }
        assert_agrees(rt, run, player.digest());
    }
}

impl<R: PlayedBytes> ReplaysBytes for R {}
