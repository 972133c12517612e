//! Calls that are refused memory or a clone part of the way, and calls that no refusal meets. Items count their drops, and
//! each is dropped exactly once.

mod clones;
mod fills;
mod made;
mod makers;
mod pushes;
mod runs;
mod sources;

use super::{drought, push_items};
use ring_test_support::counted::{Counted, Supply};
use ring_test_support::drought::Drought;
use ringbuffer::RingBuffer;
use std::process::Abort;

/// How many items a long extension has.
const MANY: usize = 100;

/// Empties the ring, and pushes the first `held` items of a supply that then has `most` in all.
fn hold_first<'a, R: RingBuffer<Counted<'a>>>(
    rt: &impl Abort,
    ring: &mut R,
    supply: &'a Supply,
    held: usize,
    most: usize,
) {
    ring.clear();
    supply.begin_again_with(most);
    push_items(rt, ring, supply, held);
}

/// Makes a drought, if it is said what it spares.
fn in_drought(rt: &(impl Abort + AllocGlobal), spare: Option<usize>) -> Option<Drought> {
    match spare {
        Some(bytes) => Some(drought(rt, bytes)),
        None => None,
    }
}

/// Tells whether the items are numbered in order, from the number `first` on.
fn are_numbered(items: &[Counted<'_>], first: usize) -> bool {
    for (i, item) in items.iter().enumerate() {
        if item.number != i.saturating_add(first) {
            return false;
        }
    }
    true
}
