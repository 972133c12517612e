//! What comes of a walk from either end next to the items that a test wants.

use crate::steps::{End, Outcome};
use ringbuffer::{DoubleEndedRing, RingBufferExt};

/// Takes a step of a walk from an end.
macro_rules! step_from {
    ($end:expr, $walk:ident) => {
        match $end {
            End::Front => $walk.next(),
            End::Back => $walk.next_back(),
        }
    };
}

/// Takes steps of a walk from these ends, which find these items and then none. It knows before each how many are left.
macro_rules! walk_from {
    ($ends:expr, $items:expr, $left:expr, $walk:ident = $new:expr, $len:expr $(, $copied:ident)?) => {{
        let mut left = $left;
        let mut $walk = $new;
        for (i, end) in $ends.iter().enumerate() {
            if $walk.size_hint() != (left, Some(left)) || $len != left {
                return Outcome::Counts($len);
            }
            let found = step_from!(end, $walk)$(.$copied())?;
            if found != $items.get(i).copied() {
                return Outcome::Differs(i, found);
            }
            left = left.saturating_sub(1);
        }
        Outcome::Agrees
    }};
}

pub(crate) fn read<R: DoubleEndedRing<i64>>(ring: &R, ends: &[End], items: &[i64]) -> Outcome {
    walk_from!(
        ends,
        items,
        ring.len(),
        walk = ring.iter(),
        walk.len(),
        copied
    )
}

pub(crate) fn lent<R: DoubleEndedRing<i64>>(ring: &mut R, ends: &[End], items: &[i64]) -> Outcome {
    walk_from!(
        ends,
        items,
        ring.len(),
        walk = ring.iter_mut(),
        walk.size_hint().0,
        copied
    )
}

pub(crate) fn added<R: DoubleEndedRing<i64>>(ring: &mut R, additions: &[(End, i64)]) -> Outcome {
    let mut walk = ring.iter_mut();
    for (end, number) in additions {
        let Some(item) = step_from!(end, walk) else {
            return Outcome::NoItem;
        };
        *item = item.wrapping_add(*number);
    }
    Outcome::Agrees
}

pub(crate) fn drained<R: DoubleEndedRing<i64>>(
    ring: &mut R,
    ends: &[End],
    items: &[i64],
) -> Outcome {
    walk_from!(ends, items, ring.len(), walk = ring.drain(), walk.len())
}
