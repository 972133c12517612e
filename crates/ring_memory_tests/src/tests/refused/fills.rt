//! Fills that are refused part of the way.

use super::hold_first;
use crate::tests::own::OwnRing;
use crate::tests::{
    assert_dropped_with, assert_drops, assert_equal, assert_numbered, drought, next, push_first,
    supply,
};
use ring_test_support::counted::{Counted, Supply};
use ring_test_support::{on_each_of_any, on_ring_of_any};
use ringbuffer::RingBuffer;
use std::process::Abort;

/// Fills a ring where from none to more clones are had than there is room for.
fn assert_fill_refused<'a, R: RingBuffer<Counted<'a>> + Drop>(
    rt: &impl Abort,
    mut ring: R,
    supply: &'a Supply,
) {
    let capacity = ring.capacity();
    for clones in 0..capacity.saturating_add(2) {
        hold_first(rt, &mut ring, supply, 2, clones.saturating_add(3));
        let filled = ring.fill(next(rt, supply));
        let held = clones.min(capacity);
        let found = (filled.is_ok(), ring.len(), supply.given());
        let wanted = (clones >= capacity, held, held.saturating_add(3));
        assert_equal(rt, found, wanted);
        assert_numbered(rt, &ring, 3);
        assert_drops(rt, supply, 2, &[1]);
    }
    assert_dropped_with(rt, supply, ring);
}

/// Fills a ring in a drought, which leaves a beginning of the new items or all of them.
fn assert_filled_in_a_drought<'a, R: RingBuffer<Counted<'a>> + Drop>(
    rt: &(impl Abort + AllocGlobal),
    mut ring: R,
    supply: &'a Supply,
    by_clones: bool,
) {
    push_first(rt, &mut ring, supply, 2);
    let capacity = ring.capacity();
    let drought = drought(rt, 0);
    let filled = if by_clones {
        ring.fill(next(rt, supply))
    } else {
        ring.fill_with(|| next(rt, supply))
    };
    drop(drought);
    assert!(rt; ring.len() <= capacity);
    assert_equal(rt, filled.is_ok(), ring.len() == capacity);
    // The value that is cloned is item 2.
    assert_numbered(rt, &ring, if by_clones { 3 } else { 2 });
    assert_dropped_with(rt, supply, ring);
}

#[test]
fn a_refused_clone_or_memory_ends_a_fill(rt: HostRuntime) {
    let supply = supply(&rt, 40);
    on_each_of_any!(&rt, 3, assert_fill_refused, &supply);
    assert_fill_refused(&rt, OwnRing::new(rt.alloc()), &supply);
    on_ring_of_any!(growable, &rt, 3, assert_filled_in_a_drought, &supply, false);
    on_ring_of_any!(growable, &rt, 3, assert_filled_in_a_drought, &supply, true);
    assert_filled_in_a_drought(&rt, OwnRing::new(rt.alloc()), &supply, true);
}
