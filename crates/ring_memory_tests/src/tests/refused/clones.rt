//! Clones and lists of a ring's items, and clones into another ring, where clones or memory are refused part of the way.

use super::{are_numbered, hold_first, in_drought};
use crate::tests::{
    assert_dropped_after, assert_dropped_with, assert_equal, assert_numbered, assert_three, items,
    push_items, supply,
};
use ring_test_support::counted::{Counted, Supply};
use ring_test_support::drought::{is_in_turn, spared};
use ring_test_support::{on_each_of_any, on_ring_of_any, refused_in_turn};
use ringbuffer::{ConstGenericRingBuffer, RingBuffer};
use std::alloc::AllocError;
use std::process::Abort;

/// What the items of a ring are cloned into.
#[derive(Clone, Copy)]
enum Copying {
    Ring,
    List,
}

/// Clones the items of a ring of the first three items of a supply of `most`, in a drought if it is said what that
/// spares. The ring is as it was. Returns whether the clone was made.
fn is_copied<'a, R: RingBuffer<Counted<'a>> + Clone + Drop>(
    rt: &(impl Abort + AllocGlobal),
    ring: &mut R,
    supply: &'a Supply,
    copying: Copying,
    most: usize,
    spare: Option<usize>,
) -> bool {
    hold_first(rt, ring, supply, 3, most);
    let drought = in_drought(rt, spare);
    let mut is_made = true;
    match copying {
        Copying::Ring => {
            let made: Result<R, AllocError> = ring.clone();
            drop(drought);
            match made {
                Ok(twin) => assert_three(rt, &twin, 3),
                Err(_) => is_made = false,
            }
        }
        Copying::List => {
            let made = ring.to_vec(rt.alloc());
            drop(drought);
            match made {
                Ok(list) => assert_equal(rt, (list.len(), are_numbered(&list, 3)), (3, true)),
                Err(_) => is_made = false,
            }
        }
    }
    assert_dropped_after(rt, supply, 3);
    assert_three(rt, ring, 0);
    is_made
}

/// Clones the items of a ring where from none to three clones are had.
fn assert_clones_refused<'a, R: RingBuffer<Counted<'a>> + Clone + Drop>(
    rt: &(impl Abort + AllocGlobal),
    mut ring: R,
    supply: &'a Supply,
    copying: Copying,
) {
    for clones in 0..4 {
        let is_made = is_copied(rt, &mut ring, supply, copying, clones + 3, None);
        assert_equal(rt, (clones, is_made), (clones, clones == 3));
    }
    assert_dropped_with(rt, supply, ring);
}

/// Clones the items of a ring in one drought after the other.
fn assert_copies_refused<'a, R: RingBuffer<Counted<'a>> + Clone + Drop>(
    rt: &(impl Abort + AllocGlobal),
    mut ring: R,
    supply: &'a Supply,
    copying: Copying,
) {
    let refused = refused_in_turn!(
        rt,
        step,
        is_copied(rt, &mut ring, supply, copying, 6, Some(spared(step)))
    );
    assert!(rt; is_in_turn(refused));
    assert_dropped_with(rt, supply, ring);
}

#[test]
fn a_refused_clone_of_an_item_ends_a_clone_or_a_list(rt: HostRuntime) {
    let supply = supply(&rt, 6);
    on_each_of_any!(&rt, 3, assert_clones_refused, &supply, Copying::Ring);
    on_ring_of_any!(heap, &rt, 3, assert_clones_refused, &supply, Copying::List);
    on_ring_of_any!(
        growable,
        &rt,
        3,
        assert_clones_refused,
        &supply,
        Copying::List
    );
}

/// Clones the three items of a ring into another that holds three, where from none to three clones are had.
fn assert_clone_into_refused<'a>(
    rt: &impl Abort,
    mut ring: ConstGenericRingBuffer<Counted<'a>, 3>,
    mut other: ConstGenericRingBuffer<Counted<'a>, 3>,
    supply: &'a Supply,
) {
    for clones in 0..4 {
        hold_first(rt, &mut ring, supply, 3, clones + 6);
        push_items(rt, &mut other, supply, 3);
        let is_made = ring.clone_into(&mut other).is_ok();
        assert_equal(rt, (is_made, other.len()), (clones == 3, clones));
        assert_three(rt, &ring, 0);
        assert_numbered(rt, &other, 6);
        other.clear();
        assert_dropped_after(rt, supply, 3);
    }
    assert_dropped_with(rt, supply, (ring, other));
}

#[test]
fn a_refused_clone_into_a_ring_leaves_those_before_it(rt: HostRuntime) {
    let supply = supply(&rt, 9);
    let (ring, other) = (ConstGenericRingBuffer::new(), ConstGenericRingBuffer::new());
    assert_clone_into_refused(&rt, ring, other, &supply);
}

/// Pushes clones of three items onto an empty ring with room for three, and puts clones of a ring's three items in the place of
/// others, where from none to three clones are had. Those that are had stay, and none is asked for twice.
fn assert_clones_of_slices_refused<'a, R: RingBuffer<Counted<'a>> + Drop>(
    rt: &(impl Abort + AllocGlobal),
    mut ring: R,
    supply: &'a Supply,
) {
    for clones in 0..4 {
        hold_first(rt, &mut ring, supply, 0, clones + 3);
        let lent = items(rt, supply, 3);
        let is_extended = RingBuffer::extend_from_slice(&mut ring, &lent).is_ok();
        assert_equal(rt, (is_extended, ring.len()), (clones == 3, clones));
        assert_numbered(rt, &ring, 3);
        drop(lent);
        hold_first(rt, &mut ring, supply, 3, clones + 6);
        let mut places = items(rt, supply, 3);
        let is_copied = RingBuffer::copy_to_slice(&ring, &mut places).is_ok();
        assert_equal(rt, (clones, is_copied), (clones, clones == 3));
        for (i, place) in places.iter().enumerate() {
            let first = if i < clones { 6 } else { 3 };
            assert_equal(rt, place.number, i.saturating_add(first));
        }
        assert_three(rt, &ring, 0);
    }
    assert_dropped_with(rt, supply, ring);
}

#[test]
fn a_refused_clone_ends_what_goes_from_a_slice_or_to_it(rt: HostRuntime) {
    let supply = supply(&rt, 9);
    on_each_of_any!(&rt, 3, assert_clones_of_slices_refused, &supply);
}

#[test]
fn a_clone_and_a_list_are_refused_in_turn(rt: HostRuntime) {
    let supply = supply(&rt, 6);
    on_ring_of_any!(heap, &rt, 3, assert_copies_refused, &supply, Copying::Ring);
    on_ring_of_any!(
        growable,
        &rt,
        0,
        assert_copies_refused,
        &supply,
        Copying::Ring
    );
    on_ring_of_any!(heap, &rt, 3, assert_copies_refused, &supply, Copying::List);
    on_ring_of_any!(
        growable,
        &rt,
        3,
        assert_copies_refused,
        &supply,
        Copying::List
    );
}
