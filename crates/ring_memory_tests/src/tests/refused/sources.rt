//! Rings made of two items of each source, or of a text, with memory for it and without.

use super::in_drought;
use super::made::Source::{
    self, Array, ArrayRing, Deque, GrowableRing, HeapRing, Iterated, List, Vector,
};
use super::made::{LENT, MOVED, Made, Pair};
use crate::tests::{assert_equal, assert_numbered, drought, next, supply};
use ring_test_support::counted::{Counted, Supply};
use ring_test_support::drought::{is_in_turn, spared};
use ring_test_support::refused_in_turn;
use ring_test_support::spelled::Spelled;
use ringbuffer::{AllocRingBuffer, ConstGenericRingBuffer, GrowableAllocRingBuffer, RingBuffer};
use std::process::Abort;

/// Makes a ring of the next two items of a supply, in a drought if it is said what that spares. It holds the items, or their
/// clones, and takes one more. What was lent is as it was. Returns whether the ring was made: else what was moved or cloned was
/// dropped.
fn is_made<'a, R: RingBuffer<Counted<'a>> + Made<'a> + Drop>(
    rt: &(impl Abort + AllocGlobal),
    supply: &'a Supply,
    source: Source,
    spare: Option<usize>,
) -> bool {
    let mut lent = [next(rt, supply), next(rt, supply)];
    let is_lent = LENT.contains(&source);
    let first = if is_lent { 2 } else { 0 };
    let made = if is_lent {
        let _drought = in_drought(rt, spare);
        R::of_clones(rt.alloc(), &mut lent, source)
    } else {
        let [x, y] = lent;
        let pair = Pair::of(rt.alloc(), source, x, y).expect(rt, "memory");
        lent = [next(rt, supply), next(rt, supply)];
        let _drought = in_drought(rt, spare);
        R::of(rt.alloc(), pair)
    };
    let is_made = made.is_ok();
    if let Ok(mut ring) = made {
        assert_equal(rt, ring.len(), 2);
        assert_numbered(rt, &ring, first);
        if let Some(item) = supply.next() {
            assert!(rt; ring.push(item).is_ok());
        }
    }
    drop(lent);
    assert_equal(rt, supply.first_fault(0), None);
    is_made
}

/// Makes a ring of each source, and of fewer clones than items.
fn assert_made_of_each<'a, R: RingBuffer<Counted<'a>> + Made<'a> + Drop>(
    rt: &(impl Abort + AllocGlobal),
    supply: &'a Supply,
) {
    for source in MOVED {
        supply.begin_again();
        let is_made = is_made::<R>(rt, supply, *source, None);
        assert_equal(rt, (*source, is_made), (*source, true));
    }
    for source in LENT {
        for clones in 0..4 {
            supply.begin_again_with(clones + 2);
            let is_made = is_made::<R>(rt, supply, *source, None);
            assert_equal(rt, (*source, is_made), (*source, clones >= 2));
        }
    }
}

/// Makes rings of each source in one drought after the other, until none is refused. The first is.
fn assert_refused_in_turn<'a, R: RingBuffer<Counted<'a>> + Made<'a> + Drop>(
    rt: &(impl Abort + AllocGlobal),
    supply: &'a Supply,
    sources: &[Source],
) {
    for source in sources {
        let refused = refused_in_turn!(
            rt,
            step,
            {
                supply.begin_again();
                is_made::<R>(rt, supply, *source, Some(spared(step)))
            }
        );
        assert_equal(rt, (*source, is_in_turn(refused)), (*source, true));
    }
}

#[test]
fn a_refused_ring_drops_its_source_or_leaves_what_it_clones(rt: HostRuntime) {
    let supply = supply(&rt, 5);
    assert_made_of_each::<ConstGenericRingBuffer<Counted, 2>>(&rt, &supply);
    assert_made_of_each::<AllocRingBuffer<Counted>>(&rt, &supply);
    assert_made_of_each::<GrowableAllocRingBuffer<Counted>>(&rt, &supply);
    let moved = &[Array, Vector, Deque, List, GrowableRing, ArrayRing];
    assert_refused_in_turn::<AllocRingBuffer<Counted>>(&rt, &supply, moved);
    assert_refused_in_turn::<AllocRingBuffer<Counted>>(&rt, &supply, LENT);
    let moved = &[Array, Iterated, List, HeapRing, ArrayRing];
    assert_refused_in_turn::<GrowableAllocRingBuffer<Counted>>(&rt, &supply, moved);
    assert_refused_in_turn::<GrowableAllocRingBuffer<Counted>>(&rt, &supply, LENT);
    for source in MOVED {
        supply.begin_again();
        let array = is_made::<ConstGenericRingBuffer<Counted, 2>>(&rt, &supply, *source, Some(0));
        assert_equal(&rt, (*source, array), (*source, true));
    }
    for source in [Vector, Deque] {
        supply.begin_again();
        let growable = is_made::<GrowableAllocRingBuffer<Counted>>(&rt, &supply, source, Some(0));
        assert_equal(&rt, (source, growable), (source, true));
    }
}

/// Makes a ring of a text in one drought after the other, until none is refused. The first is.
fn assert_spelled_in_turn<R: Spelled + Drop>(rt: &(impl Abort + AllocGlobal)) {
    for is_lent in [true, false] {
        let refused = refused_in_turn!(
            rt,
            step,
            {
                let text = String::from_str(rt.alloc(), "abc").expect(rt, "memory");
                let drought = drought(rt, spared(step));
                let made = if is_lent {
                    R::of_text(rt.alloc(), "abc")
                } else {
                    R::of_string(rt.alloc(), text)
                };
                drop(drought);
                made.is_ok()
            }
        );
        assert_equal(rt, (is_lent, is_in_turn(refused)), (is_lent, true));
    }
}

#[test]
fn a_ring_of_a_text_is_refused_in_turn(rt: HostRuntime) {
    assert_spelled_in_turn::<AllocRingBuffer<char>>(&rt);
    assert_spelled_in_turn::<GrowableAllocRingBuffer<char>>(&rt);
}
