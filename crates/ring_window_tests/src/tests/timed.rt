//! Windows of the items that came within a span of time.

use super::assert_equal;
use ring_test_support::drought::Drought;
use ring_test_support::on_ring;
use ringbuffer::{GrowableAllocRingBuffer, RingBuffer, RingBufferExt};
use std::process::Abort;
use window::{AllocWindowTime, GrowableAllocWindowTime, Stamped, WindowTime};

/// Returns the stamp of an item and the item, if there is one.
fn told(item: Option<&Stamped<u32>>) -> Option<(u64, u32)> {
    let item = item?;
    Some((item.stamp, item.item))
}

/// The window holds these items, by each way of reading it.
fn assert_holds<R: RingBuffer<Stamped<u32>>>(
    rt: &impl Abort,
    window: &WindowTime<u32, R>,
    items: &[(u64, u32)],
) {
    assert_equal(rt, window.len(), items.len());
    assert_equal(rt, window.is_empty(), items.is_empty());
    assert_equal(rt, told(window.oldest()), items.first().copied());
    assert_equal(rt, told(window.newest()), items.last().copied());
    for (i, item) in window.iter().enumerate() {
        assert_equal(rt, told(Some(item)), items.get(i).copied());
    }
    for (i, item) in window.ring().iter().enumerate() {
        assert_equal(rt, told(Some(item)), items.get(i).copied());
    }
}

/// The stamp and the number of an item that is pushed, what the push hands back, and what the window holds then.
type Push = (u64, u32, Option<(u64, u32)>, &'static [(u64, u32)]);

/// Items leave once they came more than 10 before the newest.
const NEWER: &[Push] = &[
    (0, 1, None, &[(0, 1)]),
    (5, 2, None, &[(0, 1), (5, 2)]),
    (10, 3, None, &[(0, 1), (5, 2), (10, 3)]),
    (11, 4, None, &[(5, 2), (10, 3), (11, 4)]),
    (30, 5, None, &[(30, 5)]),
];

/// Of a window of two, a young item that gives way is handed back, and one that is too old isn't.
const OF_TWO: &[Push] = &[
    (1, 6, None, &[(1, 6)]),
    (2, 7, None, &[(1, 6), (2, 7)]),
    (11, 8, Some((1, 6)), &[(2, 7), (11, 8)]),
    (13, 9, None, &[(11, 8), (13, 9)]),
    (40, 5, None, &[(40, 5)]),
];

/// An item that is too old stays while it is after one that isn't. A stamp before those of the others drops nothing.
const OUT_OF_ORDER: &[Push] = &[
    (5, 1, None, &[(5, 1)]),
    (1, 2, None, &[(5, 1), (1, 2)]),
    (12, 3, None, &[(5, 1), (1, 2), (12, 3)]),
    (16, 4, None, &[(12, 3), (16, 4)]),
    (3, 5, None, &[(12, 3), (16, 4), (3, 5)]),
];

/// In a full window of two the first item isn't too old, and so the second stays, which is.
const OUT_OF_ORDER_OF_TWO: &[Push] = &[
    (5, 1, None, &[(5, 1)]),
    (1, 2, None, &[(5, 1), (1, 2)]),
    (12, 3, Some((5, 1)), &[(1, 2), (12, 3)]),
];

#[test]
fn items_leave_with_their_time(rt: HostRuntime) {
    on_ring!(growable, &rt, 4, assert_slides, NEWER);
    on_ring!(array, &rt, 2, assert_slides, OF_TWO);
    on_ring!(heap, &rt, 4, assert_slides, OUT_OF_ORDER);
    on_ring!(array, &rt, 2, assert_slides, OUT_OF_ORDER_OF_TWO);
}

#[test]
fn items_leave_when_asked(rt: HostRuntime) {
    let mut window = AllocWindowTime::on_heap(rt.alloc(), 5, 3).expect(&rt, "memory");
    for stamp in [10, 10, 11, 12, 13] {
        assert_equal(&rt, window.push(stamp, 7), Ok(None));
    }
    assert_equal(&rt, (window.advance(2), window.advance(13)), (0, 0));
    assert_equal(&rt, (window.advance(14), window.len()), (2, 3));
    assert_equal(&rt, (window.drop_older(12), window.len()), (1, 2));
    assert_holds(&rt, &window, &[(12, 7), (13, 7)]);
    assert_equal(&rt, window.advance(18446744073709551615), 2);
    assert_holds(&rt, &window, &[]);
    assert_equal(&rt, window.advance(18446744073709551615), 0);
    assert_equal(&rt, window.span(), 3);
}

#[test]
fn the_ends_of_time(rt: HostRuntime) {
    let end = 18446744073709551615;
    let mut window = GrowableAllocWindowTime::growable(rt.alloc(), end);
    let pushed = (window.push(0, 1), window.push(end, 2));
    assert_equal(&rt, pushed, (Ok(None), Ok(None)));
    assert_holds(&rt, &window, &[(0, 1), (end, 2)]);
    let mut instant = GrowableAllocWindowTime::growable(rt.alloc(), 0);
    for stamp in [end - 1, end, end] {
        assert_equal(&rt, instant.push(stamp, 3), Ok(None));
    }
    assert_holds(&rt, &instant, &[(end, 3), (end, 3)]);
}

/// Even an item that is too old stays where the push is refused.
#[test]
fn a_refused_push_drops_nothing(rt: HostRuntime) {
    let ring = GrowableAllocRingBuffer::with_capacity(rt.alloc(), 4).expect(&rt, "memory");
    let room = ring.capacity();
    let mut window = WindowTime::new(ring, 10);
    for _ in 0..room {
        assert_equal(&rt, window.push(1, 6), Ok(None));
    }
    let drought = Drought::total(rt.alloc()).expect(&rt, "memory");
    let refused = window.push(50, 7);
    drop(drought);
    assert_equal(&rt, refused, Err(7));
    let held = (window.len(), told(window.newest()));
    assert_equal(&rt, held, (room, Some((1, 6))));
    assert_equal(
        &rt,
        (window.advance(50), window.push(50, 7)),
        (room, Ok(None)),
    );
    assert_holds(&rt, &window, &[(50, 7)]);
}

#[test]
fn a_window_of_time_over_a_fixed_ring_is_refused_nothing(rt: HostRuntime) {
    on_ring!(heap, &rt, 2, assert_takes_no_memory);
}

/// A ring of items with stamps.
trait OfStamped: RingBuffer<Stamped<u32>> + Drop {
    /// Pushes items of a stamp and a number onto a window of a span of 10. After each it hands back and holds what is said.
    fn assert_slides(self, rt: &impl Abort, pushes: &[Push]) {
        let mut window = WindowTime::new(self, 10);
        assert_holds(rt, &window, &[]);
        for (stamp, item, back, held) in pushes {
            let pushed = window.push(*stamp, *item).expect(rt, "room for an item");
            assert_equal(rt, told(pushed.as_ref()), *back);
            assert_holds(rt, &window, held);
        }
    }

    /// Slides a window over a ring of two, in a drought.
    fn assert_takes_no_memory(self, rt: &(impl Abort + AllocGlobal)) {
        let drought = Drought::total(rt.alloc()).expect(rt, "memory");
        let mut window = WindowTime::new(self, 10);
        let pushed = [(1, 1), (2, 2), (12, 3), (13, 4)].map(|(stamp, item)| window.push(
            stamp, item,
        ));
        let left = window.advance(23);
        drop(drought);
        assert_equal(rt, (pushed, left), ([Ok(None); 4], 1));
        assert_holds(rt, &window, &[(13, 4)]);
    }
}

impl<R: RingBuffer<Stamped<u32>> + Drop> OfStamped for R {}
