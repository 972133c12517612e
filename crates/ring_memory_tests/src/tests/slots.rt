//! Slots of each kind, by themselves.

use super::{assert_equal, drought};
use ring_slots::{ArraySlots, CopySlots, HeapSlots, RingSlots};
use std::alloc::AllocError;

/// Puts an item into each of two empty slots, writes one of them, and takes both.
macro_rules! assert_holds_two {
    ($rt:expr, $slots:ident) => {
        $slots.put(1, "b");
        $slots.put(0, "a");
        assert_equal($rt, *$slots.get(1), "b");
        *$slots.get_mut(1) = "c";
        assert_equal($rt, *$slots.get(0), "a");
        assert_equal($rt, $slots.take(1), "c");
        assert_equal($rt, $slots.take(0), "a");
    };
}

#[test]
fn slots_hold_items_without_more_memory(rt: HostRuntime) -> Result<(), AllocError> {
    let mut heap = HeapSlots::new(rt.alloc(), 2)?;
    let _drought = drought(&rt, 0);
    let mut slots = ArraySlots::<&str, 2>::new();
    assert_holds_two!(&rt, slots);
    slots.put(1, "d");
    assert_equal(&rt, slots.take(1), "d");
    let mut plain = CopySlots::<&str, 2>::new("-");
    assert_holds_two!(&rt, plain);
    plain.put_copies(0, &["d", "e"]);
    assert_equal(&rt, plain.copied().take(1), "e");
    assert_equal(&rt, plain.take(1), "e");
    assert_holds_two!(&rt, heap);
    heap.put(1, "d");
    assert_equal(&rt, heap.take(1), "d");
    heap.free();
    Ok(())
}

// More bytes than there are could be asked for, but none are.
#[test]
fn items_without_size_need_no_memory(rt: HostRuntime) -> Result<(), AllocError> {
    let mut array = ArraySlots::<(), 1>::new();
    array.put(0, ());
    assert_equal(&rt, array.take(0), ());
    let mut heap = HeapSlots::new(rt.alloc(), 3)?;
    heap.put(2, ());
    assert_equal(&rt, heap.take(2), ());
    heap.free();
    for capacity in [1, 1 << 32, 1 << 63] {
        HeapSlots::<()>::new(rt.alloc(), capacity)?.free();
    }
    let mut aligned = HeapSlots::<[u64; 0]>::new(rt.alloc(), 2)?;
    aligned.put(1, []);
    assert_equal(&rt, aligned.get(1).len(), 0);
    assert_equal(&rt, aligned.take(1).len(), 0);
    aligned.free();
    Ok(())
}

#[test]
fn too_many_bytes_are_refused(rt: HostRuntime) -> Result<(), AllocError> {
    for size in [1 << 63, (1 << 63) - 1, 1 << 61, 1 << 60, usize::MAX] {
        if let Ok(slots) = HeapSlots::<u64>::new(rt.alloc(), size) {
            slots.free();
            assert!(rt; false);
        }
    }
    HeapSlots::<u64>::new(rt.alloc(), 0)?.free();
    Ok(())
}
