//! Windows of items that own memory: each call drops what it should, which a check of leaks sees too.

use super::assert_equal;
use ring_test_support::counted::{Counted, Supply};
use ringbuffer::RingBuffer;
use std::alloc::AllocError;
use std::process::Abort;
use window::{AllocWindowMin, AllocWindowTime, GrowableAllocWindowTime, Stamped, WindowTime};

/// Text in the order of its bytes is lent, and needs not be copied.
#[test]
fn least_of_texts(rt: HostRuntime) {
    let mut window = AllocWindowMin::on_heap(rt.alloc(), 2).expect(&rt, "memory");
    for word in ["pear", "apple", "quince", "plum"] {
        let word = String::from_str(rt.alloc(), word).expect(&rt, "memory");
        let _ = window.push(word).expect(&rt, "room for a word");
    }
    let least = window.min().expect(&rt, "a word");
    assert_equal(&rt, least.as_str(), "plum");
    drop(window.dequeue());
    window.clear();
}

/// Counts the items that were dropped, each once.
fn dropped(supply: &Supply) -> usize {
    let mut count = 0usize;
    for number in 0..supply.given() {
        if supply.drops(number) == Some(1) {
            count = count.saturating_add(1);
        }
    }
    count
}

/// Pushes items onto a window of 10, of which `given_way` give way on a full one: the others leave as too old, when they are
/// asked to, and with a clear. Each is dropped at once, and once.
fn assert_drops<'a, R: RingBuffer<Stamped<Counted<'a>>> + Drop>(
    rt: &impl Abort,
    mut window: WindowTime<Counted<'a>, R>,
    supply: &'a Supply,
    given_way: usize,
) {
    supply.begin_again();
    for stamp in [0, 1, 2, 11, 12, 13, 14] {
        let item = supply.next().expect(rt, "an item");
        assert!(rt; window.push(stamp, item).is_ok());
    }
    assert_equal(rt, dropped(supply), 3);
    let item = supply.next().expect(rt, "an item");
    assert!(rt; window.push(15, item).is_ok());
    assert_equal(rt, dropped(supply), given_way.saturating_add(3));
    let _ = window.advance(23);
    assert_equal(rt, dropped(supply), 5);
    let _ = window.drop_older(14);
    assert_equal(rt, dropped(supply), 6);
    drop(window.dequeue());
    assert_equal(rt, dropped(supply), 7);
    window.clear();
    assert_equal(rt, dropped(supply), 8);
    // The last of these overwrites one that is too old, if the window is full.
    for stamp in [30, 31, 32, 33, 100] {
        let item = supply.next().expect(rt, "an item");
        assert!(rt; window.push(stamp, item).is_ok());
    }
    assert_equal(rt, dropped(supply), 12);
    drop(window);
    assert_equal(rt, supply.first_fault(0), None);
}

#[test]
fn windows_of_time_drop_each_item_once(rt: HostRuntime) -> Result<(), AllocError> {
    let supply = Supply::new(rt.alloc(), 13)?;
    let heap = AllocWindowTime::on_heap(rt.alloc(), 4, 10)?;
    assert_drops(&rt, heap, &supply, 1);
    let growable = GrowableAllocWindowTime::growable(rt.alloc(), 10);
    assert_drops(&rt, growable, &supply, 0);
    Ok(())
}
