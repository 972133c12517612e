//! How often items are compared by a search in a ring, and by a comparison of two.

ghost use Rattle.std.specs.Prelude.{refl};
ghost use Rattle.std.specs.Cmp.{eq_by_cmp_equiv, nat_cmp_total, on_total, partial_equiv_from_equiv, partial_order_from_total};
ghost use Rattle.std.specs.Ordering.{as_partial_cmp, eq_by_cmp, nat_cmp, on};

use super::assert_equal;
use ringbuffer::{
    AllocRingBuffer, ConstGenericRingBuffer, GrowableAllocRingBuffer, RingBuffer, binary_search,
};
use std::alloc::{AllocError, Global};
use std::cell::Cell;
use std::cmp::Ordering;
use std::process::Abort;

/// A level that counts how often it is compared.
#[derive(Drop)]
struct Level<'a> {
    height: u32,
    compared: &'a Cell<u32>,
}

impl<'a> PartialEq for Level<'a> {
    ghost eq = { eq_by_cmp (on (λ level. level.height) nat_cmp) };

    ghost laws = { partial_equiv_from_equiv
        (eq_by_cmp_equiv (on_total (λ level. level.height) nat_cmp_total)) };

    fn eq(&self, other: &Level<'a>) -> bool {
        self.cmp(other).is_eq()
    }
}

impl<'a> Eq for Level<'a> {
    ghost laws = { eq_by_cmp_equiv (on_total (λ level. level.height) nat_cmp_total) };
}

impl<'a> PartialOrd for Level<'a> {
    ghost partial_cmp = { as_partial_cmp (on (λ level. level.height) nat_cmp) };

    ghost laws = { partial_order_from_total (on_total (λ level. level.height) nat_cmp_total) };

    fn partial_cmp(&self, other: &Level<'a>) -> Option<Ordering> {
        Some(self.cmp(other))
    }
}

impl<'a> Ord for Level<'a> {
    ghost cmp = { on (λ level. level.height) nat_cmp };

    ghost total = { on_total (λ level. level.height) nat_cmp_total };

    ghost matches_partial_cmp = { λ x y. refl };

    ghost matches_eq = { λ x y. refl };

    fn cmp(&self, other: &Level<'a>) -> Ordering {
        self.compared.set(self.compared.get().saturating_add(1));
        self.height.cmp(&other.height)
    }
}

/// Asserts that searches in a ring of so many levels compare at most once more than their number has binary digits.
fn assert_compared(rt: &impl Abort, alloc: Global, levels: u32) -> Result<(), AllocError> {
    let compared = &Cell::new(0);
    let mut ring = GrowableAllocRingBuffer::new(alloc);
    for height in 0..levels {
        assert!(rt; ring.push(Level { height, compared }).is_ok());
    }
    let most = (u32::BITS - levels.leading_zeros()).saturating_add(1);
    for height in 0..levels.saturating_add(1) {
        compared.set(0);
        let found = binary_search(&ring, &Level { height, compared });
        assert_equal(rt, found.is_ok(), height < levels);
        assert!(rt; compared.get() <= most);
    }
    Ok(())
}

#[test]
fn a_search_compares_once_a_binary_digit_and_once_more(rt: HostRuntime) -> Result<(), AllocError> {
    for levels in [0, 1, 2, 3, 4, 7, 8, 100, 1023] {
        assert_compared(&rt, rt.alloc(), levels)?;
    }
    Ok(())
}

// Each item is asked whether it equals its counterpart, and the two that differ are compared then.
#[test]
fn an_order_compares_once_where_items_differ(rt: HostRuntime) {
    let compared = &Cell::new(0);
    let mut low = ConstGenericRingBuffer::<Level<'_>, 3>::new();
    let mut high = ConstGenericRingBuffer::<Level<'_>, 3>::new();
    for (one, other) in [(0, 0), (1, 1), (2, 3)] {
        let _ = low.push(Level {
            height: one,
            compared,
        });
        let _ = high.push(Level {
            height: other,
            compared,
        });
    }
    assert_equal(&rt, low.partial_cmp(&high), Some(Ordering::Less));
    assert_equal(&rt, compared.get(), 4);
}

/// Fills a ring of 16, so that its items go round its slots: one of this height, and those from 5 on.
fn fill_round<'a, R: RingBuffer<Level<'a>>>(
    rt: &impl Abort,
    ring: &mut R,
    first: u32,
    compared: &'a Cell<u32>,
) {
    for number in 0..20 {
        if ring.len() == 16 {
            ring.skip();
        }
        let height = if number == 4 { first } else { number };
        assert!(rt; ring.push(Level { height, compared }).is_ok());
    }
}

/// Compares a ring with another, and with a slice, that differ in the first item alone.
fn assert_first_decides<'a, R: RingBuffer<Level<'a>> + PartialEq + Drop>(
    rt: &(impl Abort + AllocGlobal),
    mut one: R,
    mut other: R,
    compared: &'a Cell<u32>,
) {
    fill_round(rt, &mut one, 3, compared);
    fill_round(rt, &mut other, 4, compared);
    compared.set(0);
    assert_equal(rt, one == other, false);
    assert_equal(rt, compared.get(), 1);
    let mut others = Vec::new(rt.alloc());
    for height in 4..20 {
        others.push(Level { height, compared }).expect(rt, "memory");
    }
    assert_equal(rt, one.eq_slice(&others), false);
    assert_equal(rt, compared.get(), 2);
}

#[test]
fn the_first_items_that_differ_decide(rt: HostRuntime) {
    let compared = Cell::new(0);
    let array = ConstGenericRingBuffer::<Level<'_>, 16>::new();
    assert_first_decides(&rt, array, ConstGenericRingBuffer::new(), &compared);
}

/// Compares heap rings, and growable ones.
fn assert_first_decides_on_the_heap(
    rt: &(impl Abort + AllocGlobal),
    alloc: Global,
) -> Result<(), AllocError> {
    let compared = Cell::new(0);
    let heap = AllocRingBuffer::new(alloc, 16)?;
    let other_heap = AllocRingBuffer::new(alloc, 16)?;
    assert_first_decides(rt, heap, other_heap, &compared);
    let growable = GrowableAllocRingBuffer::new(alloc);
    let other = GrowableAllocRingBuffer::new(alloc);
    assert_first_decides(rt, growable, other, &compared);
    Ok(())
}

#[test]
fn the_first_items_that_differ_decide_on_the_heap(rt: HostRuntime) -> Result<(), AllocError> {
    assert_first_decides_on_the_heap(&rt, rt.alloc())
}
