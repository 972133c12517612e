//! How often windows combine two values, compare two items, and ask about one. The values, the order and the items count it
//! themselves.

use super::assert_equal;
use super::random_calls::next_number;
use ringbuffer::{ConstGenericRingBuffer, RingBuffer};
use std::cell::Cell;
use std::process::Abort;
use window::{
    AllocWindowFold, Candidate, CountIf, Kept, Monoid, Order, Predicate, WindowFold, WindowLeast,
    WindowTally,
};

/// How many samples are pushed.
const PUSHES: u64 = 1000;

/// A sample, or none, that counts how often two are combined. The later one stays.
#[derive(Clone, Copy)]
struct Last<'a>(Option<(i64, &'a Cell<u64>)>);

impl Monoid for Last<'_> {
    ghost use Rattle.std.specs.Prelude.{None};
    ghost use Rattle.std.proofs.Common.{ap, refl};
    ghost use Rattle.ring_window_tests.specs.Latest.{latest, latest-assoc, latest-left};

    ghost neutral = { record { 0 = None } };

    ghost op = { λ x y. record { 0 = latest x.0 y.0 } };

    ghost laws = { record {
      valid_neutral = tt;
      valid_op = λ x y _ _. tt;
      left_identity = λ x _. ap (λ v. record { 0 = v }) (latest-left x.0);
      right_identity = λ x _. refl;
      assoc = λ x y z _ _ _. ap (λ v. record { 0 = v }) (latest-assoc x.0 y.0 z.0);
    } };

    fn neutral() -> Self {
        Last(None)
    }

    fn combine(&self, later: &Self) -> Self {
        let last = match later.0 {
            Some(_) => *later,
            None => *self,
        };
        if let Some((_, calls)) = last.0 {
            calls.set(calls.get().saturating_add(1));
        }
        last
    }
}

/// Asserts how often a window without items combines values while it takes some in: at most twice a push, and so often but
/// for the items that are not folded yet. To read what they combine to takes one call more.
fn assert_combined<'a, R: RingBuffer<Kept<Last<'a>>> + Drop>(
    rt: &impl Abort,
    mut window: WindowFold<Last<'a>, R>,
    calls: &'a Cell<u64>,
    len: u64,
) {
    calls.set(0);
    for sample in 0..PUSHES {
        if window.len() as u64 >= len {
            window.dequeue();
        }
        let sample = Last(Some((sample.cast_signed(), calls)));
        assert!(rt; window.push(sample).is_ok());
    }
    let most = PUSHES.saturating_mul(2);
    assert!(rt; calls.get() <= most && calls.get() >= most.saturating_sub(len));
    calls.set(0);
    let _ = window.fold();
    assert_equal(rt, calls.get(), 1);
}

#[test]
fn values_are_combined_twice_a_push(rt: HostRuntime) {
    let calls = Cell::new(0);
    let window = AllocWindowFold::<Last<'_>>::on_heap(rt.alloc(), 20).expect(&rt, "memory");
    assert_combined(&rt, window, &calls, 20);
}

/// A level that counts how often it is compared.
#[derive(Drop)]
struct Level<'a> {
    height: u64,
    compared: &'a Cell<u64>,
}

/// The order of levels by their height.
#[derive(Drop)]
struct ByHeight;

impl<'a> Order<Level<'a>> for ByHeight {
    ghost use Rattle.std.specs.Cmp.{nat_cmp_total, on_total};
    ghost use Rattle.std.specs.Ordering.{nat_cmp};

    ghost cmp = { λ x y. nat_cmp x.height y.height };

    ghost total = { on_total (λ level. level.height) nat_cmp_total };

    fn is_above(x: &Level<'a>, y: &Level<'a>) -> bool {
        x.compared.set(x.compared.get().saturating_add(1));
        x.height > y.height
    }
}

/// Asserts that a window compares items at most twice a push, of which more than one is made.
fn assert_compared<'a, R: RingBuffer<Candidate<Level<'a>>> + Drop>(
    rt: &impl Abort,
    mut window: WindowLeast<Level<'a>, ByHeight, R>,
    compared: &'a Cell<u64>,
) {
    compared.set(0);
    let mut state = 1u64;
    for _ in 0..PUSHES {
        let height = next_number(&mut state);
        assert!(rt; window.push(Level { height, compared }).is_ok());
    }
    assert!(rt; compared.get() <= PUSHES.saturating_mul(2) && compared.get() > PUSHES);
}

#[test]
fn levels_are_compared_at_most_twice_a_push(rt: HostRuntime) {
    let compared = Cell::new(0);
    let ring = ConstGenericRingBuffer::<Candidate<Level<'_>>, 7>::new();
    assert_compared(&rt, WindowLeast::new(ring), &compared);
}

/// Every item, each of which counts how often it is asked about.
#[derive(Drop)]
struct Every;

impl<'a> Predicate<&'a Cell<u64>> for Every {
    ghost use Rattle.std.specs.Prelude.{true};

    ghost holds = { λ _. true };

    fn holds(item: &&'a Cell<u64>) -> bool {
        item.set(item.get().saturating_add(1));
        true
    }
}

#[test]
fn a_tally_asks_about_each_item_once(rt: HostRuntime) {
    let asked = Cell::new(0);
    let mut ring = ConstGenericRingBuffer::<&Cell<u64>, 7>::new();
    for _ in 0..5 {
        assert!(rt; ring.push(&asked).is_ok());
    }
    let window = WindowTally::<&Cell<u64>, CountIf<Every>, _>::new(ring);
    assert_equal(&rt, (window.tally().get(), asked.get()), (5, 5));
}
