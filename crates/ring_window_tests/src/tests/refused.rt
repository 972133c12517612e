//! Pushes that are refused memory: the item comes back, and the window answers as before.

use super::assert_equal;
use ring_test_support::drought::Drought;
use ring_test_support::on_ring;
use ringbuffer::{GrowableAllocRingBuffer, RingBuffer};
use std::mem::size_of;
use std::process::Abort;
use window::{
    AllocWindowFloatSum, AllocWindowFold, AllocWindowMax, AllocWindowMin, AllocWindowSum,
    AllocWindowTime, Candidate, Gcd, GrowableAllocWindowFloatSum, GrowableAllocWindowFold,
    GrowableAllocWindowMin, GrowableAllocWindowSum, GrowableAllocWindowTime, Kept, Stamped,
    Summand, WindowFloatSum, WindowFold, WindowMin, WindowSum,
};

/// Makes a growable ring that has room for four items, or for some more.
fn roomy<T: Drop>(rt: &(impl Abort + AllocGlobal)) -> GrowableAllocRingBuffer<T> {
    GrowableAllocRingBuffer::with_capacity(rt.alloc(), 4).expect(rt, "memory")
}

/// Pushes two items onto a window, others as far as there is room, and one that is refused memory. It comes back, and is
/// pushed again once the two have left. The window holds the others, and answers what is said after each.
macro_rules! assert_refused {
    (
        $rt:expr, $new:expr, $held:ty, |$window:ident| $answer:expr,
        [$first:expr, $second:expr, $others:expr], $refused:expr,
        [$full:expr, $after_first:expr, $after_second:expr, $last:expr]
    ) => {
        let ring = roomy::<$held>($rt);
        let room = ring.capacity();
        let mut $window = $new(ring);
        let pushed = ($window.push($first), $window.push($second));
        assert_equal($rt, pushed, (Ok(None), Ok(None)));
        for _ in 2..room {
            assert_equal($rt, $window.push($others), Ok(None));
        }
        let drought = Drought::total($rt.alloc()).expect($rt, "memory");
        let refused = $window.push($refused);
        drop(drought);
        assert_equal($rt, refused, Err($refused));
        assert_equal($rt, ($window.len(), $answer), (room, $full));
        assert_equal($rt, ($window.dequeue(), $answer), (Some($first), $after_first));
        assert_equal($rt, ($window.dequeue(), $answer), (Some($second), $after_second));
        assert_equal($rt, ($window.push($refused), $answer), (Ok(None), $last));
    };
}

#[test]
fn windows_answer_as_before_a_refused_push(rt: HostRuntime) {
    let rt = &rt;
    assert_refused!(
        rt,
        WindowSum::new,
        i64,
        |w| w.sum(),
        [5, -7, 0],
        8,
        [-2, -7, 0, 8]
    );
    assert_refused!(
        rt,
        WindowFold::new,
        Kept<Gcd>,
        |window| window.fold(),
        [Gcd(12), Gcd(18), Gcd(20)],
        Gcd(7),
        [Gcd(2), Gcd(2), Gcd(20), Gcd(1)]
    );
    assert_refused!(
        rt,
        WindowFloatSum::new,
        Summand,
        |window| window.sum(),
        [0.5, -7.0, 0.0],
        8.0,
        [-6.5, -7.0, 0.0, 8.0]
    );
    assert_refused!(
        rt,
        WindowMin::new,
        Candidate<i64>,
        |window| window.min().copied(),
        [5, -7, 9],
        -8,
        [Some(-7), Some(-7), Some(9), Some(-8)]
    );
}

#[test]
fn sum_after_a_refused_first_push(rt: HostRuntime) {
    let mut window = WindowSum::new(GrowableAllocRingBuffer::new(rt.alloc()));
    let drought = Drought::total(rt.alloc()).expect(&rt, "memory");
    let refused = window.push(7);
    drop(drought);
    assert_equal(&rt, refused, Err(7));
    assert_equal(&rt, (window.sum(), window.len()), (0, 0));
}

#[test]
fn a_window_over_a_fixed_ring_takes_no_memory(rt: HostRuntime) {
    on_ring!(heap, &rt, 2, assert_sums_take_none);
}

/// A ring that is summed up while memory is refused.
trait SummedUp: RingBuffer<i64> + Drop {
    /// Slides a window over a full ring of two, in a drought.
    fn assert_sums_take_none(mut self, rt: &(impl Abort + AllocGlobal)) {
        assert!(rt; self.push(5).is_ok() && self.push(7).is_ok());
        let drought = Drought::total(rt.alloc()).expect(rt, "memory");
        let mut window = WindowSum::new(self);
        let first = (window.sum(), window.len(), window.forget_oldest());
        let pushed = (window.push(9), window.push(1));
        let last = (window.sum(), window.len());
        drop(drought);
        assert_equal(rt, first, (12, 2, Some(5)));
        assert_equal(rt, pushed, (Ok(None), Ok(Some(7))));
        assert_equal(rt, last, (10, 2));
    }
}

impl<R: RingBuffer<i64> + Drop> SummedUp for R {}

/// Makes a window on the heap of each capacity, while there is a block for its slots and no other, and no smaller one.
macro_rules! assert_made_of_one_block {
    ($rt:expr, $held:ty, |$capacity:ident| $made:expr) => {
        for $capacity in [1usize, 7, (1 << 20) + 1] {
            let slots = $capacity.next_power_of_two();
            for spare in [slots.saturating_mul(size_of::<$held>()), 0] {
                assert!($rt; 0 < $capacity);
                let drought = Drought::but_for($rt.alloc(), spare).expect($rt, "memory");
                let is_made = $made.is_ok();
                drop(drought);
                assert_equal($rt, ($capacity, spare, is_made), ($capacity, spare, spare > 0));
            }
        }
    };
}

#[test]
fn windows_on_the_heap_take_one_block(rt: HostRuntime) {
    let (rt, alloc) = (&rt, rt.alloc());
    let _most = Drought::of_most(alloc).expect(rt, "memory");
    assert_made_of_one_block!(rt, Candidate<i64>, |n| AllocWindowMin::<i64>::on_heap(alloc, n));
    assert_made_of_one_block!(rt, Candidate<i64>, |n| AllocWindowMax::<i64>::on_heap(alloc, n));
    assert_made_of_one_block!(rt, Kept<Gcd>, |n| AllocWindowFold::<Gcd>::on_heap(alloc, n));
    assert_made_of_one_block!(rt, i64, |n| AllocWindowSum::on_heap(alloc, n));
    assert_made_of_one_block!(rt, Summand, |n| AllocWindowFloatSum::on_heap(alloc, n));
    for span in [0, 3] {
        assert_made_of_one_block!(rt, Stamped<u32>, |n| AllocWindowTime::<u32>::on_heap(alloc, n, span));
    }
}

#[test]
fn growable_windows_are_made_of_nothing(rt: HostRuntime) {
    let alloc = rt.alloc();
    let least = GrowableAllocWindowMin::<i64>::growable(alloc);
    let product = GrowableAllocWindowFold::<Gcd>::growable(alloc);
    let sum = GrowableAllocWindowSum::growable(alloc);
    let float_sum = GrowableAllocWindowFloatSum::growable(alloc);
    let timed = GrowableAllocWindowTime::<u32>::growable(alloc, 0);
    assert_equal(&rt, least.ring().capacity(), 0);
    assert_equal(&rt, product.ring().capacity(), 0);
    assert_equal(&rt, sum.ring().capacity(), 0);
    assert_equal(&rt, float_sum.ring().capacity(), 0);
    assert_equal(&rt, timed.ring().capacity(), 0);
}
