//! Sums over each type of ring.

use super::assert_equal;
use ring_test_support::{on_each, on_fixed, on_ring};
use ringbuffer::RingBuffer;
use std::process::Abort;
use window::WindowSum;

/// A call of a window, and what it answers.
#[derive(Clone, Copy, Debug, Drop, PartialEq)]
enum Slide {
    /// A push, and the sample that falls out for it.
    Push(i64, Option<i64>),
    ForgetOldest(Option<i64>),
    Sum(i128),
    Len(usize),
}

/// Does the call. Returns it with what the window answered.
fn answered<R: RingBuffer<i64>>(rt: &impl Abort, window: &mut WindowSum<R>, slide: Slide) -> Slide {
    match slide {
        Slide::Push(sample, _) => {
            Slide::Push(sample, window.push(sample).expect(rt, "room for a sample"))
        }
        Slide::ForgetOldest(_) => Slide::ForgetOldest(window.forget_oldest()),
        Slide::Sum(_) => Slide::Sum(window.sum()),
        Slide::Len(_) => Slide::Len(window.len()),
    }
}

const OF_THREE: &[Slide] = &[
    Slide::Push(5, None),
    Slide::Push(7, None),
    Slide::Push(9, None),
    Slide::Sum(21),
    Slide::Push(1, Some(5)),
    Slide::Sum(17),
    Slide::ForgetOldest(Some(7)),
    Slide::Sum(10),
    Slide::Len(2),
];

/// Samples whose sum is past an i64.
const LARGE: &[Slide] = &[
    Slide::Push(9223372036854775807, None),
    Slide::Push(9223372036854775807, None),
    Slide::Sum(18446744073709551614),
    Slide::Push(-9223372036854775808, Some(9223372036854775807)),
    Slide::Sum(-1),
];

const OVER_A_FULL_RING: &[Slide] = &[Slide::Sum(17), Slide::Push(1, Some(8)), Slide::Sum(10)];

const WITHOUT_A_LIMIT: &[Slide] = &[
    Slide::Sum(6),
    Slide::Push(4, None),
    Slide::Sum(10),
    Slide::Len(4),
];

const OF_NOTHING: &[Slide] = &[Slide::Sum(0), Slide::ForgetOldest(None), Slide::Sum(0)];

#[test]
fn a_window_sums_what_its_ring_holds(rt: HostRuntime) {
    on_ring!(heap, &rt, 3, assert_slides, &[], OF_THREE);
    on_fixed!(&rt, 2, assert_slides, &[], LARGE);
    on_fixed!(&rt, 2, assert_slides, &[8, 9], OVER_A_FULL_RING);
    on_ring!(growable, &rt, 2, assert_slides, &[1, 2, 3], WITHOUT_A_LIMIT);
    on_each!(&rt, 2, assert_slides, &[], OF_NOTHING);
}

/// A ring that a window slides over.
trait Slid: RingBuffer<i64> + Drop {
    /// Asserts what the calls of a window over a ring that holds these samples answer.
    fn assert_slides(mut self, rt: &impl Abort, held: &[i64], slides: &[Slide]) {
        for sample in held {
            assert!(rt; self.push(*sample).is_ok());
        }
        let mut window = WindowSum::new(self);
        for (i, slide) in slides.iter().enumerate() {
            let found = answered(rt, &mut window, *slide);
            assert_equal(rt, (i, found), (i, *slide));
        }
    }
}

impl<R: RingBuffer<i64> + Drop> Slid for R {}
