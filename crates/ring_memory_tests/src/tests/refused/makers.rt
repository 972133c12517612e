//! Makers that are refused memory, and those that need none.

use crate::tests::{assert_equal, drought};
use ring_test_support::drought::Drought;
use ringbuffer::{AllocRingBuffer, ConstGenericRingBuffer, GrowableAllocRingBuffer, RingBuffer};
use std::alloc::AllocError;
use std::process::Abort;

#[test]
fn texts_and_empty_rings_need_no_memory(rt: HostRuntime) {
    let string = String::from_str(rt.alloc(), "ab").expect(&rt, "memory");
    let drought = drought(&rt, 0);
    let of_text = ConstGenericRingBuffer::<char, 2>::from_text("ab");
    let of_string = ConstGenericRingBuffer::<char, 2>::from_string(string);
    let array = ConstGenericRingBuffer::<i64, 2>::default();
    let growable = GrowableAllocRingBuffer::<i64>::default(rt.alloc());
    let clone = growable.clone();
    drop(drought);
    assert!(rt; clone.is_ok_and(|clone| clone.is_empty()));
    assert_equal(&rt, (of_text.len(), of_text == of_string), (2, true));
    assert_equal(&rt, (array.is_empty(), growable.is_empty()), (true, true));
    // Where there is memory they take none either.
    let growable = GrowableAllocRingBuffer::<i64>::default(rt.alloc());
    let clone = growable.clone().expect(&rt, "a clone of nothing");
    assert_equal(&rt, (growable.capacity(), clone.capacity()), (0, 0));
}

/// What makes an empty ring.
#[derive(Clone, Copy, Debug, Drop, PartialEq)]
enum Maker {
    New,
    WithCapacity,
    WithCapacityPowerOf2,
    Growable,
}

/// Returns the capacity of a ring, if it was made. It is empty.
fn capacity_of<R: RingBuffer<i64> + Drop>(
    rt: &impl Abort,
    made: Result<R, AllocError>,
) -> Option<usize> {
    match made {
        Ok(ring) => {
            assert!(rt; ring.is_empty());
            Some(ring.capacity())
        }
        Err(_) => None,
    }
}

/// Makes a ring of a capacity, or of the least power of two from there on, in a drought that spares `spare` bytes. Returns its
/// capacity, if it was made.
fn made_by(
    rt: &(impl Abort + AllocGlobal),
    maker: Maker,
    capacity: usize,
    spare: usize,
) -> Option<usize> {
    let alloc = rt.alloc();
    assert!(rt; 0 < capacity && capacity < 1 << 40);
    let exponent = (usize::BITS - (capacity - 1).leading_zeros()) as usize;
    assert!(rt; exponent < 64);
    let _drought = drought(rt, spare);
    let made = match maker {
        Maker::New => AllocRingBuffer::new(alloc, capacity),
        Maker::WithCapacity => AllocRingBuffer::with_capacity(alloc, capacity),
        Maker::WithCapacityPowerOf2 => AllocRingBuffer::with_capacity_power_of_2(alloc, exponent),
        Maker::Growable => {
            return capacity_of(rt, GrowableAllocRingBuffer::with_capacity(alloc, capacity));
        }
    };
    capacity_of(rt, made)
}

/// Makers, capacities, the numbers of slots, and the capacities that rings then have.
const MADE: &[(Maker, usize, usize, usize)] = &[
    (Maker::New, 1, 1, 1),
    (Maker::New, 7, 8, 7),
    (Maker::New, (1 << 20) + 1, 1 << 21, (1 << 20) + 1),
    (Maker::WithCapacity, 1, 1, 1),
    (Maker::WithCapacity, 7, 8, 7),
    (Maker::WithCapacity, (1 << 20) + 1, 1 << 21, (1 << 20) + 1),
    (Maker::WithCapacityPowerOf2, 1, 1, 1),
    (Maker::WithCapacityPowerOf2, 7, 8, 8),
    (Maker::WithCapacityPowerOf2, 1 << 21, 1 << 21, 1 << 21),
    (Maker::Growable, 1, 1, 1),
    (Maker::Growable, 7, 7, 7),
    (Maker::Growable, (1 << 20) + 1, (1 << 20) + 1, (1 << 20) + 1),
];

// There is a block for the slots, of 8 bytes each, and no other.
#[test]
fn a_maker_takes_one_block_or_is_refused(rt: HostRuntime) {
    let _most = Drought::of_most(rt.alloc()).expect(&rt, "memory");
    for (maker, capacity, slots, wanted) in MADE {
        let made = made_by(&rt, *maker, *capacity, slots.saturating_mul(8));
        assert_equal(&rt, (*maker, made), (*maker, Some(*wanted)));
        let refused = made_by(&rt, *maker, *capacity, 0);
        assert_equal(&rt, (*maker, refused), (*maker, None));
    }
}
