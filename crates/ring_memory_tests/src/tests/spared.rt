//! Calls that need one block of memory, where there is one of that size and no other.

use super::{assert_equal, assert_numbers, drought};
use ring_test_support::drought::Drought;
use ring_test_support::numbered::block;
use ringbuffer::{
    AllocRingBuffer, ConstGenericRingBuffer, CopyRingBuffer, DoubleEndedRing, DoubleEndedRingExt,
    GrowableAllocRingBuffer, RingBuffer, RingBufferExt,
};
use std::alloc::AllocError;
use std::process::Abort;

/// How many numbers a ring holds. The C library hands out blocks of so many bytes as they are, and smaller ones from larger ones.
const COUNT: usize = 5_000_000;

/// The bytes of their block in a vector, and in a growable ring.
const EXACT: usize = 8 * COUNT;

/// The bytes of their block in a heap ring, whose slots are a power of two.
const IN_SLOTS: usize = 8 << 23;

/// Makes a call while there is one block of memory, and returns what it returned.
macro_rules! sparing {
    ($rt:expr, $bytes:expr, $call:expr) => {{
        let drought = drought($rt, $bytes);
        let made = $call;
        drop(drought);
        made.expect($rt, "one block")
    }};
}

#[test]
fn heap_rings_ask_for_one_block(rt: HostRuntime) -> Result<(), AllocError> {
    let _most = Drought::of_most(rt.alloc())?;
    let items = block::<u64>(rt.alloc(), 0, COUNT)?;
    assert!(&rt; items.len() == COUNT);
    let ring = sparing!(
        &rt,
        IN_SLOTS,
        AllocRingBuffer::from_slice(rt.alloc(), &items)
    );
    assert_numbers(&rt, &ring, 0, COUNT);
    let mut twin = sparing!(&rt, IN_SLOTS, ring.clone());
    assert_numbers(&rt, &twin, 0, COUNT);
    sparing!(&rt, IN_SLOTS, twin.set_capacity(COUNT + 1));
    assert_numbers(&rt, &twin, 0, COUNT);
    sparing!(&rt, 0, twin.set_capacity(COUNT + 1));
    assert_numbers(&rt, &twin, 0, COUNT);
    let made = sparing!(&rt, IN_SLOTS, AllocRingBuffer::from_vec(rt.alloc(), items));
    assert_equal(&rt, made == ring, true);
    Ok(())
}

#[test]
fn growable_rings_ask_for_one_block(rt: HostRuntime) -> Result<(), AllocError> {
    let _most = Drought::of_most(rt.alloc())?;
    let items = block::<u64>(rt.alloc(), 0, COUNT)?;
    let ring = sparing!(
        &rt,
        EXACT,
        GrowableAllocRingBuffer::from_slice(rt.alloc(), &items)
    );
    assert_numbers(&rt, &ring, 0, COUNT);
    let twin = sparing!(&rt, EXACT, ring.clone());
    assert_numbers(&rt, &twin, 0, COUNT);
    for call in 0..4 {
        let mut other = GrowableAllocRingBuffer::<u64>::new(rt.alloc());
        sparing!(
            &rt,
            EXACT,
            match call {
                0 => other.extend_from_slice(&items),
                1 => other.extend(items.iter().copied()),
                2 => DoubleEndedRing::clone_into(&ring, &mut other),
                _ => ring.copy_into(&mut other),
            }
        );
        assert_numbers(&rt, &other, 0, COUNT);
    }
    Ok(())
}

#[test]
fn vectors_of_rings_are_one_block(rt: HostRuntime) -> Result<(), AllocError> {
    let _most = Drought::of_most(rt.alloc())?;
    let items = block::<u64>(rt.alloc(), 0, COUNT)?;
    let mut heap = AllocRingBuffer::new(rt.alloc(), COUNT)?;
    heap.extend_from_slice(items.as_slice());
    let cloned = sparing!(&rt, EXACT, heap.to_vec(rt.alloc()));
    let copied = sparing!(&rt, EXACT, heap.to_vec_copied(rt.alloc()));
    assert_equal(&rt, cloned == items && copied == items, true);
    let growable = GrowableAllocRingBuffer::from_slice(rt.alloc(), items.as_slice())?;
    let cloned = sparing!(&rt, EXACT, growable.to_vec(rt.alloc()));
    let copied = sparing!(&rt, EXACT, growable.to_vec_copied(rt.alloc()));
    assert_equal(&rt, cloned == items && copied == items, true);
    Ok(())
}

#[test]
fn items_that_go_round_are_taken_in_one_block(rt: HostRuntime) -> Result<(), AllocError> {
    let _most = Drought::of_most(rt.alloc())?;
    for count in [1, 5, 70_000] {
        AllocRingBuffer::new(rt.alloc(), count)?.assert_taken(&rt, count);
        GrowableAllocRingBuffer::with_capacity(rt.alloc(), count)?.assert_taken(&rt, count);
    }
    ConstGenericRingBuffer::<u64, 1>::new().assert_taken(&rt, 1);
    ConstGenericRingBuffer::<u64, 5>::new().assert_taken(&rt, 5);
    CopyRingBuffer::<u64, 5>::new(0).assert_taken(&rt, 5);
    let array = ConstGenericRingBuffer::<u64, 5>::from_iter(0..7);
    let copied = sparing!(&rt, 40, array.to_vec_copied(rt.alloc()));
    assert_equal(&rt, copied.len(), 5);
    let mut heap = AllocRingBuffer::new(rt.alloc(), 70_000)?;
    heap.extend_from_slice(block(rt.alloc(), 0, 70_000)?.as_slice());
    heap.extend_from_slice(block(rt.alloc(), 70_000, 62_000)?.as_slice());
    assert_equal(&rt, heap.as_slices().1.len(), 928);
    let copied = sparing!(&rt, 8 * 70_000, heap.to_vec_copied(rt.alloc()));
    assert_equal(&rt, copied.first().copied(), Some(62_000));
    sparing!(&rt, 8 << 16, heap.set_capacity(60_000));
    assert_numbers(&rt, &heap, 72_000, 60_000);
    Ok(())
}

/// Returns how many bytes so many numbers take.
fn bytes_of(count: usize) -> usize {
    count.saturating_mul(8)
}

/// A ring whose items are taken out, with as much memory as these need.
trait Taken: DoubleEndedRing<u64> + Drop {
    /// Fills a ring of a capacity, so that its items go round its slots: the first lies in the last of them.
    fn fill_round(&mut self, rt: &impl Abort, count: usize) {
        self.clear();
        let pushes = count.saturating_add(self.buffer_size()).saturating_sub(1);
        for number in 0..pushes {
            if self.len() == count {
                self.skip();
            }
            assert!(rt; self.push(number as u64).is_ok());
        }
    }

    /// Takes out items of a full ring: all, from either end, a few from each, and the others.
    fn assert_taken(mut self, rt: &(impl Abort + AllocGlobal), count: usize) {
        let (alloc, few) = (rt.alloc(), count.min(3));
        self.fill_round(rt, count);
        let listed = sparing!(rt, bytes_of(count), self.to_vec(alloc));
        let all = sparing!(rt, bytes_of(count), self.take_all(alloc));
        assert!(rt; listed == all && self.is_empty());
        self.fill_round(rt, count);
        let all_back = sparing!(rt, bytes_of(count), self.split_off(0, alloc));
        assert!(rt; all_back == all && self.is_empty());
        self.fill_round(rt, count);
        let first = sparing!(rt, bytes_of(few), self.drain_range(..few, alloc));
        let (front, rest) = all.split_at(few.min(all.len()));
        assert!(rt; first.as_slice() == front);
        let few = few.min(rest.len());
        let (middle, back) = rest.split_at(rest.len().saturating_sub(few));
        assert!(rt; middle.len() <= self.len());
        let last = sparing!(rt, bytes_of(few), self.split_off(middle.len(), alloc));
        assert!(rt; last.as_slice() == back);
        let others = sparing!(rt, bytes_of(middle.len()), self.take_all(alloc));
        assert!(rt; others.as_slice() == middle);
    }
}

impl<R: DoubleEndedRing<u64> + Drop> Taken for R {}
