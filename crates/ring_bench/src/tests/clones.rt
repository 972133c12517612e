//! Clones of a slice's items pushed onto a ring, and of a ring's items put into a slice, through the trait alone.

use super::{assert_equal, assert_holds};
use ring_test_support::on_each;
use ringbuffer::RingBuffer;
use std::process::Abort;

#[test]
fn slices_go_onto_any_ring_and_come_out(rt: HostRuntime) {
    on_each!(&rt, 4, assert_takes_and_gives);
}

/// A ring that slices are cloned onto.
trait ClonedTo: RingBuffer<i64> + Drop {
    fn is_extended(&mut self, items: &[i64]) -> bool {
        RingBuffer::extend_from_slice(self, items).is_ok()
    }

    /// Asserts that slices go onto a ring with room for four items as pushes would, and come out of it.
    fn assert_takes_and_gives(mut self, rt: &impl Abort) {
        assert!(rt; self.is_extended(&[]) && self.is_extended(&[1, 2, 3]));
        assert_holds(rt, &self, &[1, 2, 3]);
        let mut two = [9, 9];
        assert_equal(rt, RingBuffer::copy_to_slice(&self, &mut two), Ok(2));
        assert_equal(rt, two, [1, 2]);
        let _ = self.dequeue();
        assert!(rt; self.is_extended(&[4, 5]));
        assert_holds(rt, &self, &[2, 3, 4, 5]);
        let mut six = [9, 9, 9, 9, 9, 9];
        assert_equal(rt, RingBuffer::copy_to_slice(&self, &mut six), Ok(4));
        assert_equal(rt, six, [2, 3, 4, 5, 9, 9]);
    }
}

impl<R: RingBuffer<i64> + Drop> ClonedTo for R {}
