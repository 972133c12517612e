//! Rings of bytes as readers and writers.

use super::assert_equal;
use ring_test_support::{on_fixed, on_ring};
use ringbuffer::{GrowableAllocRingBuffer, RingBuffer};
use std::io::{self, BufRead, Read, Write};
use std::process::Abort;

#[test]
fn bytes_go_through_each_ring(rt: HostRuntime) {
    on_ring!(heap, &rt, 8, assert_lends_all);
    on_ring!(copies, &rt, 8, assert_lends_all);
    on_ring!(growable, &rt, 8, assert_lends_all);
    on_fixed!(&rt, 8, assert_copies);
}

/// A ring of bytes that is written to and read from.
trait OfBytes: BufRead + Read + Write + RingBuffer<u8> + Drop {
    /// Lends all bytes up to the last slot.
    fn assert_lends_all(mut self, rt: &impl Abort) {
        assert_equal(rt, self.write(b"abcdef").ok(), Some(6));
        self.consume(1);
        assert_equal(rt, self.fill_buf().ok(), Some(b"bcdef".as_slice()));
    }

    /// Copies what a growable ring holds into a ring of eight bytes, which is too small for all of it.
    fn assert_copies(mut self, rt: &(impl Abort + AllocGlobal)) {
        let mut from = GrowableAllocRingBuffer::new(rt.alloc());
        assert_equal(rt, from.write_all(b"hello").is_ok(), true);
        assert_equal(rt, io::copy(&mut from, &mut self).ok(), Some(5));
        assert_equal(rt, from.write_all(b", ring").is_ok(), true);
        assert_equal(rt, io::copy(&mut from, &mut self).is_err(), true);
        let mut output = [0; 9];
        assert_equal(rt, self.read(&mut output).ok(), Some(8));
        assert_equal(rt, output, *b"hello, r\0");
    }
}

impl<R: BufRead + Read + Write + RingBuffer<u8> + Drop> OfBytes for R {}
