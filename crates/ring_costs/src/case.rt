//! A case: which call, how often, and on how full a ring.

use crate::item::Item;
use ringbuffer::RingBuffer;
use std::alloc::{AllocError, Global};

#[derive(Clone, Copy)]
pub struct Case<'a> {
    pub call: &'a str,
    /// How many items a block has.
    pub count: usize,
    /// How many items the ring holds.
    pub held: usize,
    /// How many places on its first item lies.
    pub start: usize,
    pub times: u32,
}

impl<'a> Case<'a> {
    /// Returns the case that these words name.
    pub fn of(
        call: &'a str,
        count: &str,
        held: &str,
        start: &str,
        times: &str,
    ) -> Option<Case<'a>> {
        let (Ok(count), Ok(held)) = (count.parse::<u32>(), held.parse::<u32>()) else {
            return None;
        };
        let (Ok(start), Ok(times)) = (start.parse::<u32>(), times.parse::<u32>()) else {
            return None;
        };
        Some(Case {
            call,
            count: count as usize,
            held: held as usize,
            start: start as usize,
            times,
        })
    }

    /// Brings the first items to a ring.
    pub fn fill<T: Item, R: RingBuffer<T>>(self, ring: &mut R) {
        for number in 0..self.start {
            let _ = ring.push(T::numbered(number as u64));
            let _ = ring.dequeue();
        }
        for number in 0..self.held {
            let _ = ring.push(T::numbered(number as u64));
        }
    }

    /// Returns a block of items.
    pub fn block<T: Item>(self, alloc: Global) -> Result<Vec<T>, AllocError> {
        let mut items = Vec::with_capacity(alloc, self.count)?;
        for number in 0..self.count {
            items.push(T::numbered(number as u64))?;
        }
        Ok(items)
    }
}
