//! The kinds of items, each made of a number.

use std::alloc::AllocError;
use std::cell::Cell;

/// Makes items of numbers, and reads them.
pub trait Maker<T> {
    fn make(&self, number: u64) -> T;

    /// Reads all of an item.
    fn read(&self, item: &T) -> u64;

    /// Returns what grows with the number, of numbers up to 250.
    fn rank(&self, item: &T) -> u64 {
        self.read(item)
    }

    /// Returns how many items were made and not dropped, and the sum of their numbers, if it counts them.
    fn alive(&self) -> (u64, u64) {
        (0, 0)
    }
}

/// Makes items that are copied and compared.
#[derive(Drop)]
pub struct Values;

impl Maker<u64> for Values {
    fn make(&self, number: u64) -> u64 {
        number
    }

    fn read(&self, item: &u64) -> u64 {
        *item
    }
}

impl Maker<()> for Values {
    fn make(&self, _number: u64) -> () {}

    fn read(&self, _item: &()) -> u64 {
        1
    }
}

impl Maker<u8> for Values {
    fn make(&self, number: u64) -> u8 {
        (number % 256) as u8
    }

    fn read(&self, item: &u8) -> u64 {
        u64::from(*item)
    }
}

impl Maker<char> for Values {
    fn make(&self, number: u64) -> char {
        char::from_u32((number % 1000) as u32 * 120).unwrap_or('?')
    }

    fn read(&self, item: &char) -> u64 {
        u64::from(*item)
    }
}

/// An item of 320 bytes.
#[derive(Clone, Copy, Debug, PartialEq, Eq, PartialOrd, Ord, Hash, Drop)]
pub struct Wide {
    words: [u64; 40],
}

impl Default for Wide {
    fn default() -> Wide {
        Wide { words: [0; 40] }
    }
}

impl Maker<Wide> for Values {
    fn make(&self, number: u64) -> Wide {
        let mut words = [0; 40];
        for i in 0..40 {
            words[i] = number.wrapping_mul(i as u64);
        }
        Wide { words }
    }

    fn read(&self, item: &Wide) -> u64 {
        let mut read = 0u64;
        for word in &item.words {
            read = read.wrapping_mul(31).wrapping_add(*word);
        }
        read
    }

    fn rank(&self, item: &Wide) -> u64 {
        item.words[1]
    }
}

/// Makes items, and counts them until they are dropped.
#[derive(Drop)]
pub struct Tally {
    count: Cell<u64>,
    sum: Cell<u64>,
}

impl Tally {
    pub fn new() -> Tally {
        Tally {
            count: Cell::new(0),
            sum: Cell::new(0),
        }
    }

    fn add(&self, number: u64) {
        self.count.set(self.count.get().wrapping_add(1));
        self.sum.set(self.sum.get().wrapping_add(number));
    }

    fn remove(&self, number: u64) {
        self.count.set(self.count.get().wrapping_sub(1));
        self.sum.set(self.sum.get().wrapping_sub(number));
    }
}

/// An item that a tally counts.
pub struct Counted<'a> {
    number: u64,
    tally: &'a Tally,
}

impl<'a> Maker<Counted<'a>> for &'a Tally {
    fn make(&self, number: u64) -> Counted<'a> {
        self.add(number);
        Counted {
            number,
            tally: self,
        }
    }

    fn read(&self, item: &Counted<'a>) -> u64 {
        item.number
    }

    fn alive(&self) -> (u64, u64) {
        (self.count.get(), self.sum.get())
    }
}

impl<'a> Clone for Counted<'a> {
    fn clone(&self) -> Result<Counted<'a>, AllocError> {
        self.tally.add(self.number);
        Ok(Counted {
            number: self.number,
            tally: self.tally,
        })
    }
}

impl Drop for Counted<'_> {
    fn drop(self) {
        let Counted { number, tally } = self;
        tally.remove(number);
    }
}
