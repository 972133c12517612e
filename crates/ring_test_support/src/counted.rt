//! Items that count their drops, and whose clones can be refused.

use std::alloc::{AllocError, Global};
use std::cell::Cell;

/// Gives out items, clones among them, and numbers them in that order. It counts how often each is dropped.
#[derive(Drop)]
pub struct Supply {
    alloc: Global,
    drops: Vec<Cell<u8>>,
    most: Cell<usize>,
    given: Cell<usize>,
    last_dropped: Cell<usize>,
    in_order: Cell<bool>,
}

impl Supply {
    /// Makes a supply of `items` items.
    pub fn new(alloc: Global, items: usize) -> Result<Supply, AllocError> {
        let mut drops = Vec::new(alloc);
        for _ in 0..items {
            drops.push(Cell::new(0))?;
        }
        Ok(Supply {
            alloc,
            drops,
            most: Cell::new(items),
            given: Cell::new(0),
            last_dropped: Cell::new(0),
            in_order: Cell::new(true),
        })
    }

    /// Returns the allocator that its memory came from.
    pub fn alloc(&self) -> Global {
        self.alloc
    }

    /// Forgets the items that were given out, and has as many as at first.
    pub fn begin_again(&self) {
        self.begin_again_with(self.drops.len());
    }

    /// Forgets the items that were given out, and has `items` of them, at most as many as at first.
    pub fn begin_again_with(&self, items: usize) {
        for drops in &self.drops {
            drops.set(0);
        }
        self.most.set(items);
        self.given.set(0);
        self.last_dropped.set(0);
        self.in_order.set(true);
    }

    /// Returns the next item, if there is one.
    pub fn next(&self) -> Option<Counted<'_>> {
        let number = self.given.get();
        if number >= self.most.get() {
            return None;
        }
        self.given.set(number.saturating_add(1));
        Some(Counted {
            number,
            supply: self,
        })
    }

    /// Returns the next item, and one that isn't counted where there is none.
    pub fn more(&self) -> Counted<'_> {
        let number = self.given.get();
        self.given.set(number.saturating_add(1));
        Counted {
            number,
            supply: self,
        }
    }

    /// Returns how many items were given out, clones among them.
    pub fn given(&self) -> usize {
        self.given.get()
    }

    /// Returns how often the item `number` was dropped, if there was one.
    pub fn drops(&self, number: usize) -> Option<u8> {
        Some(self.drops.get(number)?.get())
    }

    /// Returns the first item that was given out and was dropped, if it is one of the first `kept`, or else was not
    /// dropped exactly once, with how often it was.
    pub fn first_fault(&self, kept: usize) -> Option<(usize, u8)> {
        for number in 0..self.given() {
            let wanted = if number < kept { 0 } else { 1 };
            let drops = self.drops(number).unwrap_or(u8::MAX);
            if drops != wanted {
                return Some((number, drops));
            }
        }
        None
    }

    /// Tells whether each item was dropped after those of lower numbers.
    pub fn is_in_order(&self) -> bool {
        self.in_order.get()
    }

    /// Counts a drop of the item `number`.
    fn note_drop(&self, number: usize) {
        if let Some(drops) = self.drops.get(number) {
            drops.set(drops.get().saturating_add(1));
        }
        if number < self.last_dropped.get() {
            self.in_order.set(false);
        }
        self.last_dropped.set(number);
    }
}

/// An item that knows its number, and counts its drop. Its clone is the next item of its supply, or is refused once where there
/// is none.
pub struct Counted<'a> {
    pub number: usize,
    supply: &'a Supply,
}

impl Drop for Counted<'_> {
    fn drop(self) {
        self.supply.note_drop(self.number);
        let Counted {
            number: _,
            supply: _,
        } = self;
    }
}

impl<'a> Clone for Counted<'a> {
    fn clone(&self) -> Result<Counted<'a>, AllocError> {
        match self.supply.next() {
            Some(item) => Ok(item),
            None => {
                // Who asks again is given one.
                self.supply.most.set(usize::MAX);
                Err(AllocError)
            }
        }
    }
}
