//! Items by their numbers, and blocks of them.

use std::alloc::{AllocError, Global};
use std::fmt::Debug;

/// An item by its number.
pub trait Numbered: Copy + Clone + PartialEq + Debug + Drop {
    /// Returns the item with this number.
    fn numbered(number: usize) -> Self;
}

impl Numbered for u8 {
    // A prime, so that bytes that lie in another's place are seen.
    fn numbered(number: usize) -> u8 {
        (number % 251) as u8
    }
}

impl Numbered for u64 {
    fn numbered(number: usize) -> u64 {
        number as u64
    }
}

/// All alike, and no bytes.
impl Numbered for () {
    fn numbered(_number: usize) {}
}

impl Numbered for [u8; 17] {
    fn numbered(number: usize) -> [u8; 17] {
        [(number % 251) as u8; 17]
    }
}

impl Numbered for [u64; 2] {
    fn numbered(number: usize) -> [u64; 2] {
        [number as u64; 2]
    }
}

/// Returns the items with the numbers from `first` on.
pub fn block<T: Numbered>(alloc: Global, first: usize, count: usize) -> Result<Vec<T>, AllocError> {
    let mut items = Vec::with_capacity(alloc, count)?;
    for i in 0..count {
        items.push(T::numbered(first.saturating_add(i)))?;
    }
    Ok(items)
}
