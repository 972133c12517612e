//! Items of one, eight, 16 and 64 bytes.

use std::hash::Hash;

/// An item that is made of a number, and has one.
pub trait Item: Copy + Clone + Ord + Hash + Drop {
    fn numbered(number: u64) -> Self;

    fn number(&self) -> u64;
}

impl Item for u8 {
    #[inline]
    fn numbered(number: u64) -> u8 {
        (number & 255) as u8
    }

    #[inline]
    fn number(&self) -> u64 {
        u64::from(*self)
    }
}

impl Item for u64 {
    #[inline]
    fn numbered(number: u64) -> u64 {
        number
    }

    #[inline]
    fn number(&self) -> u64 {
        *self
    }
}

impl Item for [u64; 8] {
    #[inline]
    fn numbered(number: u64) -> [u64; 8] {
        [number; 8]
    }

    #[inline]
    fn number(&self) -> u64 {
        self[7]
    }
}

impl Item for [u64; 2] {
    #[inline]
    fn numbered(number: u64) -> [u64; 2] {
        [number; 2]
    }

    #[inline]
    fn number(&self) -> u64 {
        self[1]
    }
}
