//! The bytes that items take.
ghost use Rattle.std.specs.Prelude.{◌≡◌, ◌-◌, ◌^◌, ◌↔◌, min, IsTrue};
ghost use Rattle.std.specs.Mem.{type_size};
ghost use Rattle.std.specs.Vec.Ownership.{FitsInBlock};

use std::mem::size_of;

/// Returns the size of an item in bytes, or the greatest word where it is larger.
pub fn item_size<T>() -> usize
    ensures { result ≡ min (type_size T.row) (2 ^ 64 - 1) }
{
    size_of::<T>()
}

/// Returns whether a block for `size` items can be asked for.
pub(crate) fn may_hold<T>(size: usize) -> bool
    ensures { IsTrue result ↔ FitsInBlock T.row size }
{
    match size.checked_mul(item_size::<T>()) {
        Some(bytes) => size <= isize::MAX as usize && bytes <= isize::MAX as usize,
        None => false,
    }
}
