//! Filling a growable ring.
ghost use Rattle.std.specs.Prelude.{◌≡◌, [], All};

use super::GrowableAllocRingBuffer;
use std::alloc::AllocError;

/// Fills the room of an empty vector with clones.
pub(super) fn clones<T: Clone + Drop>(items: Vec<T>, value: T) -> (Vec<T>, Result<(), AllocError>)
    requires { items.items ≡ [] }
    ensures { All (T.is_clone value) result.0.items }
{
    let mut items = items;
    for _ in 0..items.capacity() {
        // For the proof: there is room for one more. The loop's bound is this test's too.
        if items.len() == items.capacity() {
            break;
        }
        match value.clone() {
            Ok(item) => items.push_reserved(item),
            Err(error) => return (items, Err(error)),
        }
    }
    (items, Ok(()))
}
