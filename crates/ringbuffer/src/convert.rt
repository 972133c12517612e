//! Pushing clones, or the items of an array, onto a ring of any type.

ghost use Rattle.std.specs.Prelude.{◌≡◌, [], ◌∷◌, ◌++◌, IsOk, IsSome, List, OnErr, OnOk, Some, length, map};
ghost use Rattle.std.specs.Borrow.{Bor};
ghost use Rattle.std.specs.Iterator.{Drains, IsFinite, YieldsThen};
ghost use Rattle.std.specs.List.{AllZip};
ghost use Rattle.ring_core.specs.Contents.{keep_last};
ghost use Rattle.ringbuffer.specs.Somes.{somes};

use ring_core::RingBuffer;
use std::alloc::AllocError;

/// Pushes an item, and drops the one that it overwrites. An item that is refused is dropped too.
fn push_item<T: Drop, R: RingBuffer<T>>(ring: &mut R, item: T) -> Result<(), AllocError>
    ensures contents { OnOk result (R.contents ring.new
        ≡ keep_last (R.limit ring.old) (R.contents ring.old ++ item ∷ [])) }
    ensures limit { R.limit ring.new ≡ R.limit ring.old }
    ensures succeeds { IsSome (R.limit ring.old) → IsOk result }
{
    match ring.push(item) {
        Ok(_) => Ok(()),
        Err(_) => Err(AllocError),
    }
}

/// Pushes a clone of each item of a source that ends, in order.
///
/// # Errors
///
/// Where a clone was refused or, on a ring without a limit, memory was. The clones pushed until then stay.
pub fn extend_cloned<'a, T: Clone + Drop + 'a, I: Iterator<Item = &'a T>, R: RingBuffer<T>>(
    ring: &mut R,
    items: I,
) -> Result<(), AllocError>
    requires can { I.can_next items }
    requires ends { IsFinite (I.remaining items) }
    ensures items { OnOk result ((xs : List (Bor T)) × (ys : List T) × Drains I.next_gives items xs
        × AllZip T.is_clone (map (λ x. x.now) xs) ys
        × (R.contents ring.new ≡ keep_last (R.limit ring.old) (R.contents ring.old ++ ys))) }
    ensures limit { R.limit ring.new ≡ R.limit ring.old }
    ensures refused { IsSome (R.limit ring.old)
        → OnErr result ((xs : List (Bor T)) × (x : Bor T) × (after : I)
        × YieldsThen I.next_gives items xs (Some x) after × ¬ (T.is_infallible x.now)) }
{
    // For the proof: the contents are within the limit.
    let _ = ring.len();
    for item in items {
        let Ok(clone) = item.clone() else {
            return Err(AllocError);
        };
        push_item(ring, clone)?;
    }
    Ok(())
}

/// Moves the items of an array out of their places, which all hold one, and pushes them in order.
///
/// # Errors
///
/// Where memory was refused, which no ring with a limit meets. The items pushed until then stay.
pub fn extend_somes<T: Drop, R: RingBuffer<T>, const N: usize>(
    ring: &mut R,
    items: [Option<T>; N],
) -> Result<(), AllocError>
    ensures items { OnOk result (R.contents ring.new
        ≡ keep_last (R.limit ring.old) (R.contents ring.old ++ somes items)) }
    ensures limit { R.limit ring.new ≡ R.limit ring.old }
    ensures places { length items ≡ N }
    ensures succeeds { IsSome (R.limit ring.old) → IsOk result }
    ensures empty_succeeds { N ≡ 0 → IsOk result }
{
    // For the proof: the contents are within the limit.
    let _ = ring.len();
    let mut items = items;
    for i in 0..N {
        if let Some(item) = items[i].take() {
            push_item(ring, item)?;
        }
    }
    Ok(())
}
