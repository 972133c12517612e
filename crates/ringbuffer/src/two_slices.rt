//! Lists that lie in two slices: copied, cloned and compared.
ghost use Rattle.std.specs.Prelude.{◌≡◌, ◌+◌, ◌++◌, IfOk, IsOk, drop, length, min, take};
ghost use Rattle.std.specs.Cmp.Lexicographic.{pointwise};
ghost use Rattle.std.specs.List.{AllZip, list_any};
ghost use Rattle.ring_core.specs.Extension.{ClonesOut};

use ring_slots::item_size;
use std::alloc::{AllocError, Global};
use std::vec::{Vec, VecCloneMethods};

/// Smaller items than a word of as many bytes std compares by vector code.
const WORD: usize = 8;

/// Copies the items of two slices, in order, to the first places of a third, as many as it has. Returns how many.
pub fn copy_slices<T: Copy>(items: (&[T], &[T]), output: &mut [T]) -> usize
    ensures count { result
        ≡ min (length output.old) (length items.entry.0.now + length items.entry.1.now) }
    ensures copied { output.new
        ≡ take result (items.entry.0.now ++ items.entry.1.now) ++ drop result output.old }
{
    let (first, second) = items;
    let before = first.len().min(output.len());
    let (front, back) = output.split_at_mut(before);
    front.copy_from_slice(&first[..before]);
    before + copy_slice(second, back)
}

/// Copies the items of a slice to the first places of another, as many as it has. Returns how many.
fn copy_slice<T: Copy>(items: &[T], output: &mut [T]) -> usize
    ensures count { result ≡ min (length output.old) (length items.now) }
    ensures copied { output.new ≡ take result items.now ++ drop result output.old }
{
    let count = items.len().min(output.len());
    // The second of two slices is often empty, and to copy nothing takes as long as to copy a few items.
    if count > 0 {
        output[..count].copy_from_slice(&items[..count]);
    }
    count
}

/// Returns copies of the items of two slices, in order.
///
/// # Errors
///
/// Where memory was refused.
pub fn slices_to_vec<T: Copy + Drop>(
    items: (&[T], &[T]),
    alloc: Global,
) -> Result<Vec<T>, AllocError>
    ensures { IfOk result (λ v. v.items ≡ items.entry.0.now ++ items.entry.1.now) }
{
    let (first, second) = items;
    let mut copies = Vec::with_capacity(alloc, first.len().saturating_add(second.len()))?;
    copies.extend_from_slice(first)?;
    copies.extend_from_slice(second)?;
    Ok(copies)
}

/// Returns clones of the items of two slices, in order.
///
/// # Errors
///
/// Where a clone or memory was refused.
pub fn clone_slices<T: Clone + Drop>(
    items: (&[T], &[T]),
    alloc: Global,
) -> Result<Vec<T>, AllocError>
    ensures { IfOk result
        (λ v. AllZip T.is_clone (items.entry.0.now ++ items.entry.1.now) v.items) }
{
    let (first, second) = items;
    let mut clones = Vec::with_capacity(alloc, first.len().saturating_add(second.len()))?;
    VecCloneMethods::extend_from_slice(&mut clones, first)?;
    VecCloneMethods::extend_from_slice(&mut clones, second)?;
    Ok(clones)
}

/// Puts clones of the items of two slices, in order, into the first places of a third, as many as it has. Returns how many.
///
/// # Errors
///
/// Where a clone was refused. The places of the clones before it are written then.
pub fn clone_slices_into<T: Clone + Drop>(
    items: (&[T], &[T]),
    output: &mut [T],
) -> Result<usize, AllocError>
    ensures clones { ClonesOut T.is_clone (items.entry.0.now ++ items.entry.1.now) output.old output.new result }
    ensures count { IfOk result
        (λ n. n ≡ min (length output.old) (length items.entry.0.now + length items.entry.1.now)) }
    ensures succeeds { ((x : T) → T.is_infallible x) → IsOk result }
{
    let (first, second) = items;
    let before = first.len().min(output.len());
    let (front, back) = output.split_at_mut(before);
    clone_slice_into(&first[..before], front)?;
    Ok(before + clone_slice_into(second, back)?)
}

/// Puts clones of the items of a slice into the first places of another, as many as it has. Returns how many.
fn clone_slice_into<T: Clone + Drop>(items: &[T], output: &mut [T]) -> Result<usize, AllocError>
    ensures clones { ClonesOut T.is_clone items.now output.old output.new result }
    ensures count { IfOk result (λ n. n ≡ min (length output.old) (length items.now)) }
    ensures succeeds { ((x : T) → T.is_infallible x) → IsOk result }
{
    let count = items.len().min(output.len());
    for i in 0..count {
        output[i] = items[i].clone()?;
    }
    Ok(count)
}

/// Returns whether the items of two slices and the items of two others are equal, place by place.
pub fn same_in_slices<T: PartialEq>(a: (&[T], &[T]), b: (&[T], &[T])) -> bool
    requires { length a.0.now + length a.1.now ≡ length b.0.now + length b.1.now }
    ensures { result ≡ pointwise T.eq (a.entry.0.now ++ a.entry.1.now)
        (b.entry.0.now ++ b.entry.1.now) }
{
    let in_both = a.0.len().min(b.0.len());
    let (a_first, a_middle) = a.0.split_at(in_both);
    let (b_first, b_middle) = b.0.split_at(in_both);
    // One of the two middles is empty at least. The other lies beside the beginning of a second slice.
    let (a_beside, a_last) = a.1.split_at(b_middle.len());
    let (b_beside, b_last) = b.1.split_at(a_middle.len());
    same_items(a_first, b_first)
        && same_items(a_middle, b_beside)
        && same_items(a_beside, b_middle)
        && same_items(a_last, b_last)
}

/// Returns whether the items of two slices equal those of a third, place by place.
pub fn equal_to_slice<T: PartialEq>(items: (&[T], &[T]), others: &[T]) -> bool
    requires { length items.0.now + length items.1.now ≡ length others.now }
    ensures { result ≡ pointwise T.eq (items.entry.0.now ++ items.entry.1.now) others.now }
{
    let (first, second) = items;
    let (front, back) = others.split_at(first.len());
    same_items(first, front) && same_items(second, back)
}

/// Returns whether two slices are equal, item by item. Of words four pairs go by a turn, since the count of them costs steps a
/// turn; std compares smaller items by vector code.
fn same_items<T: PartialEq>(a: &[T], b: &[T]) -> bool
    ensures { result ≡ pointwise T.eq a.now b.now }
{
    if item_size::<T>() < WORD || a.len() != b.len() {
        return a == b;
    }
    for turn in 0..a.len() / 4 {
        let k = 4 * turn;
        let same = a[k..k + 4] == b[k..k + 4];
        if !same {
            return false;
        }
    }
    let rest = a.len() / 4 * 4;
    a[rest..] == b[rest..]
}

/// Returns whether an item of two slices equals `x`.
pub fn is_in_slices<T: PartialEq>(items: (&[T], &[T]), x: &T) -> bool
    ensures { result ≡ list_any (λ y. T.eq y x.now) (items.entry.0.now ++ items.entry.1.now) }
{
    is_in_slice(items.0, x) || is_in_slice(items.1, x)
}

/// Returns whether an item of a slice equals `x`. Words go by fours, as in `same_items`.
fn is_in_slice<T: PartialEq>(items: &[T], x: &T) -> bool
    ensures { result ≡ list_any (λ y. T.eq y x.now) items.now }
{
    if item_size::<T>() < WORD {
        return items.contains(x);
    }
    for turn in 0..items.len() / 4 {
        let k = 4 * turn;
        if items[k..k + 4].contains(x) {
            return true;
        }
    }
    items[items.len() / 4 * 4..].contains(x)
}
