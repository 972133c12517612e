//! Items that one more pushes along by one place.
ghost use Rattle.std.specs.Prelude.{◌≡◌, ◌<◌, List, Some, map};
ghost use Rattle.ring_slots.specs.Slots.{passed_down, passed_up};

use crate::bytes::item_size;
use crate::full;
use std::mem;

/// Items of at most as many bytes pass from call to call, and from cell to cell, in registers. Larger ones go by std's
/// rotation.
const FEW_BYTES: usize = 8;

/// A rotation by one item is one `memmove` where the items take at most as many bytes, and a slower loop where they take
/// more.
const PIECE_BYTES: usize = 2048;

/// Puts an item before some, each of which moves one place up, and returns the one that was last.
#[inline]
pub(crate) fn pass_up<X>(items: &mut [X], item: X) -> X
    ensures { passed_up item result items.old items.new }
{
    if items.is_empty() {
        return item;
    }
    items.rotate_right(1);
    mem::replace(&mut items[0], item)
}

/// Puts an item after some, each of which moves one place down, and returns the one that was first.
#[inline]
pub(crate) fn pass_down<X>(items: &mut [X], item: X) -> X
    ensures { passed_down item result items.old items.new }
{
    let size = item_size::<X>();
    let piece = PIECE_BYTES / size.max(1);
    if size <= FEW_BYTES && piece < items.len() {
        return pass_pieces_down(items, piece, item);
    }
    pass_piece_down(items, item)
}

/// Moves the items down by one place piece by piece, the last first. Out of line, so that few items pay for a look at their
/// number alone.
#[inline(never)]
fn pass_pieces_down<X>(items: &mut [X], piece: usize, item: X) -> X
    requires { 0 < piece }
    ensures { passed_down item result items.old items.new }
{
    let mut passed = item;
    let mut end = items.len();
    while piece < end {
        let from = end - piece;
        passed = pass_piece_down(&mut items[from..end], passed);
        end = from;
    }
    pass_piece_down(&mut items[..end], passed)
}

/// Moves the items down by one place by a rotation.
#[inline]
fn pass_piece_down<X>(items: &mut [X], item: X) -> X
    ensures { passed_down item result items.old items.new }
{
    if items.is_empty() {
        return item;
    }
    let first = mem::replace(&mut items[0], item);
    items.rotate_left(1);
    first
}

/// Puts an item before those of full cells, as `pass_up` does. Small items are moved alone, and their marks not read.
#[inline]
pub(crate) fn pass_full_up<T>(cells: &mut [Option<T>], item: T) -> T
    requires { (xs : List T) × (cells.old ≡ map Some xs) }
    ensures { passed_up (Some item) (Some result) cells.old cells.new }
{
    if item_size::<T>() > FEW_BYTES {
        return pass_up(cells, Some(item)).unwrap();
    }
    let mut passed = item;
    let mut at = 0;
    while at < cells.len() {
        passed = mem::replace(full::item_mut(&mut cells[at]), passed);
        at += 1;
    }
    passed
}

/// Puts an item after those of full cells, as `pass_down` does. Small items are moved alone, and their marks not read.
#[inline]
pub(crate) fn pass_full_down<T>(cells: &mut [Option<T>], item: T) -> T
    requires { (xs : List T) × (cells.old ≡ map Some xs) }
    ensures { passed_down (Some item) (Some result) cells.old cells.new }
{
    if item_size::<T>() > FEW_BYTES {
        return pass_down(cells, Some(item)).unwrap();
    }
    let mut passed = item;
    let mut at = cells.len();
    while 0 < at {
        at -= 1;
        passed = mem::replace(full::item_mut(&mut cells[at]), passed);
    }
    passed
}
