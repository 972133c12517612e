//! Lists of calls on rings of items that count their drops. Items are named by their numbers.

ghost use Rattle.std.specs.Prelude.{◌<◌};

use crate::counted::{Counted, Supply};
use crate::kinds::{Kind, by_capacity};
use ringbuffer::{
    AllocRingBuffer, Command, ConstGenericRingBuffer, DoubleEndedRing, DoubleEndedRingExt,
    GrowableAllocRingBuffer, RingBuffer, RingBufferExt, RingBufferIntoIterator, apply, move_all,
};
use std::alloc::Global;

/// A call of a ring, with what it is given and what it hands out.
#[derive(Clone, Copy, Drop)]
pub enum Call<'c> {
    /// Pushes so many items in turn. What one overwrites is dropped.
    Push(usize),
    /// Pushes an item, and keeps what it overwrites until that was looked at.
    PushOver(Option<usize>),
    Enqueue,
    /// Extends by so many items.
    Extend(usize),
    /// Extends by so many clones. What is cloned is dropped.
    ExtendClones(usize),
    /// Copies clones to so many items, and drops them.
    CopyOut(usize),
    Fill,
    FillWith,
    Dequeue(Option<usize>),
    Skip,
    Clear,
    /// Writes an item over another.
    Write(usize),
    PushFront(Option<usize>),
    PopBack(Option<usize>),
    Insert(usize),
    Remove(usize, Option<usize>),
    Swap(usize, usize),
    RotateLeft(usize),
    RotateRight(usize),
    Truncate(usize),
    KeepNewest(usize),
    RemoveRange(usize, usize),
    RetainOdd,
    /// Replaces each item by a new one.
    MapEach,
    /// Drops the oldest items of numbers below this.
    DequeueBelow(usize),
    /// Takes so many items by a drain, which is then dropped, and so many from its back.
    Drain(usize, usize),
    TakeAll,
    SplitOff(usize),
    DrainRange(usize, usize),
    /// Moves so many items onto the ring, from another.
    MoveAll(usize),
    /// So many items were given out so far, clones among them.
    Given(usize),
    /// Applies the commands of a push, an extension by three, and a dequeue.
    Apply,
    /// The ring holds these items and no other, in order.
    Holds(&'c [usize]),
    /// So many items were dropped from a number on, and no other.
    Dropped(usize, usize),
    /// Takes items by an owning walk, from the front or else from the back, which is dropped with the others.
    Walk(bool),
    /// The ring ends, and drops each item after those of lower numbers.
    EndInOrder,
}

/// How many items a list is given at most.
const ITEMS: usize = 400;

/// Where calls answer otherwise: the number of the call, and what it found.
pub type Fault = (usize, Option<usize>);

/// What comes of a call. An error says what it found.
type Done = Result<(), Option<usize>>;

fn unless<T: PartialEq + Drop>(found: T, wanted: T, at: Option<usize>) -> Done {
    if found == wanted { Ok(()) } else { Err(at) }
}

fn numbered(item: Option<&Counted<'_>>) -> Option<usize> {
    Some(item?.number)
}

/// Finds the item that a call hands out, which isn't dropped yet.
fn handed(supply: &Supply, item: Option<Counted<'_>>, wanted: Option<usize>) -> Done {
    let found = numbered(item.as_ref());
    unless(found, wanted, found)?;
    match found {
        Some(number) => unless(supply.drops(number), Some(0), found),
        None => Ok(()),
    }
}

/// Finds that so many items were dropped from a number on, and no other.
fn has_dropped(supply: &Supply, first: usize, count: usize) -> Done {
    for number in 0..supply.given() {
        let is_dropped = number >= first && number - first < count;
        let wanted = if is_dropped { 1 } else { 0 };
        unless(supply.drops(number), Some(wanted), Some(number))?;
    }
    Ok(())
}

/// A ring, and what gives it its items.
#[derive(Drop)]
struct Supplied<'a, R> {
    ring: R,
    supply: &'a Supply,
}

impl<'a, R: DoubleEndedRing<Counted<'a>> + Drop> Supplied<'a, R> {
    fn next(&self) -> Result<Counted<'a>, Option<usize>> {
        self.supply.next().ok_or(None)
    }

    fn items(&self, count: usize) -> Result<Vec<Counted<'a>>, Option<usize>> {
        let mut items = Vec::new(self.supply.alloc());
        for _ in 0..count {
            items.push(self.next()?).map_err(|_| None)?;
        }
        Ok(items)
    }

    fn holds(&self, numbers: &[usize]) -> Done {
        let len = self.ring.len();
        unless(len, numbers.len(), Some(len))?;
        for (i, number) in numbers.iter().enumerate() {
            let found = numbered(self.ring.get(i));
            unless(found, Some(*number), found)?;
        }
        Ok(())
    }

    /// Makes a call that puts items in or hands some out, or finds what is said.
    fn make(&mut self, call: &Call<'_>) -> Done {
        let supply = self.supply;
        match call {
            Call::Given(count) => unless(supply.given(), *count, Some(supply.given())),
            Call::Holds(numbers) => self.holds(numbers),
            Call::Dropped(first, count) => has_dropped(supply, *first, *count),
            Call::Dequeue(wanted) => handed(supply, self.ring.dequeue(), *wanted),
            Call::PopBack(wanted) => handed(supply, self.ring.pop_back(), *wanted),
            Call::Remove(index, wanted) => handed(supply, self.ring.remove(*index), *wanted),
            Call::TakeAll | Call::SplitOff(_) | Call::DrainRange(_, _) => self.take(call),
            Call::PushOver(wanted) | Call::PushFront(wanted) => {
                let item = self.next()?;
                let pushed = match call {
                    Call::PushOver(_) => self.ring.push(item),
                    _ => self.ring.push_front(item),
                };
                handed(supply, pushed.map_err(|_| None)?, *wanted)
            }
            _ => self.change(call),
        }
    }

    /// Brings items to the ring, or takes clones out.
    fn bring(&mut self, call: &Call<'_>) -> Done {
        let count = match call {
            Call::Push(count) | Call::Extend(count) | Call::ExtendClones(count) => *count,
            Call::CopyOut(count) | Call::MoveAll(count) => *count,
            _ => return Err(None),
        };
        let mut items = self.items(count)?;
        match call {
            Call::Extend(_) => self.ring.extend(items).map_err(|_| None),
            Call::ExtendClones(_) => {
                RingBuffer::extend_from_slice(&mut self.ring, &items).map_err(|_| None)
            }
            Call::CopyOut(_) => {
                let copied = RingBuffer::copy_to_slice(&self.ring, &mut items).map_err(|_| None)?;
                unless(copied, count.min(self.ring.len()), Some(copied))
            }
            Call::MoveAll(_) => {
                let mut from = GrowableAllocRingBuffer::from(items);
                move_all(&mut self.ring, &mut from).map_err(|_| None)
            }
            _ => {
                for item in items {
                    let _ = self.ring.push(item).map_err(|_| None)?;
                }
                Ok(())
            }
        }
    }

    /// Takes items out into a vector.
    fn take(&mut self, call: &Call<'_>) -> Done {
        let len = self.ring.len();
        let taken = match call {
            Call::SplitOff(at) if *at <= len => self.ring.split_off(*at, self.supply.alloc()),
            Call::DrainRange(from, to) => self.ring.drain_range(*from..*to, self.supply.alloc()),
            Call::TakeAll => self.ring.take_all(self.supply.alloc()),
            _ => return Err(None),
        };
        let count = taken.map_err(|_| None)?.len();
        unless(self.ring.len().saturating_add(count), len, Some(count))
    }

    /// Changes items, or drops them.
    fn change(&mut self, call: &Call<'_>) -> Done {
        let (len, supply) = (self.ring.len(), self.supply);
        match call {
            Call::Skip => self.ring.skip(),
            Call::Clear => self.ring.clear(),
            Call::Swap(i, j) if *i < len && *j < len => self.ring.swap(*i, *j),
            Call::RotateLeft(count) if *count <= len => self.ring.rotate_left(*count),
            Call::RotateRight(count) if *count <= len => self.ring.rotate_right(*count),
            Call::Truncate(count) => self.ring.truncate(*count),
            Call::KeepNewest(count) => self.ring.keep_newest(*count),
            Call::RemoveRange(from, to) => self.ring.remove_range(*from..*to),
            Call::RetainOdd => self
                .ring
                .retain(|item| item.number % 2 == 1)
                .map_err(|_| None)?,
            Call::DequeueBelow(number) => {
                let _ = self.ring.dequeue_while(|item| item.number < *number);
            }
            Call::Write(index) => {
                let item = self.next()?;
                *self.ring.get_mut(*index).ok_or(None)? = item;
            }
            Call::Insert(index) if *index <= len => {
                let item = self.next()?;
                self.ring.insert(*index, item).map_err(|_| None)?;
            }
            Call::Fill => {
                let item = self.next()?;
                self.ring.fill(item).map_err(|_| None)?;
            }
            Call::Enqueue => {
                let item = self.next()?;
                let _ = self.ring.enqueue(item).map_err(|_| None)?;
            }
            Call::FillWith => self.ring.fill_with(|| supply.more()).map_err(|_| None)?,
            Call::MapEach => self.ring.map_each(|_| supply.more()),
            Call::Drain(front, back) => self.drain(*front, *back),
            Call::Apply => {
                let (item, items) = (self.next()?, self.items(3)?);
                let _ = apply(&mut self.ring, Command::Push(item)).map_err(|_| None)?;
                let _ = apply(&mut self.ring, Command::Extend(items)).map_err(|_| None)?;
                let _ = apply(&mut self.ring, Command::Dequeue).map_err(|_| None)?;
            }
            _ => return self.bring(call),
        }
        Ok(())
    }

    fn drain(&mut self, front: usize, back: usize) {
        let mut walk = self.ring.drain();
        for _ in 0..front {
            let _ = walk.next();
        }
        for _ in 0..back {
            let _ = walk.next_back();
        }
    }

    /// Ends the ring by an owning walk, from which it takes the oldest item or else the newest, or by letting it go.
    fn end(self, call: &Call<'_>) -> Done {
        let Supplied { ring, supply } = self;
        if let Call::Walk(from_front) = call {
            let mut walk = RingBufferIntoIterator::new(ring);
            let item = if *from_front {
                walk.next()
            } else {
                walk.next_back()
            };
            drop(walk);
            let found = numbered(item.as_ref());
            return unless(supply.drops(found.ok_or(None)?), Some(0), found);
        }
        drop(ring);
        unless(supply.is_in_order(), true, None)
    }
}

/// Makes the calls on a ring in turn, and ends it. Returns where one answers otherwise.
fn fault_of<'a, R: DoubleEndedRing<Counted<'a>> + Drop>(
    ring: R,
    supply: &'a Supply,
    calls: &[Call<'_>],
) -> Option<Fault> {
    let mut supplied = Supplied { ring, supply };
    for (i, call) in calls.iter().enumerate() {
        if let Call::Walk(_) | Call::EndInOrder = call {
            return Some((i, supplied.end(call).err()?));
        }
        if let Err(found) = supplied.make(call) {
            return Some((i, found));
        }
    }
    None
}

fn fault_in_array<const CAP: usize>(supply: &Supply, calls: &[Call<'_>]) -> Option<Fault>
    requires some { 0 < CAP }
    requires few { CAP < 1000 }
{
    fault_of(
        ConstGenericRingBuffer::<Counted<'_>, CAP>::new(),
        supply,
        calls,
    )
}

/// There is no ring in an array of this capacity, or no memory for one.
const NO_RING: Fault = (0, None);

fn fault_on(kind: Kind, capacity: usize, supply: &Supply, calls: &[Call<'_>]) -> Option<Fault> {
    let alloc = supply.alloc();
    match kind {
        Kind::Array => {
            by_capacity!(capacity, NO_RING, fault_in_array, (supply, calls), 1 2 3 4 100)
        }
        Kind::Growable => match GrowableAllocRingBuffer::with_capacity(alloc, capacity) {
            Ok(ring) => fault_of(ring, supply, calls),
            Err(_) => Some(NO_RING),
        },
        _ if capacity > 0 => match AllocRingBuffer::new(alloc, capacity) {
            Ok(ring) => fault_of(ring, supply, calls),
            Err(_) => Some(NO_RING),
        },
        _ => Some(NO_RING),
    }
}

/// Makes the calls on a new ring of each of these types, with this capacity or this room. Each item is dropped exactly once.
/// Returns the first type whose ring answers otherwise, and where, or the number of calls and an item that wasn't dropped once.
pub fn first_fault_of_drops(
    alloc: Global,
    kinds: &[Kind],
    capacity: usize,
    calls: &[Call<'_>],
) -> Option<(Kind, Fault)> {
    let Ok(supply) = Supply::new(alloc, ITEMS) else {
        return Some((Kind::Array, NO_RING));
    };
    for kind in kinds {
        supply.begin_again();
        if let Some(fault) = fault_on(*kind, capacity, &supply, calls) {
            return Some((*kind, fault));
        }
        if let Some((number, _)) = supply.first_fault(0) {
            return Some((*kind, (calls.len(), Some(number))));
        }
    }
    None
}
