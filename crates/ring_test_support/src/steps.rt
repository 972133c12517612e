//! Tests as lists of calls, each with what it must answer.

use crate::calls::outcome_of;
use ringbuffer::DoubleEndedRing;

/// An end that a walk takes a step from.
#[derive(Clone, Copy, Drop)]
pub enum End {
    Front,
    Back,
}

/// A call of a ring, and what it answers.
#[derive(Clone, Copy, Drop)]
pub enum Step {
    /// A push of each item in turn, with the item that it hands back.
    Push(&'static [(i64, Option<i64>)]),
    /// An `enqueue` of each item in turn, with the item that it hands back.
    Enqueue(&'static [(i64, Option<i64>)]),
    /// A push of each item in turn.
    PushAll(&'static [i64]),
    /// A push of zero for each of these lengths in turn, which the ring then has.
    PushToLen(&'static [usize]),
    Extend(&'static [i64]),
    Fill(i64),
    FillDefault,
    FillWith(i64),
    Dequeue(Option<i64>),
    /// A dequeue of each item in turn, after which the ring is empty.
    DequeueAll(&'static [i64]),
    Skip,
    Clear,
    Len(usize),
    Capacity(usize),
    /// How many slots the ring has.
    Slots(usize),
    IsEmpty(bool),
    IsFull(bool),
    /// What `get` finds at a position, and what `get_mut` lends there.
    Get(usize, Option<i64>),
    /// What `get_signed` finds at a position, and what `get_mut_signed` lends there.
    GetSigned(isize, Option<i64>),
    /// The items that `get` and `get_mut` find at a position and at those after it.
    GetAll(usize, &'static [i64]),
    /// The items that `get_signed` and `get_mut_signed` find at a position and at those after it.
    GetAllSigned(isize, &'static [i64]),
    /// What `front` and `peek` find, and `front_mut` lends.
    Front(Option<i64>),
    /// What `back` finds, and `back_mut` lends.
    Back(Option<i64>),
    /// A write of an item at a position.
    Write(usize, i64),
    WriteSigned(isize, i64),
    WriteFront(i64),
    WriteBack(i64),
    Contains(i64, bool),
    /// The ring holds these items and no other, in order.
    Holds(&'static [i64]),
    /// The ring is emptied, and its next item comes so many places after the first slot, counted round.
    Begin(usize),
    /// The ring holds these items and no other, and an item that is pushed then comes after them. It is emptied.
    Leaves(&'static [i64]),
    PushFront(i64, Result<Option<i64>, i64>),
    TryPush(i64, Result<(), i64>),
    PopBack(Option<i64>),
    Truncate(usize),
    KeepNewest(usize),
    Insert(usize, i64, Result<(), i64>),
    Remove(usize, Option<i64>),
    /// A `remove_range` from one index up to another.
    RemoveRange(usize, usize),
    Swap(usize, usize),
    RotateLeft(usize),
    RotateRight(usize),
    /// A filter that keeps the even items, and asks once about each.
    RetainEven,
    /// A filter that keeps every second item, from the oldest on.
    RetainAlternate,
    /// What a search for an item returns.
    Search(i64, Result<usize, usize>),
    /// How many items are below one, which is asked of at most as many items as their number has digits.
    Below(i64, usize),
    /// A reading walk that takes steps from these ends, which find these items and then none.
    Reads(&'static [End], &'static [i64]),
    /// A cursor that takes such steps.
    Lends(&'static [End], &'static [i64]),
    /// A cursor that adds a number to the item that it finds at each of these ends, and is then dropped.
    Adds(&'static [(End, i64)]),
    /// A drain that takes such steps, and is then dropped.
    Drains(&'static [End], &'static [i64]),
}

/// What came of a step. It holds no step, since a value of so many kinds makes each function dear to prove that takes or
/// returns one.
#[derive(Clone, Copy, Debug, Drop, PartialEq)]
pub enum Outcome {
    /// The call was done, and answered as the step says.
    Agrees,
    /// Memory was refused.
    Refused,
    /// No item has the position.
    NoItem,
    /// Another number, of items or slots.
    Counts(usize),
    /// The first place at which the items are others, with the item there.
    Differs(usize, Option<i64>),
    /// What is read, and another item that is lent for writing.
    LendsAnother(Option<i64>, Option<i64>),
    /// How often a closure was called, which is more or less often than it should be.
    Asked(usize),
    /// The other truth value.
    Says(bool),
    /// Another answer to an item that is put in.
    Answers(Result<Option<i64>, i64>),
    /// Another answer to a search.
    Finds(Result<usize, usize>),
}

/// Does the calls on the ring in turn, up to the first that doesn't answer what its step says. Returns the number of
/// that step, and what came of it.
pub fn first_fault<R: DoubleEndedRing<i64>>(
    ring: &mut R,
    steps: &[Step],
) -> Option<(usize, Outcome)> {
    for (i, step) in steps.iter().enumerate() {
        let outcome = outcome_of(ring, step);
        if outcome != Outcome::Agrees {
            return Some((i, outcome));
        }
    }
    None
}

/// Items of a ring, a call, and the items that it leaves.
pub type Row = (&'static [i64], Step, &'static [i64]);

/// How many places the items of a ring begin at: from the first slot on.
pub const STARTS: usize = 8;

/// Where calls answer otherwise: the row and the place at which its items begin, which are 0 in a list of steps, the number
/// of the step, and what came of that.
pub type Fault = (usize, usize, usize, Outcome);

/// Does the call of each row on its items, which begin at each place in turn. Returns the first row and place where it
/// doesn't answer what it says or leaves other items.
pub fn first_fault_of_rows<R: DoubleEndedRing<i64>>(ring: &mut R, rows: &[Row]) -> Option<Fault> {
    for (row, (items, call, left)) in rows.iter().enumerate() {
        for start in 0..STARTS {
            let steps = [
                Step::Begin(start),
                Step::PushAll(items),
                *call,
                Step::Leaves(left),
            ];
            if let Some((step, outcome)) = first_fault(ring, &steps) {
                return Some((row, start, step, outcome));
            }
        }
    }
    None
}
