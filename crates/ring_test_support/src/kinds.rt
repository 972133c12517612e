//! Lists of calls, each on a new ring of each of some types.

ghost use Rattle.std.specs.Prelude.{◌<◌};

use crate::drought::Drought;
use crate::steps::{Fault, Outcome, Row, Step, first_fault, first_fault_of_rows};
use ringbuffer::{
    AllocRingBuffer, ConstGenericRingBuffer, CopyRingBuffer, DoubleEndedRing,
    GrowableAllocRingBuffer,
};
use std::alloc::Global;

/// A type of ring.
#[derive(Clone, Copy, Debug, Drop, PartialEq)]
pub enum Kind {
    Array,
    Copies,
    Heap,
    Growable,
}

/// The types of ring that have a limit.
pub const FIXED: &[Kind] = &[Kind::Array, Kind::Copies, Kind::Heap];

/// All types of ring.
pub const EACH: &[Kind] = &[Kind::Array, Kind::Copies, Kind::Heap, Kind::Growable];

/// Calls of a ring.
#[derive(Clone, Copy)]
pub enum Calls<'a> {
    /// Each answers what its step says.
    Steps(&'a [Step]),
    /// The call of each row answers what it says, and leaves what it says, on items that begin at each place.
    Rows(&'a [Row]),
    /// Pushes of some items, and then steps while no memory is had.
    InDrought(&'static [i64], &'a [Step]),
}

/// There is no ring in an array of this capacity, or no memory for one.
const NO_RING: Fault = (0, 0, 0, Outcome::Refused);

/// Calls a function that has the capacity as a parameter, if it is one of these.
macro_rules! by_capacity {
    ($capacity:expr, $no_ring:expr, $function:ident, $arguments:tt, $($one:literal)*) => {
        match $capacity {
            $($one => $function::<$one> $arguments,)*
            _ => Some($no_ring),
        }
    };
}

pub(crate) use by_capacity;

/// Does the calls on a new ring of each of these types, with this capacity or this room. Returns the first type whose ring
/// doesn't answer as they say, and where that is.
///
/// A generic function takes some three seconds to prove for each type of ring that it is called with. So each ring that
/// a list may be for has its one call here.
pub fn first_fault_on(
    alloc: Global,
    kinds: &[Kind],
    capacity: usize,
    calls: Calls,
) -> Option<(Kind, Fault)> {
    for kind in kinds {
        let fault = match kind {
            Kind::Array => {
                by_capacity!(capacity, NO_RING, fault_in_array, (alloc, calls), 1 2 3 4 5 8 13 16 50)
            }
            Kind::Copies => {
                by_capacity!(capacity, NO_RING, fault_of_copies, (alloc, calls), 1 2 3 4 5 8 13 16)
            }
            Kind::Heap if capacity > 0 => match AllocRingBuffer::new(alloc, capacity) {
                Ok(mut ring) => fault_of(alloc, &mut ring, calls),
                Err(_) => Some(NO_RING),
            },
            Kind::Heap => Some(NO_RING),
            Kind::Growable => match GrowableAllocRingBuffer::with_capacity(alloc, capacity) {
                Ok(mut ring) => fault_of(alloc, &mut ring, calls),
                Err(_) => Some(NO_RING),
            },
        };
        if let Some(fault) = fault {
            return Some((*kind, fault));
        }
    }
    None
}

/// Does the calls on a ring. Returns where one doesn't answer as they say.
fn fault_of<R: DoubleEndedRing<i64>>(alloc: Global, ring: &mut R, calls: Calls) -> Option<Fault> {
    let (step, outcome) = match calls {
        Calls::Steps(steps) => first_fault(ring, steps)?,
        Calls::Rows(rows) => return first_fault_of_rows(ring, rows),
        Calls::InDrought(items, steps) => {
            let Ok(_) = ring.extend(items.iter().copied()) else {
                return Some(NO_RING);
            };
            let Ok(_drought) = Drought::but_for(alloc, 0) else {
                return Some(NO_RING);
            };
            first_fault(ring, steps)?
        }
    };
    Some((0, 0, step, outcome))
}

/// Does the calls on an array ring. Its capacity is a parameter, so that rings of all capacities are one type to prove.
fn fault_in_array<const CAP: usize>(alloc: Global, calls: Calls) -> Option<Fault>
    requires some { 0 < CAP }
    requires few { CAP < 1000 }
{
    fault_of(alloc, &mut ConstGenericRingBuffer::<i64, CAP>::new(), calls)
}

fn fault_of_copies<const CAP: usize>(alloc: Global, calls: Calls) -> Option<Fault>
    requires some { 0 < CAP }
    requires few { CAP < 1000 }
{
    fault_of(alloc, &mut CopyRingBuffer::<i64, CAP>::new(0), calls)
}
