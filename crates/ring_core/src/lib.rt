//! The interface of a ring buffer and what stands on it alone: the traits `RingBuffer` and `DoubleEndedRing`, iterators, runs
//! of commands, moving one ring into another, filters and searches.
#![tactic(auto)]

mod command;
mod double_ended;
mod drain;
mod ext;
mod into_iter;
mod iter;
mod iter_mut;
mod last_bytes;
mod moving;
mod range;
mod ring;
mod runs;
mod searching;
mod taking;
mod written;

pub use command::{Command, Refused, Reply, RunFault, Stopped};
pub use double_ended::DoubleEndedRing;
pub use drain::RingBufferDrainingIterator;
pub use ext::{DoubleEndedRingExt, RingBufferExt};
pub use into_iter::RingBufferIntoIterator;
pub use iter::RingBufferIterator;
pub use iter_mut::RingBufferMutIterator;
pub use last_bytes::LastBytes;
pub use moving::move_all;
pub use range::range_within;
pub use ring::{RingBuffer, retain};
pub use runs::{apply, run, run_into, runs_join};
pub use searching::{binary_search, partition_point};
