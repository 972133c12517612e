//! Commands for a ring as values, what they reply, and how a run of them stops.

/// A call of a ring, as a value.
#[derive(Debug, PartialEq, Drop)]
pub enum Command<T> {
    /// Puts the item last.
    Push(T),
    /// Puts the items last, in order.
    Extend(Vec<T>),
    /// Takes out the oldest item.
    Dequeue,
    /// Drops the oldest item.
    Skip,
    /// Drops all items.
    Clear,
}

/// What a command returns once it is done.
#[derive(Debug, PartialEq, Drop)]
pub enum Reply<T> {
    /// To `Push`: the item that gave way, or `None` if no item did.
    Pushed(Option<T>),
    /// To `Extend`.
    Extended,
    /// To `Dequeue`: the item, or `None` if the ring was empty.
    Dequeued(Option<T>),
    /// To `Skip`.
    Skipped,
    /// To `Clear`.
    Cleared,
}

/// The command for which memory was refused. No ring with a limit refuses one.
#[derive(Debug, PartialEq, Drop)]
pub enum Refused<T> {
    /// `Push`, with its item. The ring is as it was.
    Push(T),
    /// `Extend`. The items pushed until then stay.
    Extend,
}

/// A run was refused memory. No ring with a limit stops one.
#[derive(Debug, PartialEq, Drop)]
pub struct Stopped {
    /// The number of the refused command, counted from 0.
    pub at: usize,
}

/// Why a run that makes a vector of its replies did not go through.
#[derive(Debug, PartialEq, Drop)]
pub enum RunFault<T> {
    /// There was no memory for the replies. The commands are handed back, and none was done.
    NoRoom(Vec<Command<T>>),
    /// The run stopped as `run_into` does. No ring with a limit stops one.
    Stopped {
        /// The number of the refused command, counted from 0.
        at: usize,
        /// The replies to the commands before it.
        replies: Vec<Reply<T>>,
    },
}
