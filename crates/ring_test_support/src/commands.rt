//! A run that has each kind of command, and what it is replied to.

use ringbuffer::{Command, Reply};
use std::alloc::{AllocError, Global};

/// Makes a run that has each kind of command.
pub fn every_command(alloc: Global) -> Result<Vec<Command<i64>>, AllocError> {
    Ok(vec![in alloc;
        Command::Push(1),
        Command::Extend(vec![in alloc; 2, 3, 4]?),
        Command::Dequeue,
        Command::Skip,
        Command::Dequeue,
        Command::Clear,
    ]?)
}

/// What a fixed ring of two replies to it.
pub const REPLIES_OF_TWO: [Reply<i64>; 6] = [
    Reply::Pushed(None),
    Reply::Extended,
    Reply::Dequeued(Some(3)),
    Reply::Skipped,
    Reply::Dequeued(None),
    Reply::Cleared,
];
