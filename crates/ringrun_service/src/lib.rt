//! The work of the program `ringrun`: runs the commands of an input on a ring buffer, and prints what they reply.
#![tactic(auto)]

mod arguments;
mod entry;
mod error_line;
mod fault;
mod replies;
mod room;
mod script;
mod service;

pub use entry::{Status, run};
pub use service::serve;
