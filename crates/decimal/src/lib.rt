//! Numbers read from decimal digits and written as them, eight digits at a time.
#![tactic(auto)]

mod read;
mod write;

pub use read::read_decimal;
pub use write::push_decimal;
