//! What the tests of several crates share. No library stands on it.
#![tactic(auto)]

mod answers;
mod calls;
pub mod commands;
pub mod counted;
pub mod drops;
pub mod drought;
pub mod items;
pub mod kinds;
pub mod numbered;
pub mod rings;
pub mod spelled;
pub mod steps;
mod walks;
