//! Rows and vectors on rings: tests of rings by public calls, and how often slots are changed by some calls.
#![tactic(auto)]

pub mod counts;
#[cfg(test)]
mod tests;
