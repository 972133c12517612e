//! Tests of memory and of what becomes of items: what asks for memory, what a refusal leaves, and that each item is dropped
//! exactly once.
#![tactic(auto)]

#[cfg(test)]
mod tests;
