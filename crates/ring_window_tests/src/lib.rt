//! Tests of windows with a tally, a fold or the least of their items.
#![tactic(auto)]

#[cfg(test)]
mod tests;
