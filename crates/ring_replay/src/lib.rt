//! Random calls of each ring type, against the answers of the Rust crate and of a `VecDeque`.
#![tactic(auto)]

#[cfg(test)]
mod tests;
