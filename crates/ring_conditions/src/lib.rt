//! Callers that meet the conditions of the makers and of the indexes, for the edits that break them.
#![tactic(auto)]

pub mod conditions;
