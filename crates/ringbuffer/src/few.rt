//! How many items go one by one, since a block costs some steps of its own.

/// Fewer items go in one at a time.
pub(crate) const FEW_IN: usize = 16;

/// Fewer items are compared one at a time.
pub(crate) const FEW_COMPARED: usize = 12;

/// Fewer items are searched and copied out one at a time.
pub(crate) const FEW: usize = 8;
