//! The slots of a ring: places that hold an item or nothing, with a count of their changes that takes no bytes.
#![tactic(auto)]

mod array;
mod block;
mod bytes;
mod cells;
mod change_count;
mod copies;
mod full;
mod heap;
mod lends_rows;
mod marks;
mod passing;
mod place;
mod slots;

pub use array::ArraySlots;
pub use bytes::item_size;
pub use change_count::ChangeCount;
pub use copies::CopySlots;
pub use heap::HeapSlots;
pub use lends_rows::LendsRows;
pub use slots::RingSlots;
