//! Windows over the items of a ring buffer, with what the items add up to or combine to, or with the least of them.
#![tactic(auto)]

mod count_if;
mod counted;
mod extremes;
mod float_sum;
mod fold_window;
mod fraction;
mod gcd;
mod ghost_count;
mod keeps_fold;
mod least_window;
mod makers;
mod matrix;
mod moments;
mod monoid;
mod monotonic_queue;
mod order;
mod over_rings;
mod polynomial_hash;
mod sum;
mod summed;
mod tally;
mod tally_window;
mod time_window;
mod two_stacks;

pub use count_if::{CountIf, Predicate};
pub use extremes::{BoundingBox, Corners, Greatest, Least};
pub use float_sum::{Summand, WindowFloatSum};
pub use fold_window::{Kept, WindowFold};
pub use fraction::Fraction;
pub use gcd::Gcd;
pub use least_window::{WindowLeast, WindowMax, WindowMin};
pub use matrix::Matrix;
pub use moments::{Moments, WindowMoments};
pub use monoid::Monoid;
pub use monotonic_queue::Candidate;
pub use order::{Ascending, Descending, Order};
pub use over_rings::{
    AllocWindowFloatSum, AllocWindowFold, AllocWindowMax, AllocWindowMin, AllocWindowMoments,
    AllocWindowSum, AllocWindowTime, ConstGenericWindowFloatSum, ConstGenericWindowFold,
    ConstGenericWindowMax, ConstGenericWindowMin, ConstGenericWindowMoments, ConstGenericWindowSum,
    ConstGenericWindowTime, CopyWindowFloatSum, CopyWindowMoments, CopyWindowSum,
    GrowableAllocWindowFloatSum, GrowableAllocWindowFold, GrowableAllocWindowMax,
    GrowableAllocWindowMin, GrowableAllocWindowMoments, GrowableAllocWindowSum,
    GrowableAllocWindowTime,
};
pub use polynomial_hash::PolynomialHash;
pub use sum::{Sum, WindowSum};
pub use summed::Summed;
pub use tally::Tally;
pub use tally_window::WindowTally;
pub use time_window::{Stamped, WindowTime};
