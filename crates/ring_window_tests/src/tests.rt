//! Windows over each type of ring.

mod answers;
mod counted;
mod floats;
mod held;
mod random_calls;
mod refused;
mod summed;
mod timed;

use std::fmt::Debug;
use std::process::Abort;

/// Both are equal. A failure names the test and both values.
fn assert_equal<T: PartialEq + Debug + Drop>(rt: &impl Abort, found: T, wanted: T) {
    assert_eq!(rt; found, wanted);
}
