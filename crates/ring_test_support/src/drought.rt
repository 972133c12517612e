//! A time without memory.

use std::alloc::{AllocError, Global};

/// More blocks than an address space is cut into.
const MOST_BLOCKS: usize = 1 << 17;

/// A request that no address space has room for.
const TOO_LARGE: usize = 1 << 47;

/// The C library keeps freed blocks of each small size apart, in steps of 16 bytes.
const SMALL: usize = 1 << 11;

const STEP: usize = 16;

/// How often a call is tried, in droughts of which each spares more than the one before.
pub const MOST_STEPS: usize = 100;

/// Returns how many bytes the drought of an attempt spares. The steps are small where the block is.
pub fn spared(step: usize) -> usize {
    step.saturating_mul(step).saturating_mul(8)
}

/// Tells whether some attempts were refused, and not all.
pub fn is_in_turn(refused: usize) -> bool {
    0 < refused && refused < MOST_STEPS
}

/// Counts the attempts before the first that succeeds, each of which is made at a step.
#[macro_export]
macro_rules! refused_in_turn {
    ($rt:expr, $step:ident, $attempt:expr) => {{
        let _most = $crate::drought::Drought::of_most($rt.alloc()).expect($rt, "memory");
        let mut refused = 0usize;
        for $step in 0..$crate::drought::MOST_STEPS {
            if $attempt {
                break;
            }
            refused = $step.saturating_add(1);
        }
        refused
    }};
}

/// While it lasts, no memory is had but one block. It takes all address space, and writes nothing there.
///
/// Under `rt try`, whose allocator has limits of its own, nothing is known of it.
#[derive(Drop)]
pub struct Drought {
    _taken: Vec<Vec<u8>>,
}

impl Drought {
    /// Makes a drought that leaves one block of `spare` bytes.
    pub fn but_for(alloc: Global, spare: usize) -> Result<Drought, AllocError> {
        let mut taken = Vec::with_capacity(alloc, MOST_BLOCKS)?;
        let kept = Vec::<u8>::with_capacity(alloc, spare)?;
        let mut size = TOO_LARGE;
        for _ in 0..MOST_BLOCKS {
            if let Ok(block) = Vec::with_capacity(alloc, size) {
                taken.push(block)?;
            } else if size > SMALL {
                size /= 2;
            } else if size > STEP {
                size -= STEP;
            } else {
                break;
            }
        }
        drop(kept);
        Ok(Drought { _taken: taken })
    }

    /// Makes a drought that leaves a gibibyte. Droughts within it are short: the thousands of blocks that all other address space
    /// is cut into are taken once.
    pub fn of_most(alloc: Global) -> Result<Drought, AllocError> {
        Drought::but_for(alloc, 1 << 30)
    }

    /// Makes a drought that leaves nothing.
    pub fn total(alloc: Global) -> Result<Drought, AllocError> {
        Drought::but_for(alloc, 0)
    }
}
