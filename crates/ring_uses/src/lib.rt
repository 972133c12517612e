//! Uses of ring buffers to copy, each proved from the library's public contracts alone.
#![tactic(auto)]

pub mod average;
pub mod everyday;
pub mod filters;
pub mod job_queue;
pub mod limiter;
pub mod log_end;
pub mod owned;
pub mod pipe;
pub mod readings;
pub mod recent;
pub mod samples;
pub mod sliding_window;
pub mod tail;
pub mod undo;
pub mod window_laws;
