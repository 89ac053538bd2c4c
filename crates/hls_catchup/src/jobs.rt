//! Jobs: catch-up requests that wait, run, and are kept with their answers; and what is reported of one.
//!
//! A job's answer is right for the snapshot and the request that it holds: its type guarantees that.

pub mod answer;
pub mod finished;
pub mod job;
