//! Tests of the HTTP API under allocation failures: jobs, their files, playlists, listings and responses.
//!
//! Each call returns its only answer, or reports that it is out of memory; its arguments are then unchanged, and the same call again
//! returns the answer. `tests/gate/fail_each_allocation` refuses each allocation in turn.
#![tactic(auto)]

#[cfg(test)]
mod answers;
#[cfg(test)]
mod files;
#[cfg(test)]
mod jobs;
#[cfg(test)]
mod listings;
#[cfg(test)]
mod lists;
#[cfg(test)]
mod refused_jobs;
#[cfg(test)]
mod refused_responses;
