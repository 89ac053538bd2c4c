//! Tests of a channel's calls under allocation failures: configurations, events, recordings, steps, states, places, turns, catch-up and
//! players' masters.
//!
//! Each call returns its only answer, or reports that it is out of memory; its arguments are then unchanged, and the same call again
//! returns the answer. `tests/gate/fail_each_allocation` refuses each allocation in turn.
#![tactic(auto)]

#[cfg(test)]
mod channel;
#[cfg(test)]
mod places;
#[cfg(test)]
mod players_masters;
#[cfg(test)]
mod plays;
#[cfg(test)]
mod recordings;
#[cfg(test)]
mod refused_replies;
#[cfg(test)]
mod refused_steps;
#[cfg(test)]
mod requests;
#[cfg(test)]
mod samples;
#[cfg(test)]
mod states;
#[cfg(test)]
mod turns;
#[cfg(test)]
mod two_units;
