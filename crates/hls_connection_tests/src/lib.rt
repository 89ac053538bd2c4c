//! Tests of HTTP and of sessions over memory under allocation failures, and of a worker's loop over sockets.
//!
//! They are separate from `hls_connection`, so that it isn't verified again for them; tests of whole sessions' answers, and of
//! connections that are cut or whose calls fail, need no such crate (`tests/gate/calls`).
#![tactic(auto)]

#[cfg(test)]
mod channels;
#[cfg(test)]
mod echo;
#[cfg(test)]
mod echo_handler;
#[cfg(test)]
mod loops;
#[cfg(test)]
mod refused_heads;
#[cfg(test)]
mod refused_sessions;
#[cfg(test)]
mod refused_turn;
#[cfg(test)]
mod script;
#[cfg(test)]
mod session_outcome;
#[cfg(test)]
mod streams;
#[cfg(test)]
mod test_origin;
#[cfg(test)]
mod waits;
