//! Tests of public calls that need no channel, under allocation failures: boxes, init sections and units, mending, codec strings,
//! playlists, certificates, persistent lists, HTTP heads, settings and commands.
//!
//! Each call returns its only answer, or reports that it is out of memory; its arguments are then unchanged, and the same call again
//! returns the answer. The tests are separate from the crates that they call, so that those aren't verified again for them.
//! `tests/gate/fail_each_allocation` refuses each allocation in turn.
#![tactic(auto)]

#[cfg(test)]
mod arguments;
#[cfg(test)]
mod boxes;
#[cfg(test)]
mod certificates;
#[cfg(test)]
mod codec_strings;
#[cfg(test)]
mod heads;
#[cfg(test)]
mod lines;
#[cfg(test)]
mod mending;
#[cfg(test)]
mod parts;
#[cfg(test)]
mod playlist_texts;
#[cfg(test)]
mod refused_inits;
#[cfg(test)]
mod refused_playlists;
#[cfg(test)]
mod shared;
#[cfg(test)]
mod trees;
