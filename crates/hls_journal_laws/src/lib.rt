//! What the records of a journal mean: the events that they are of, and the state that they restore; and laws of restored states.
//!
//! `hls_journal` writes the records and restores channels from them. A trimmed unit is restored from its head, its bytes before the
//! content of its `mdat`: they determine its facts. So a restored channel is, to every law, the channel that was journaled.
#![tactic(auto)]

pub mod laws;
pub mod stored_media;
