//! Mending: writes units again, makes fillers, and decides what is recorded of each unit, exactly as `hls_mend_laws` defines it.
//!
//! [`mend_unit`] decides what is recorded of a unit, given the recording of its rendition: the unit as it was sent, or written again, and
//! fillers before it if there is a gap. [`MendedUnits`](../specs/MendedUnits.antt) defines its result.
//!
//! [`retime_unit`] moves a unit's start to the end of its rendition, [`cut_unit`] removes leading samples of audio, and [`hold_unit`] and
//! [`silent_unit`] make units that fill a gap, no larger than they may be. Each returns `None` for a unit that mending can't write again: one of several tracks or runs,
//! or with boxes in its `traf` that hold offsets of their own. [`silent_frame`] is the frame that silence of a rendition consists of.
//!
//! An encoder that restarts sends its init section again. If that differs only in bit rates, times, names or metadata, what was recorded
//! can be continued under the first one: [`is_same_to_decoders`] compares the two as [`InitSections`](../specs/InitSections.antt) defines.
#![tactic(auto)]

mod blank;
mod box_splits;
mod cuts;
mod decide;
mod encoder_signs;
mod fillers;
mod fragment;
mod front;
mod gap;
mod jumps;
mod kinds;
pub mod laws;
mod made_units;
pub mod mended;
mod normal;
mod retime;
mod rows;
mod samples;
mod silence;
mod spans;
mod treat;
mod unit_parts;
mod write;

pub use cuts::cut_unit;
pub use decide::mend_unit;
pub use encoder_signs::EncoderSigns;
pub use fillers::{hold_unit, silent_unit};
pub use gap::{declared_rate, make_span_filler};
pub use jumps::{is_accepted_jump, is_ahead_of_channel};
pub use normal::is_same_to_decoders;
pub use retime::retime_unit;
pub use silence::silent_frame;
pub use treat::decide_treatment;
