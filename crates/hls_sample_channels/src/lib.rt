//! Sample channels for tests.
//!
//! The target duration is 6 s, and the preferred segment length 4 s. A rendition has 3 Mbit/s, an init section 600 bytes, and a unit
//! one sync sample and 1000 bytes.
#![tactic(auto)]

mod events;
mod fault;
mod opening;
mod retries;
mod states;

pub use events::{accept_event, begin_event};
pub use fault::SampleFault;
pub use opening::{SECOND, open_channel, open_channel_with, rendition};
pub use retries::{THREE_UNITS, end_channel_with_retry, record_channel, record_channel_with_retry};
pub use states::{
    TEN_UNITS, apply_event, begin_rendition, finish_rendition, with_unit, with_units,
};
