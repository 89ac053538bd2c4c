//! Journals: writes the records of a channel's events, and restores the channel from them.
//!
//! A restart applies each record by `hls_core`'s `step`, from the opening state: init sections and units are read again, and every
//! event must be new. So whatever the records are, the result is a state of the configuration, or a fault that names the record.
#![tactic(auto)]

mod asides;
mod bodies;
mod channel;
mod fault;
mod floors;
pub mod laws;
mod restart;
mod unit_head;
mod zeros;

pub use asides::{find_ids, is_closed};
pub use bodies::{make_closed_body, make_event_body, make_ids_body};
pub use channel::{ChannelHeader, make_channel_body, read_channel};
pub use fault::{ConfigField, JournalFault};
pub use floors::find_floors;
pub use restart::{restore, restore_records};
pub use unit_head::find_head_len;
pub use zeros::push_zeros;

/// The version of the format.
pub const FORMAT_VERSION: u16 = 2;

/// The kinds of records, in the first byte of a body.
pub const CHANNEL: u8 = 0;

pub const BEGUN: u8 = 1;

pub const ACCEPTED: u8 = 2;

pub const FINISHED: u8 = 3;

pub const SLID: u8 = 4;

pub const TRIMMED: u8 = 5;

pub const IDS: u8 = 6;

pub const CLOSED: u8 = 8;

/// The bytes of an accepted record before the unit's head.
pub const UNIT_HEAD_AT: usize = 16;
