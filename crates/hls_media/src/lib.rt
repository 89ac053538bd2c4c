//! Reads init sections and the facts of units (ISO/IEC 14496-12), exactly as `hls_media_laws` defines them.
#![tactic(auto)]

mod box_fields;
mod box_headers;
mod box_visitor;
mod facts;
mod fields;
mod flags;
mod init;
mod moof;
mod moov;
mod run_placement;
mod samples;
mod tfdt;
mod tfhd;
mod timing_traf;
mod track_ids;
mod tracks;
mod traf_header;
mod traf_runs;
mod trak;
mod trun;
mod trun_columns;
mod unit;

pub use init::read_init;
pub use unit::{read_facts, read_facts_counted};
