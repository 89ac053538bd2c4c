//! The commands that read standard input or explain: `cut`, `check`, `lint` and `explain`, each from its arguments and its input to its
//! output.
//!
//! `cut` lists a recorded channel of one rendition: a VOD playlist with a segment from each place to the next or by a least
//! plan, or that plan's certificate. `explain` prints a line for each name of a refusal.
#![tactic(auto)]

mod buffers;
mod channel_listing;
mod check;
mod cut;
mod explain;
mod explanations;
mod find_first_refused;
mod iterators;
mod lint;
mod list_each;
mod list_least_plan;
mod listing_fault;
mod listing_mode;
mod meanings;
mod read_input;
mod segments;
mod table;
mod vod_playlist;

pub use channel_listing::list_channel;
pub use check::run::{CheckEnd, run_check};
pub use cut::fault::CutFault;
pub use cut::run::{CutEnd, run_cut};
pub use explain::{ExplainEnd, run_explain};
pub use lint::run::{LintEnd, run_lint};
pub use listing_fault::ListingFault;
pub use listing_mode::{ListingMode, ListingOutput};
pub use meanings::MEANINGS;
