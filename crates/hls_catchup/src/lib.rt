//! Catch-up: cuts a programme from a snapshot into playlists and resources, with a certificate that no other plan costs less.
//!
//! The programme is of one channel; each rendition gets a playlist and a resource. `hls_jobs` runs requests in the background, and
//! `hls_playlists` makes the playlists.
//!
//! The definitions are in `specs/`: [`Requests`](../specs/Requests.antt) defines how a state answers a request,
//! [`Canonical`](../specs/Canonical.antt) which requests ask for the same programme, [`Answers`](../specs/Answers.antt) what is right for
//! the programme's table, [`Replies`](../specs/Replies.antt) which reply answers
//! a request, [`Resources`](../specs/Resources.antt) the bytes of a reply's media, and [`Jobs`](../specs/Jobs.antt) the table of
//! jobs, the effect of each call on it, and what is served of a job. A reply and an answer can only be constructed where they are
//! right.
#![tactic(auto)]

mod canonical;
mod cut;
mod cut_request;
mod cut_result;
mod fault;
mod jobs;
mod kept_places;
mod laws;
mod place_iterator;
mod place_table;
mod programme;
mod recordings;
mod reply;
mod reply_units;
mod request;
mod resource;
mod standalone;

pub use canonical::canonical_request;
pub use cut::cut_programme;
pub use cut_request::answer;
pub use cut_result::CutResult;
pub use fault::{CatchFault, JobFault};
pub use hls_check_tables::CostRule;
pub use jobs::answer::JobAnswer;
pub use jobs::finished::Finished;
pub use jobs::job::{Job, JobRow, JobState, Work};
pub use laws::{answers_stay, canonical_programmes_are_same, good_certificates_are_accepted};
pub use place_iterator::next_place;
pub use place_table::table_of;
pub use programme::{Programme, find_programme};
pub use reply::Reply;
pub use reply_units::{ReplyUnits, find_reply_units, reply_total};
pub use request::Request;
pub use resource::{locate_resource_byte, resource_piece, resource_slice, resource_total};
pub use standalone::{Action, play, reply_piece};
