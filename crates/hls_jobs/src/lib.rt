//! The jobs of a channel: catch-up requests that wait, run concurrently, and are kept with their answers; and what is served of a job,
//! from the job alone: its line, its certificate, and its playlists.
//!
//! A job's answer is right for the snapshot and the request that it holds: its type guarantees that, inside the lock and outside.
//! `CertificateWriter` makes a text in parts, between which other connections get their turn. Programmes by address are planned by the
//! same loops, once each, and `ProgrammeTexts` are kept of them.
#![tactic(auto)]

mod certificate_writer;
mod files;
mod gate;
mod job_line;
mod job_run;
mod last_uses;
mod laws;
mod plan_turns;
mod plans;
mod programme_files;
mod programme_texts;
mod rows;
mod shared;
mod table;

pub use certificate_writer::CertificateWriter;
pub use files::{master_text, playlist_text};
pub use gate::{Gate, work_loop};
pub use hls_catchup::{Finished, Job, JobAnswer, JobFault, Work};
pub use job_line::{served_version, write_job_line};
pub use job_run::{answer_request, run_job};
pub use last_uses::{JobAge, LastUse};
pub use laws::{first_turns_are_fair, programme_answers_stay, programmes_stay};
pub use plans::FoundPlan;
pub use programme_files::programme_list_text;
pub use programme_texts::{ProgrammeTexts, plan_now};
pub use shared::Jobs;
pub use table::JobTable;
