//! The command `serve`: a live channel over HTTP.

pub mod check_journal;
mod generate_run;
pub mod journal_follower;
pub mod load_base;
pub mod open_journal;
pub mod renew_log;
pub mod run;
