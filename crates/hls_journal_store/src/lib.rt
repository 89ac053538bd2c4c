//! The files of a journal: a folder that holds a channel's log and media.
//!
//! `lock` is locked while a process has the folder; it is empty, unless players have seen more of the channel than the folder has. `log`
//! has the records. `media/R/NNNNN` has the bytes from place NNNNN times 64 MiB on of rendition R. The place of a byte is its offset in the
//! resource, its init section and all units, and the bytes that precede by the channel's base. `behind` is another mark that players have
//! seen more; until then it is `spare`. `log.new` is a log that is about to replace `log`.
//!
//! [`open_store`] restores the channel of a folder, [`Follower::follow`] writes what it has grown by since, and [`renew_store`] replaces
//! its log.
#![tactic(auto)]

mod anew;
mod batch;
mod begun_log;
mod boot_id;
mod call_record;
mod check;
mod fault;
mod follower;
mod inspect;
mod kept_time;
mod kept_units;
mod log_file;
mod long_log;
mod media_files;
mod media_read;
mod media_span;
mod media_starts;
mod media_track;
mod next_segment;
mod older_format;
mod open_media;
mod records;
mod renewal;
mod renewal_policy;
mod restored;
mod start_record;
mod store;
mod store_paths;
mod sync_mode;
mod whole_log;

pub use anew::begin_anew;
pub use batch::{Batch, MediaWrite, Position, RENDITIONS, make_batch};
pub use call_record::CallRecord;
pub use check::{StoreCheck, check_store};
pub use fault::{BatchFault, EndCause, OpenFault, StoreFault, StorePart};
pub use follower::{Follower, StoreFollower};
pub use inspect::{StoreReport, close_store, inspect_store};
pub use kept_units::{KeptUnit, MediaIndex, find_kept_units};
pub use log_file::{FileCalls, LogFile, settle_log_file};
pub use long_log::{is_renewal_due, renew_channel};
pub use media_span::{MEDIA_FILE_LEN, MediaSpan, find_span};
pub use renewal::renew_store;
pub use renewal_policy::{LogUse, RenewalGate};
pub use store::{OpenedStore, StoreStart, open_store};
pub use sync_mode::SyncMode;
