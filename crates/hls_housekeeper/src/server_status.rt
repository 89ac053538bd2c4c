//! What the housekeeper needs to know of the server around it.

use hls_mend::EncoderSigns;
use hls_metrics::Measurements;
use std::sync::Wait;

/// The server of a channel, as its housekeeper sees it.
pub trait ServerStatus {
    /// Returns the number of jobs for catch-up recordings, in any phase. May wait.
    fn job_count<R: Wait>(&self, rt: &R) -> usize;

    /// Returns the signs of life of the renditions' encoders.
    fn signs(&self) -> &EncoderSigns;

    /// Returns what the threads of the server measure; the housekeeper stores what it finds.
    fn measurements(&self) -> &Measurements;

    /// Stores what the system reports of the process. May read files.
    fn measure_process(&self);

    /// Notes how many bytes of a rendition the channel keeps.
    fn note_kept(&self, rendition: usize, bytes: u64);

    /// Returns how many connections are open.
    fn connection_count(&self) -> u64;

    /// Removes the finished jobs that weren't used for the time that the settings give, if they give one. `now` is a moment of the clock in
    /// milliseconds. May wait.
    fn remove_unused_jobs<R: Wait>(&self, rt: &R, now: u64);

    /// Returns how many versions of the channel its journal has; `u64::MAX` without one.
    fn written_version(&self) -> u64;

    /// Returns for how long the journal's follower has been at work without a pause, in milliseconds, at a moment of the clock; 0 while it
    /// waits.
    fn journal_busy_ms(&self, now: u64) -> u64;

    /// Whether all connections have ended. The housekeeper's last round is the one after which this holds.
    fn is_closed(&self) -> bool;
}
