//! The server's threads, and how many connections they serve.
ghost use Rattle.std.specs.Prelude.{◌≡◌};
ghost use Rattle.hls_settings.specs.Settings.{text_of, workers_of};

use crate::fault::SettingsFault;
use crate::number::number_or_default;

/// The numbers of threads and connections, and the idle timeout.
#[derive(Clone, Copy, Drop)]
pub struct ThreadSettings {
    /// Threads that serve connections, 1 to 63.
    pub workers: u64,
    /// The maximum number of concurrent connections, for all workers together, 16 to 1000000.
    pub connections: u64,
    /// Threads that plan catch-up recordings, 1 to 16.
    pub planners: u64,
    /// The idle timeout in seconds, 1 to 3600.
    pub idle_timeout_s: u64,
}

/// Reads the given numbers, with their defaults.
pub fn read_thread_settings(
    workers: Option<&str>,
    connections: Option<&str>,
    planners: Option<&str>,
    idle_timeout_s: Option<&str>,
) -> Result<ThreadSettings, SettingsFault>
    ensures { result ≡ workers_of (text_of workers.entry) (text_of connections.entry) (text_of planners.entry) (text_of idle_timeout_s.entry) }
{
    let Some(workers) = number_or_default(1, 63, 8, workers) else {
        return Err(SettingsFault::Workers);
    };
    let Some(connections) = number_or_default(16, 1_000_000, 4096, connections) else {
        return Err(SettingsFault::Connections);
    };
    let Some(planners) = number_or_default(1, 16, 2, planners) else {
        return Err(SettingsFault::Planners);
    };
    let Some(idle_timeout_s) = number_or_default(1, 3600, 30, idle_timeout_s) else {
        return Err(SettingsFault::Patience);
    };
    Ok(ThreadSettings {
        workers,
        connections,
        planners,
        idle_timeout_s,
    })
}
