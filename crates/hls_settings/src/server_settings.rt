//! All settings except the renditions.
ghost use Rattle.std.specs.Prelude.{◌≡◌, IfOk, Some};
ghost use Rattle.hls_core_laws.specs.Config.{IsEpoch, IsTarget, IsPreferred};
ghost use Rattle.clap.specs.Words.{found_of};
ghost use Rattle.hls_settings.specs.Settings.{address_in, job_life_of, log_of, run_of, server_from, server_settings_of, text_of, unit_rate_of};
ghost use Rattle.hls_settings.specs.Command.{mending_found, texts_in, timing_found, workers_found};

use crate::epoch::read_epoch;
use crate::fault::SettingsFault;
use crate::listen_address::{ListenAddress, read_address};
use crate::mending::{read_mending, read_wait};
use crate::number::{number_or_default, optional_number};
use crate::thread_settings::{ThreadSettings, read_thread_settings};
use crate::window_settings::{WindowSettings, read_window_settings};
use clap::ArgMatches;
use hls_core::base::Base;
use hls_mend_laws::settings::MendSettings;

/// The settings except the channel's renditions.
#[derive(Clone, Copy, Drop)]
pub struct ServerSettings {
    pub timing: WindowSettings,
    /// The instant of time 0 in microseconds since 1970-01-01T00:00:00Z, if it is known.
    pub epoch: Option<i64>,
    pub workers: ThreadSettings,
    /// Whether each request is logged.
    pub logs_requests: bool,
    /// The name of the channel's run, filled up with zero bytes, if it is given.
    pub run: Option<[u8; 16]>,
    /// How far units are mended, if they are.
    pub mending: Option<MendSettings>,
    /// For how long nothing may be heard of an encoder before its rendition is filled, in seconds. It matters only where units are mended.
    pub wait_s: u32,
    /// After how many seconds without a use a finished job is removed, if it is.
    pub job_life_s: Option<u64>,
    /// How many units a second a rendition's encoders may send, averaged over ten seconds; 0 if its rates aren't limited.
    pub unit_rate: u64,
    pub address: ListenAddress,
}

/// Whether requests are logged; `None` if the text is anything else.
fn read_log(text: Option<&str>) -> Option<bool>
    ensures { result ≡ log_of (text_of text.entry) }
{
    let Some(text) = text else {
        return Some(false);
    };
    if text == "requests" { Some(true) } else { None }
}

/// Returns the run, if there is one; `None` if the text isn't the name of a run.
fn read_run(text: Option<&str>) -> Option<Option<[u8; 16]>>
    ensures { result ≡ run_of (text_of text.entry) }
{
    match text {
        None => Some(None),
        Some(text) => Some(Some(Base::parse_run(text.as_bytes())?)),
    }
}

/// Returns after how many seconds without a use a job is removed, if it is; `None` if the text isn't 1 to 86400.
fn read_job_life(text: Option<&str>) -> Option<Option<u64>>
    ensures { result ≡ job_life_of (text_of text.entry) }
{
    optional_number(1, 86400, text)
}

/// Returns how many units a second a rendition may get; `None` if the text isn't 0 to 1000000.
fn read_unit_rate(text: Option<&str>) -> Option<u64>
    ensures { result ≡ unit_rate_of (text_of text.entry) }
{
    number_or_default(0, 1_000_000, 500, text)
}

fn read_listen_address(text: Option<&str>) -> Option<ListenAddress>
    ensures { result ≡ address_in (text_of text.entry) }
{
    read_address(text?)
}

/// Returns the durations in the matches of `clap`.
fn find_window_settings(matches: &ArgMatches) -> Result<WindowSettings, SettingsFault>
    ensures valid { IfOk result (λ t. IsTarget t.target × IsPreferred t.target t.preferred) }
    ensures value { result ≡ timing_found (found_of matches.now) }
{
    read_window_settings(
        matches.get_str("target"),
        matches.get_str("preferred"),
        matches.get_str("window"),
        matches.get_str("keep"),
        matches.get_str("live"),
    )
}

/// Returns the numbers of threads in the matches of `clap`.
fn find_thread_settings(matches: &ArgMatches) -> Result<ThreadSettings, SettingsFault>
    ensures { result ≡ workers_found (found_of matches.now) }
{
    read_thread_settings(
        matches.get_str("workers"),
        matches.get_str("connections"),
        matches.get_str("planners"),
        matches.get_str("patience"),
    )
}

/// Returns how far units are mended, if they are, by the matches of `clap`.
fn find_mending(matches: &ArgMatches) -> Result<Option<MendSettings>, SettingsFault>
    ensures { result ≡ mending_found (found_of matches.now) }
{
    read_mending(
        matches.get_str("mend"),
        matches.get_str("snap"),
        matches.get_str("fill"),
        matches.get_str("wait"),
    )
}

/// Returns the settings with these durations and this epoch, or the first fault of the rest.
fn build_server_settings(
    matches: &ArgMatches,
    timing: WindowSettings,
    epoch: Option<i64>,
) -> Result<ServerSettings, SettingsFault>
    ensures kept { IfOk result (λ p. (p.timing ≡ timing) × (p.epoch ≡ epoch)) }
    ensures value { result ≡ server_from timing (Some epoch) (texts_in (found_of matches.now)) }
{
    let workers = find_thread_settings(matches)?;
    let Some(logs_requests) = read_log(matches.get_str("log")) else {
        return Err(SettingsFault::Log);
    };
    let Some(run) = read_run(matches.get_str("run")) else {
        return Err(SettingsFault::Run);
    };
    let mending = find_mending(matches)?;
    let Some(wait_s) = read_wait(matches.get_str("wait")) else {
        return Err(SettingsFault::Wait);
    };
    let Some(job_life_s) = read_job_life(matches.get_str("job-life")) else {
        return Err(SettingsFault::JobLife);
    };
    let Some(unit_rate) = read_unit_rate(matches.get_str("unit-rate")) else {
        return Err(SettingsFault::UnitRate);
    };
    let Some(address) = read_listen_address(matches.get_str("address")) else {
        return Err(SettingsFault::Address);
    };
    Ok(ServerSettings {
        timing,
        epoch,
        workers,
        logs_requests,
        run,
        mending,
        wait_s,
        job_life_s,
        unit_rate,
        address,
    })
}

/// Returns the settings except the renditions, or their first fault.
pub fn read_server_settings(matches: &ArgMatches) -> Result<ServerSettings, SettingsFault>
    ensures valid { IfOk result (λ p. IsTarget p.timing.target × IsPreferred p.timing.target p.timing.preferred × IsEpoch p.epoch) }
    ensures value { result ≡ server_settings_of (texts_in (found_of matches.now)) }
{
    let timing = find_window_settings(matches)?;
    let Some(epoch) = read_epoch(matches.get_str("epoch")) else {
        return Err(SettingsFault::Epoch);
    };
    build_server_settings(matches, timing, epoch)
}
