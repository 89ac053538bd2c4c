//! The complete settings from the arguments.
ghost use Rattle.std.specs.Prelude.{◌≡◌, map};
ghost use Rattle.clap.specs.Words.{found_of, matched_of, raw_values};
ghost use Rattle.hls_core_laws.specs.Config.{IsEpoch, IsTarget, IsPreferred};
ghost use Rattle.hls_settings.specs.Command.{texts_in};
ghost use Rattle.clap.specs.Words.{kind_of};
ghost use Rattle.hls_settings.specs.ReadSettings.{Configures, FindsSettings, ReadsSettings, ReadsRendition, ReadsRenditions, MakesSettings, SetsBy, refused_by, rendition_arguments};
ghost use Rattle.hls_settings.specs.Settings.{server_settings_of};

use crate::command::{OPTIONS, serve_command};
use crate::fault::SettingsFault;
use crate::mending::raise_tolerances;
use crate::rendition_spec::{make_rendition, parse_spec};
use crate::server_settings::{ServerSettings, read_server_settings};
use crate::window_settings::WindowSettings;
use crate::wrong_argument::{WrongArgument, find_wrong_argument};
use clap::error::ErrorKind;
use clap::{ArgMatches, Error};
use hls_core::config::{Config, ConfigFault};
use hls_core_laws::rendition::Rendition;
use std::alloc::Global;
use std::convert::AsStr;

/// The settings of a server.
#[derive(Drop)]
pub struct Settings {
    pub server: ServerSettings,
    /// The channel.
    pub config: Config,
}

/// Reads the rendition in the nth argument.
fn read_rendition(alloc: Global, n: usize, argument: &str) -> Result<Rendition, SettingsFault>
    ensures { ReadsRendition n argument.now result }
{
    let Some(argument) = parse_spec(argument) else {
        return Err(SettingsFault::Rendition(n));
    };
    match make_rendition(alloc, argument) {
        Ok(rendition) => Ok(rendition),
        Err(_) => Err(SettingsFault::Memory),
    }
}

/// Reads the renditions in the arguments, in their order.
fn read_renditions(alloc: Global, arguments: &[&str]) -> Result<Vec<Rendition>, SettingsFault>
    ensures { ReadsRenditions (map (λ w. w.now) arguments.now) result }
{
    let mut renditions = Vec::new(alloc);
    for argument in arguments {
        let rendition = read_rendition(alloc, renditions.len(), argument)?;
        let Ok(()) = renditions.push(rendition) else {
            return Err(SettingsFault::Memory);
        };
    }
    Ok(renditions)
}

/// Makes the configuration of a channel of these renditions.
fn make_config(
    alloc: Global,
    timing: WindowSettings,
    epoch: Option<i64>,
    renditions: Vec<Rendition>,
) -> Result<Config, SettingsFault>
    requires target { IsTarget timing.target }
    requires preferred { IsPreferred timing.target timing.preferred }
    requires epoch { IsEpoch epoch }
    ensures { Configures timing epoch renditions.items result }
{
    match Config::with_epoch(alloc, timing.target, timing.preferred, renditions, epoch) {
        Ok(config) => Ok(config),
        Err(ConfigFault::BadTarget) => Err(SettingsFault::Target),
        Err(ConfigFault::BadPreferred) => Err(SettingsFault::Preferred),
        Err(ConfigFault::BadRendition(n)) => Err(SettingsFault::Rendition(n)),
        Err(ConfigFault::BadEpoch) => Err(SettingsFault::Epoch),
        Err(ConfigFault::Memory) => Err(SettingsFault::Memory),
    }
}

/// Makes the settings with these renditions.
fn make_settings(
    alloc: Global,
    server: ServerSettings,
    arguments: &[&str],
) -> Result<Settings, SettingsFault>
    requires target { IsTarget server.timing.target }
    requires preferred { IsPreferred server.timing.target server.timing.preferred }
    requires epoch { IsEpoch server.epoch }
    ensures { MakesSettings server (map (λ w. w.now) arguments.now) result }
{
    let mut renditions = read_renditions(alloc, arguments)?;
    raise_tolerances(server.mending, &mut renditions);
    let config = make_config(alloc, server.timing, server.epoch, renditions)?;
    Ok(Settings { server, config })
}

/// Returns the settings in the matches of `clap`.
fn settings_from_matches(alloc: Global, matches: &ArgMatches) -> Result<Settings, SettingsFault>
    ensures { SetsBy (server_settings_of (texts_in (found_of matches.now))) (rendition_arguments (texts_in (found_of matches.now)).renditions) result }
{
    let server = read_server_settings(matches)?;
    match matches.get_strs("renditions") {
        Some(arguments) => make_settings(alloc, server, arguments),
        None => make_settings(alloc, server, &[]),
    }
}

/// Returns why `clap` refused the arguments, by the first invalid one.
fn fault_from_clap(error: &Error, wrong: Option<WrongArgument>) -> SettingsFault
    ensures { result ≡ refused_by (kind_of error.now) wrong }
{
    if error.kind() == ErrorKind::OutOfMemory {
        SettingsFault::Memory
    } else {
        SettingsFault::Arguments(wrong)
    }
}

/// Returns the matches of `clap` in the arguments, or why it refuses them.
fn find_settings<'a, S: AsStr>(
    alloc: Global,
    arguments: &'a [S],
) -> Result<ArgMatches<'a>, SettingsFault>
    ensures { FindsSettings (map S.text arguments.entry.now) result }
{
    let Ok(command) = serve_command(alloc) else {
        return Err(SettingsFault::Memory);
    };
    match command.try_get_matches_from(arguments) {
        Ok(matches) => Ok(matches),
        Err(error) => Err(fault_from_clap(&error, find_wrong_argument(&OPTIONS, true, arguments))),
    }
}

/// Reads the arguments after `serve`: options, then the address `a.b.c.d:port`, then an argument `name:kind:bandwidth:tolerance` for
/// each rendition. The first fault is reported, in the order of the variants of `SettingsFault`; `Memory` only if an allocation
/// failed.
pub fn read_settings<'a, S: AsStr>(
    alloc: Global,
    arguments: &'a [S],
) -> Result<Settings, SettingsFault>
    ensures { ReadsSettings (map S.text arguments.entry.now) result }
{
    let matches = find_settings(alloc, arguments)?;
    settings_from_matches(alloc, &matches)
}
