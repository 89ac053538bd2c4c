//! The options of `cut`, from its arguments.
ghost use Rattle.std.specs.Prelude.{◌≡◌, ◌≤◌, map, option_map, IfOk, IfSome};
ghost use Rattle.clap.specs.Words.{app_of, first_value, found_of, kind_of};
ghost use Rattle.hls_check_tables.specs.Tables.{charge_limit, charge_of, rule_of as cost_rule_of, target_limit};
ghost use Rattle.hls_core_laws.specs.Config.{IsEpoch, IsTarget};
ghost use Rattle.hls_m3u8.specs.Uri.{IsUri};
ghost use Rattle.hls_settings.specs.Options.{FindsOptions, IsCharge, IsPreferredOf, ReadsOptions, charge_in, check_together, checked_uri, choice_after, choice_by, cut_app, has_needed_preferred, preferred_in, refused_option, allows_each, target_in, uri_in};
ghost use Rattle.hls_settings.specs.Flags.{is_set};

use crate::command::with_options;
use crate::cut_options_fault::CutOptionsFault;
use crate::epoch::read_epoch;
use crate::number::{number_or_default, optional_number};
use crate::wrong_argument::{WrongArgument, find_wrong_argument};
use clap::error::ErrorKind;
use clap::{ArgMatches, Command, Error};
use hls_check_tables::{CHARGE_LIMIT, CostRule, TARGET_LIMIT};
use hls_m3u8::is_uri;
use std::alloc::{AllocError, Global};
use std::convert::AsStr;
use std::marker::Model;

/// The options by their long names, and whether each takes a value.
const OPTIONS: [(&str, bool); 7] = [
    ("each", false),
    ("preferred", true),
    ("certificate", false),
    ("target", true),
    ("uri", true),
    ("charge", true),
    ("epoch", true),
];

/// The default target duration, in seconds.
const DEFAULT_TARGET: u64 = 6;

/// The options of `cut`.
#[derive(Drop)]
pub struct CutOptions<'a> {
    /// The playlist's target duration in whole seconds, 1 to 3600 (RFC 8216 section 4.3.3.1).
    target: u64,
    /// The URI of the media file, for each segment and for the map.
    uri: &'a str,
    /// The preferred length of a segment in microseconds, 1 to the target duration, if a least plan is requested; without it each
    /// place begins a segment.
    preferred: Option<u64>,
    /// The charge of a least plan for each segment, in addition to its deviation, 0 to 3600000000 microseconds; without it the plan
    /// is least by deviation alone.
    charge: Option<u64>,
    /// The instant of time 0 in microseconds since 1970-01-01T00:00:00Z, from which segments get dates.
    epoch: Option<i64>,
    /// Whether the plan's certificate is requested instead of the playlist.
    certificate: bool,
}

impl<'a> Model for CutOptions<'a> {
    ghost use Rattle.hls_settings.specs.Options.{CutOptionsData, IsGood, choice_with};

    ghost Value = { CutOptionsData };

    ghost view = { λ options. choice_with options.target options.uri.now options.preferred options.charge options.epoch options.certificate };

    ghost invariant = { λ options. IsGood (choice_with options.target options.uri.now options.preferred options.charge options.epoch options.certificate) };
}

impl<'a> CutOptions<'a> {
    /// Returns the playlist's target duration in whole seconds, 1 to 3600.
    pub fn target(&self) -> u64
        ensures value { result ≡ self.now.target }
        ensures in_range { IsTarget result }
    {
        self.target
    }

    /// Returns the URI of the media file, which a playlist can contain.
    pub fn uri(&self) -> &'a str
        ensures value { result.now ≡ self.now.uri }
        ensures good { IsUri result.now }
    {
        self.uri
    }

    /// Returns the preferred length of a segment in microseconds, if a least plan is requested.
    pub fn preferred(&self) -> Option<u64>
        ensures value { result ≡ self.now.preferred }
        ensures in_range { IsPreferredOf self.now.target result }
    {
        self.preferred
    }

    /// Returns the rule by which a plan is least.
    pub fn rule(&self) -> CostRule
        ensures value { result ≡ cost_rule_of self.now.charge }
        ensures in_range { charge_of result ≤ charge_limit }
    {
        CostRule::from_charge(self.charge)
    }

    /// Returns the instant of time 0 in microseconds since 1970-01-01T00:00:00Z, if it is known.
    pub fn epoch(&self) -> Option<i64>
        ensures value { result ≡ self.now.epoch }
        ensures in_range { IsEpoch result }
    {
        self.epoch
    }

    /// Whether the plan's certificate is requested instead of the playlist.
    pub fn wants_certificate(&self) -> bool
        ensures { result ≡ self.now.certificate }
    {
        self.certificate
    }
}

/// Builds the command as `clap` parses it.
fn cut_command<'a>(alloc: Global) -> Result<Command<'a>, AllocError>
    ensures { IfOk result (λ made. app_of made ≡ cut_app) }
{
    with_options(alloc, "cut", &OPTIONS)
}

/// Returns the given target duration, or the default; `None` if it isn't 1 to 3600 seconds.
fn read_target(text: Option<&str>) -> Option<u64>
    ensures value { result ≡ target_in (option_map (λ t. t.now) text.entry) }
    ensures in_range { IfSome result (λ target. (1 ≤ target) × (target ≤ target_limit)) }
{
    number_or_default(1, TARGET_LIMIT, DEFAULT_TARGET, text)
}

/// Returns the given preferred length, if any; `None` if it isn't 1 microsecond to the target duration.
fn read_preferred(target: u64, text: Option<&str>) -> Option<Option<u64>>
    requires { target ≤ target_limit }
    ensures value { result ≡ preferred_in target (option_map (λ t. t.now) text.entry) }
    ensures in_range { IfSome result (IsPreferredOf target) }
{
    optional_number(1, target * 1_000_000, text)
}

/// Returns the given charge, if any; `None` if it is above 3600000000 µs.
fn read_charge(text: Option<&str>) -> Option<Option<u64>>
    ensures value { result ≡ charge_in (option_map (λ t. t.now) text.entry) }
    ensures in_range { IfSome result IsCharge }
{
    optional_number(0, CHARGE_LIMIT, text)
}

/// Returns the URI, if a playlist can contain it.
fn checked_uri<'a>(uri: &'a str) -> Option<&'a str>
    ensures value { option_map (λ u. u.now) result ≡ checked_uri uri.entry.now }
    ensures good { IfSome result (λ u. IsUri u.now) }
{
    if is_uri(uri) { Some(uri) } else { None }
}

/// Returns the given URI, or the default; `None` if a playlist can't contain it.
fn read_uri<'a>(text: Option<&'a str>) -> Option<&'a str>
    ensures value { option_map (λ u. u.now) result ≡ uri_in (option_map (λ t. t.now) text.entry) }
    ensures good { IfSome result (λ u. IsUri u.now) }
{
    match text {
        Some(uri) => checked_uri(uri),
        None => checked_uri("media.mp4"),
    }
}

/// Whether an option without a value was given, by its text from `clap`.
pub(crate) fn is_set(text: Option<&str>) -> bool
    ensures { result ≡ is_set (option_map (λ t. t.now) text.entry) }
{
    match text {
        Some(text) => text == "true",
        None => false,
    }
}

/// Whether `--each`, if given, is used without `--preferred` and `--certificate`.
fn allows_each(each: bool, preferred: bool, certificate: bool) -> bool
    ensures { result ≡ allows_each each preferred certificate }
{
    !(each && (preferred || certificate))
}

/// Whether `--certificate` and `--charge`, if given, are used with `--preferred`.
fn has_needed_preferred(preferred: bool, certificate: bool, charge: bool) -> bool
    ensures { result ≡ has_needed_preferred preferred certificate charge }
{
    !((certificate || charge) && !preferred)
}

/// Checks that the given options are compatible.
fn check_together(
    each: bool,
    preferred: bool,
    certificate: bool,
    charge: bool,
) -> Result<(), CutOptionsFault>
    ensures { result ≡ check_together each preferred certificate charge }
{
    if !allows_each(each, preferred, certificate) {
        return Err(CutOptionsFault::Each);
    }
    if !has_needed_preferred(preferred, certificate, charge) {
        return Err(CutOptionsFault::Unplanned);
    }
    Ok(())
}

/// Returns the options with this target duration and URI, or the first other one that is invalid.
fn options_with<'a>(
    matches: &ArgMatches<'a>,
    target: u64,
    uri: &'a str,
) -> Result<CutOptions<'a>, CutOptionsFault>
    requires least { 1 ≤ target }
    requires most { target ≤ target_limit }
    requires good { IsUri uri.now }
    ensures { result ≡ choice_after target uri.entry.now (first_value (found_of matches.now)) }
{
    let Some(preferred) = read_preferred(target, matches.get_str("preferred")) else {
        return Err(CutOptionsFault::Preferred);
    };
    let Some(charge) = read_charge(matches.get_str("charge")) else {
        return Err(CutOptionsFault::Charge);
    };
    let Some(epoch) = read_epoch(matches.get_str("epoch")) else {
        return Err(CutOptionsFault::Epoch);
    };
    let each = is_set(matches.get_str("each"));
    let certificate = is_set(matches.get_str("certificate"));
    check_together(each, preferred.is_some(), certificate, charge.is_some())?;
    Ok(CutOptions {
        target,
        uri,
        preferred,
        charge,
        epoch,
        certificate,
    })
}

/// Returns the options in the matches of `clap`, or the first invalid one.
fn options_from_matches<'a>(matches: &ArgMatches<'a>) -> Result<CutOptions<'a>, CutOptionsFault>
    ensures { result ≡ choice_by (first_value (found_of matches.now)) }
{
    let Some(target) = read_target(matches.get_str("target")) else {
        return Err(CutOptionsFault::Target);
    };
    let Some(uri) = read_uri(matches.get_str("uri")) else {
        return Err(CutOptionsFault::Uri);
    };
    options_with(matches, target, uri)
}

/// Returns why `clap` refused the arguments, by the first invalid one.
fn cut_fault_from_clap(error: &Error, wrong: Option<WrongArgument>) -> CutOptionsFault
    ensures { result ≡ refused_option (kind_of error.now) wrong }
{
    if error.kind() == ErrorKind::OutOfMemory {
        CutOptionsFault::Memory
    } else {
        CutOptionsFault::Arguments(wrong)
    }
}

/// Returns the matches of `clap` in the arguments, or why it refuses them.
fn find_options<'a, S: AsStr>(
    alloc: Global,
    arguments: &'a [S],
) -> Result<ArgMatches<'a>, CutOptionsFault>
    ensures { FindsOptions (map S.text arguments.entry.now) result }
{
    let Ok(command) = cut_command(alloc) else {
        return Err(CutOptionsFault::Memory);
    };
    match command.try_get_matches_from(arguments) {
        Ok(matches) => Ok(matches),
        Err(error) => Err(cut_fault_from_clap(
            &error,
            find_wrong_argument(&OPTIONS, false, arguments),
        )),
    }
}

/// Reads the arguments after `cut`. The first fault is reported, in the order of the variants of `CutOptionsFault`; `Memory` only if
/// an allocation failed.
pub fn read_options<'a, S: AsStr>(
    alloc: Global,
    arguments: &'a [S],
) -> Result<CutOptions<'a>, CutOptionsFault>
    ensures { ReadsOptions (map S.text arguments.entry.now) result }
{
    let matches = find_options(alloc, arguments)?;
    options_from_matches(&matches)
}
