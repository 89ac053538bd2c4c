//! Parses paths.

ghost use Rattle.std.specs.Prelude.{◌≡◌, ◌<◌, ◌+◌, ◌^◌, ◌==◌, length, option_map, position, IfSome};
ghost use Rattle.std.specs.Option.{option_or};
ghost use Rattle.hls_api.specs.Routes.{route_of};
ghost use Rattle.hls_api.specs.Exchanges as heard;
ghost use Rattle.hls_api.specs.Routes as spec;

use crate::catchup_query::TimePoint;
use crate::query::parse_time_point;
use crate::route::{IngestTarget, JobFile, ProgrammeFile, Route, ServedChannel, SinceFile};
use hls_core::base::Base;
use hls_http::method::Method;
use hls_text::{MAX_DIGITS, are_digits, has_no_leading_zero, parse_digits};

/// A number above that of every job: 2^53.
const NO_JOB: u64 = 1 << 53;

/// Returns the text after a prefix.
fn strip_front<'a>(front: &[u8], text: &'a [u8]) -> Option<&'a [u8]>
    ensures { option_map (λ rest. rest.now) result ≡ spec.without_prefix front.now text.entry.now }
{
    text.strip_prefix(front)
}

/// Returns the text before a suffix.
fn strip_back<'a>(back: &[u8], text: &'a [u8]) -> Option<&'a [u8]>
    ensures { option_map (λ rest. rest.now) result ≡ spec.without_suffix back.now text.entry.now }
{
    text.strip_suffix(back)
}

/// Parses the number of a rendition, below `count`.
fn parse_rendition(count: usize, text: &[u8]) -> Option<usize>
    ensures { result ≡ spec.rendition_in count text.now }
{
    if !has_no_leading_zero(text) {
        return None;
    }
    let number = parse_digits(text, MAX_DIGITS)?;
    if number < count as u64 {
        Some(number as usize)
    } else {
        None
    }
}

/// Parses the number of a job; too many digits give the number that no job has.
fn parse_job_id(text: &[u8]) -> Option<u64>
    ensures { result ≡ spec.job_in text.now }
{
    if !has_no_leading_zero(text) || !are_digits(text) {
        return None;
    }
    Some(parse_digits(text, MAX_DIGITS).unwrap_or(NO_JOB).min(NO_JOB))
}

/// Parses the name of a job's file.
fn parse_job_file(count: usize, name: &[u8]) -> Option<JobFile>
    ensures { result ≡ spec.file_of count name.now }
{
    if name == b"master.m3u8".as_slice() {
        return Some(JobFile::Master);
    }
    if name == b"certificate.txt".as_slice() {
        return Some(JobFile::Certificate);
    }
    match strip_back(b".m3u8", name) {
        Some(number) => Some(JobFile::List(parse_rendition(count, number)?)),
        None => Some(JobFile::Media(parse_rendition(count, strip_back(b".mp4", name)?)?)),
    }
}

fn find_slash(text: &[u8]) -> Option<usize>
    ensures value { result ≡ position (λ b. b == 47) text.now }
    ensures within { IfSome result (λ at. at < length text.now) }
    ensures small { IfSome result (λ at. at + 1 < 2 ^ 64) }
{
    text.iter().position(|byte| *byte == b'/')
}

/// Parses a job, or one of its files.
fn parse_job_route(count: usize, text: &[u8]) -> Option<Route>
    ensures { result ≡ spec.job_route count text.now }
{
    match find_slash(text) {
        Some(slash) => {
            let id = parse_job_id(&text[..slash])?;
            Some(Route::JobFile(id, parse_job_file(count, &text[slash + 1..])?))
        }
        None => Some(Route::Job(parse_job_id(text)?)),
    }
}

/// Parses the number of a byte.
fn parse_byte_number(text: &[u8]) -> Option<u64>
    ensures { result ≡ spec.byte_number text.now }
{
    if !has_no_leading_zero(text) {
        return None;
    }
    parse_digits(text, MAX_DIGITS)
}

fn find_dash(text: &[u8]) -> Option<usize>
    ensures value { result ≡ position (λ b. b == 45) text.now }
    ensures within { IfSome result (λ at. at < length text.now) }
    ensures small { IfSome result (λ at. at + 1 < 2 ^ 64) }
{
    text.iter().position(|byte| *byte == b'-')
}

/// Parses the first and the last byte of a segment.
fn parse_span(run: [u8; 16], rendition: usize, text: &[u8]) -> Option<Route>
    ensures { result ≡ spec.span_route run rendition text.now }
{
    let dash = find_dash(text)?;
    let first = parse_byte_number(&text[..dash])?;
    let last = parse_byte_number(&text[dash + 1..])?;
    Some(Route::Segment(run, rendition, first, last))
}

/// Parses the name of a file of a rendition.
fn parse_media_file(run: [u8; 16], rendition: usize, name: &[u8]) -> Option<Route>
    ensures { result ≡ spec.media_file run rendition name.now }
{
    if name == b"init.mp4".as_slice() {
        return Some(Route::InitSection(run, rendition));
    }
    parse_span(run, rendition, strip_back(b".m4s", name)?)
}

/// Parses a rendition of a run, and its file.
fn parse_run_route(count: usize, run: &[u8], text: &[u8]) -> Option<Route>
    ensures { result ≡ spec.run_route count run.now text.now }
{
    let run = Base::parse_run(run)?;
    let slash = find_slash(text)?;
    let rendition = parse_rendition(count, &text[..slash])?;
    parse_media_file(run, rendition, &text[slash + 1..])
}

/// Parses the name of a programme's file.
fn parse_programme_file(count: usize, name: &[u8]) -> Option<ProgrammeFile>
    ensures { result ≡ spec.programme_file_of count name.now }
{
    if name == b"master.m3u8".as_slice() {
        return Some(ProgrammeFile::Master);
    }
    if name == b"certificate.txt".as_slice() {
        return Some(ProgrammeFile::Certificate);
    }
    Some(ProgrammeFile::List(parse_rendition(count, strip_back(b".m3u8", name)?)?))
}

/// Parses the end of a programme, and its file.
fn parse_programme_end(count: usize, start: TimePoint, text: &[u8]) -> Option<Route>
    ensures { result ≡ spec.programme_end_route count start text.now }
{
    let slash = find_slash(text)?;
    let stop = parse_time_point(&text[..slash])?;
    let file = parse_programme_file(count, &text[slash + 1..])?;
    Some(Route::Programme(start, stop, file))
}

/// Parses the start of a programme, its end, and its file.
fn parse_programme_route(count: usize, text: &[u8]) -> Option<Route>
    ensures { result ≡ spec.programme_route count text.now }
{
    let slash = find_slash(text)?;
    let start = parse_time_point(&text[..slash])?;
    parse_programme_end(count, start, &text[slash + 1..])
}

/// Parses the name of a file of the playlists that start at a time.
fn parse_since_file(count: usize, name: &[u8]) -> Option<SinceFile>
    ensures { result ≡ spec.since_file_of count name.now }
{
    if name == b"master.m3u8".as_slice() {
        return Some(SinceFile::Master);
    }
    Some(SinceFile::List(parse_rendition(count, strip_back(b".m3u8", name)?)?))
}

/// Parses the time at which playlists start, and the file.
fn parse_since_route(count: usize, text: &[u8]) -> Option<Route>
    ensures { result ≡ spec.since_route count text.now }
{
    let slash = find_slash(text)?;
    let start = parse_time_point(&text[..slash])?;
    Some(Route::Since(start, parse_since_file(count, &text[slash + 1..])?))
}

/// Returns a route, or if there is none what a path of the media of a run names.
fn or_run_route(route: Option<Route>, count: usize, folder: &[u8], text: &[u8]) -> Option<Route>
    ensures { result ≡ option_or route (spec.run_route count folder.now text.now) }
{
    match route {
        Some(route) => Some(route),
        None => parse_run_route(count, folder, text),
    }
}

/// Parses what is in a folder below `/hls/`: a programme, playlists that start at a time, or the media of a run.
fn parse_media_route(count: usize, folder: &[u8], text: &[u8]) -> Option<Route>
    ensures { result ≡ spec.media_route count folder.now text.now }
{
    if folder == b"programme".as_slice() {
        return or_run_route(parse_programme_route(count, text), count, folder, text);
    }
    if folder == b"since".as_slice() {
        return or_run_route(parse_since_route(count, text), count, folder, text);
    }
    parse_run_route(count, folder, text)
}

/// Returns the live playlist by paths of a rendition, with as much as the channel shows.
fn path_list_route(channel: ServedChannel, rendition: usize) -> Route
    ensures { result ≡ spec.path_list_route channel rendition }
{
    match channel.shown_us {
        Some(us) => Route::RecentList(rendition, us),
        None => Route::PathList(rendition),
    }
}

/// Parses what players load: a playlist by paths, the run, a programme, or the media of a run.
fn parse_player_route(channel: ServedChannel, text: &[u8]) -> Option<Route>
    ensures { result ≡ spec.player_route channel text.now }
{
    let count = channel.renditions;
    if text == b"master.m3u8".as_slice() {
        return Some(Route::PathMaster);
    }
    if text == b"run".as_slice() {
        return Some(Route::Run);
    }
    match find_slash(text) {
        Some(slash) => parse_media_route(count, &text[..slash], &text[slash + 1..]),
        None => {
            let rendition = parse_rendition(count, strip_back(b".m3u8", text)?)?;
            Some(path_list_route(channel, rendition))
        }
    }
}

/// Parses a path with a folder.
fn parse_folder_route(channel: ServedChannel, path: &[u8]) -> Option<Route>
    ensures { result ≡ spec.folder_route channel path.now }
{
    if let Some(text) = strip_front(b"/hls/", path) {
        return parse_player_route(channel, text);
    }
    parse_own_folder_route(channel, path)
}

/// Parses the rendition of an encoder.
fn parse_ingest_route(channel: ServedChannel, number: &[u8]) -> Option<Route>
    ensures { result ≡ spec.ingest_route channel number.now }
{
    let rendition = parse_rendition(channel.renditions, number)?;
    Some(Route::Ingest(IngestTarget {
        rendition,
        mending: channel.mending,
    }))
}

/// Parses a path with a folder of the channel itself.
fn parse_own_folder_route(channel: ServedChannel, path: &[u8]) -> Option<Route>
    ensures { result ≡ spec.own_folder_route channel path.now }
{
    let count = channel.renditions;
    if let Some(number) = strip_front(b"/ingest/", path) {
        return parse_ingest_route(channel, number);
    }
    if let Some(number) = strip_front(b"/finish/", path) {
        return Some(Route::Finish(parse_rendition(count, number)?));
    }
    if let Some(text) = strip_front(b"/live/", path) {
        if text == b"master.m3u8".as_slice() {
            return Some(Route::LiveMaster);
        }
        return Some(Route::LiveList(parse_rendition(count, strip_back(b".m3u8", text)?)?));
    }
    if let Some(text) = strip_front(b"/media/", path) {
        return Some(Route::Media(parse_rendition(count, strip_back(b".mp4", text)?)?));
    }
    parse_job_route(count, strip_front(b"/job/", path)?)
}

/// Returns what a path names in a channel.
pub fn parse_route(channel: ServedChannel, path: &[u8]) -> Option<Route>
    ensures { result ≡ route_of channel path.now }
{
    if path == b"/status".as_slice() {
        return Some(Route::Status);
    }
    if path == b"/metrics".as_slice() {
        return Some(Route::Metrics);
    }
    if path == b"/catchup".as_slice() {
        return Some(Route::CatchUp);
    }
    parse_folder_route(channel, path)
}

fn is_sent(method: Method) -> bool
    ensures { result ≡ spec.is_sent method }
{
    matches!(method, Method::Put | Method::Post)
}

/// Whether a route allows a method.
pub fn allows_method(route: Route, method: Method) -> bool
    ensures { result ≡ spec.allows route method }
{
    match route {
        Route::Ingest(_) => is_sent(method),
        Route::Finish(_) => matches!(method, Method::Post),
        Route::CatchUp => matches!(method, Method::Post),
        Route::Job(_) => matches!(method, Method::Get | Method::Head | Method::Delete),
        _ => matches!(method, Method::Get | Method::Head),
    }
}

/// Returns the number of a route's job, for the job itself and for its files.
pub fn job_at(route: Route) -> Option<u64>
    ensures { result ≡ heard.job_at route }
{
    match route {
        Route::Job(id) => Some(id),
        Route::JobFile(id, _) => Some(id),
        _ => None,
    }
}

/// Whether a request removes the route's job.
pub fn removes_job(route: Route, method: Method) -> bool
    ensures { result ≡ spec.removes_job route method }
{
    matches!(route, Route::Job(_)) && matches!(method, Method::Delete)
}

/// Whether a request's body is ingested in parts.
pub fn takes_ingest(route: Option<Route>, method: Method) -> bool
    ensures { result ≡ spec.takes_ingest route method }
{
    match route {
        Some(Route::Ingest(_)) => is_sent(method),
        _ => false,
    }
}

/// Whether the reply to a request has no body.
pub fn is_head_request(method: Method) -> bool
    ensures { result ≡ spec.is_to_head method }
{
    matches!(method, Method::Head)
}
