//! Writes paths, as [`parse_route`](crate::parse_route::parse_route) reads them.

use crate::catchup_query::TimePoint;
use crate::route::{JobFile, ProgrammeFile, Route, SinceFile};
use std::fmt::{self, Display, Formatter, Write};

/// The path of a route; `-` for a path that named none.
#[derive(Clone, Copy, Drop)]
pub struct RoutePath(pub Option<Route>);

impl Display for RoutePath {
    fn fmt<W: Write>(&self, f: &mut Formatter<W>) -> fmt::Result {
        match self.0 {
            None => f.write_str("-"),
            Some(Route::Ingest(target)) => write!(f, "/ingest/{}", target.rendition),
            Some(Route::Finish(n)) => write!(f, "/finish/{n}"),
            Some(Route::LiveMaster) => f.write_str("/live/master.m3u8"),
            Some(Route::LiveList(n)) => write!(f, "/live/{n}.m3u8"),
            Some(Route::Media(n)) => write!(f, "/media/{n}.mp4"),
            Some(Route::CatchUp) => f.write_str("/catchup"),
            Some(Route::Job(id)) => write!(f, "/job/{id}"),
            Some(Route::JobFile(id, file)) => {
                write!(f, "/job/{id}/")?;
                write_job_file(f, file)
            }
            Some(Route::Status) => f.write_str("/status"),
            Some(Route::Metrics) => f.write_str("/metrics"),
            Some(Route::PathMaster) => f.write_str("/hls/master.m3u8"),
            Some(Route::PathList(n) | Route::RecentList(n, _)) => write!(f, "/hls/{n}.m3u8"),
            Some(Route::Run) => f.write_str("/hls/run"),
            Some(Route::InitSection(run, n)) => {
                f.write_str("/hls/")?;
                write_run(f, &run)?;
                write!(f, "/{n}/init.mp4")
            }
            Some(Route::Segment(run, n, first, last)) => {
                f.write_str("/hls/")?;
                write_run(f, &run)?;
                write!(f, "/{n}/{first}-{last}.m4s")
            }
            Some(Route::Programme(start, stop, file)) => {
                f.write_str("/hls/programme/")?;
                write_time(f, start)?;
                write_time(f, stop)?;
                write_file(f, file)
            }
            Some(Route::Since(start, file)) => {
                f.write_str("/hls/since/")?;
                write_time(f, start)?;
                write_since_file(f, file)
            }
        }
    }
}

/// Writes a time and a slash; an instant by its microseconds since 1970, after `@`.
fn write_time<W: Write>(f: &mut Formatter<W>, time: TimePoint) -> fmt::Result {
    match time {
        TimePoint::Time(us) => write!(f, "{us}/"),
        TimePoint::Instant(us) => write!(f, "@{us}/"),
    }
}

/// Writes the name of a job's file.
fn write_job_file<W: Write>(f: &mut Formatter<W>, file: JobFile) -> fmt::Result {
    match file {
        JobFile::Master => f.write_str("master.m3u8"),
        JobFile::List(n) => write!(f, "{n}.m3u8"),
        JobFile::Media(n) => write!(f, "{n}.mp4"),
        JobFile::Certificate => f.write_str("certificate.txt"),
    }
}

/// Writes the name of a programme's file.
fn write_file<W: Write>(f: &mut Formatter<W>, file: ProgrammeFile) -> fmt::Result {
    match file {
        ProgrammeFile::Master => f.write_str("master.m3u8"),
        ProgrammeFile::List(n) => write!(f, "{n}.m3u8"),
        ProgrammeFile::Certificate => f.write_str("certificate.txt"),
    }
}

/// Writes the name of a file of the playlists that start at a time.
fn write_since_file<W: Write>(f: &mut Formatter<W>, file: SinceFile) -> fmt::Result {
    match file {
        SinceFile::Master => f.write_str("master.m3u8"),
        SinceFile::List(n) => write!(f, "{n}.m3u8"),
    }
}

/// Writes the name of a run, without the zero bytes that fill it up.
fn write_run<W: Write>(f: &mut Formatter<W>, run: &[u8; 16]) -> fmt::Result {
    for byte in run {
        if *byte != 0 {
            f.write_char(*byte as char)?;
        }
    }
    Ok(())
}
