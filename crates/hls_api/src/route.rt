//! The routes of a server.

use crate::catchup_query::TimePoint;
use hls_mend_laws::settings::MendSettings;

/// What paths are read for: how many renditions the channel has, how far their units are mended, if they are, and how many microseconds
/// the live playlists by paths show, if it isn't all that the line keeps.
#[derive(Clone, Copy, Drop)]
pub struct ServedChannel {
    pub renditions: usize,
    pub mending: Option<MendSettings>,
    pub shown_us: Option<u64>,
}

/// What an encoder's body is for: a rendition, and how far its units are mended, if they are.
#[derive(Clone, Copy, Debug, PartialEq, Eq, Drop)]
pub struct IngestTarget {
    pub rendition: usize,
    pub mending: Option<MendSettings>,
}

/// What a path names. Renditions count from 0 and are those of the channel; jobs count from 1.
#[derive(Clone, Copy, Debug, PartialEq, Eq, Drop)]
pub enum Route {
    /// `/ingest/<r>`.
    Ingest(IngestTarget),
    /// `/finish/<r>`.
    Finish(usize),
    /// `/live/master.m3u8`.
    LiveMaster,
    /// `/live/<r>.m3u8`.
    LiveList(usize),
    /// `/media/<r>.mp4`.
    Media(usize),
    /// `/catchup`.
    CatchUp,
    /// `/job/<id>`; 2^53 is used for every number that no job has.
    Job(u64),
    /// A file of a job.
    JobFile(u64, JobFile),
    /// `/status`.
    Status,
    /// `/metrics`.
    Metrics,
    /// `/hls/master.m3u8`.
    PathMaster,
    /// `/hls/<r>.m3u8`.
    PathList(usize),
    /// The same path, if it shows so many microseconds.
    RecentList(usize, u64),
    /// `/hls/run`.
    Run,
    /// `/hls/<run>/<r>/init.mp4`. The run's name is filled up with zero bytes.
    InitSection([u8; 16], usize),
    /// `/hls/<run>/<r>/<first>-<last>.m4s`: the rendition's bytes from the first to the last one.
    Segment([u8; 16], usize, u64, u64),
    /// `/hls/programme/<from>/<to>/` and a file: the programme's start, its end, and the file.
    Programme(TimePoint, TimePoint, ProgrammeFile),
    /// `/hls/since/<from>/` and a file: the time, and the file.
    Since(TimePoint, SinceFile),
}

/// A file of the playlists that start at a time.
#[derive(Clone, Copy, Debug, PartialEq, Eq, Drop)]
pub enum SinceFile {
    /// `master.m3u8`.
    Master,
    /// `<r>.m3u8`.
    List(usize),
}

/// A file of a programme by its address.
#[derive(Clone, Copy, Debug, PartialEq, Eq, Drop)]
pub enum ProgrammeFile {
    /// `master.m3u8`.
    Master,
    /// `<r>.m3u8`.
    List(usize),
    /// `certificate.txt`.
    Certificate,
}

/// A file of a job.
#[derive(Clone, Copy, Debug, PartialEq, Eq, Drop)]
pub enum JobFile {
    /// `master.m3u8`.
    Master,
    /// `<r>.m3u8`.
    List(usize),
    /// `<r>.mp4`.
    Media(usize),
    /// `certificate.txt`.
    Certificate,
}
