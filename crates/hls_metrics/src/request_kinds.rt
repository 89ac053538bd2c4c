//! Requests by route and status.

ghost use Rattle.std.specs.Prelude.{◌<◌};

/// The statuses of responses.
pub(crate) const STATUS_CODES: [u64; 14] = [
    200, 202, 204, 206, 400, 404, 405, 409, 410, 413, 416, 431, 503, 507,
];

/// How many kinds of requests are counted: eleven kinds of routes, by 14 statuses.
pub const REQUEST_KINDS: usize = 154;

/// The kind of a route.
#[derive(Clone, Copy)]
pub enum RouteKind {
    Ingest = 0,
    Finish = 1,
    /// The live playlists and their master.
    Live = 2,
    Media = 3,
    CatchUp = 4,
    /// A job, or one of its files.
    Job = 5,
    /// The status, the metrics, and the run.
    Status = 6,
    /// The playlists below `/hls/`.
    Playlist = 7,
    /// The init sections and segments below `/hls/`.
    Segment = 8,
    /// The files of a programme by its address.
    Programme = 9,
    /// A path that names nothing.
    Other = 10,
}

/// Returns the number of a kind of requests: those of a route that were answered with a status. An unknown status counts as the last
/// one.
pub fn request_kind(route: RouteKind, status: u64) -> usize
    ensures { result < 154 }
{
    let found = STATUS_CODES.iter().position(|code| *code == status);
    (route as usize).min(10) * 14 + found.unwrap_or(13).min(13)
}
