//! Which rendition the live playlists wait for.

ghost use Rattle.std.specs.Prelude.{◌≡◌, ◌≤◌, IfSome, IfNone, length};
ghost use Rattle.hls_housekeeper.specs.Lags.{IsFirstLate, NoneLate, lag_between, earlier_begin, first_begin, last_end, is_late_between, later_end};

/// The time range in which a rendition has sync samples, in microseconds of the channel's time.
#[derive(Clone, Copy)]
pub struct MediaExtent {
    /// The start of its first unit.
    pub from: u64,
    /// The start of its last unit that begins with a sync sample: each later place waits for another one.
    pub until: u64,
}

/// The progress of a rendition, as far as it matters to the live playlists.
#[derive(Clone, Copy)]
pub struct RenditionProgress {
    /// `None` before its first unit that begins with a sync sample.
    pub extent: Option<MediaExtent>,
    /// No further unit will arrive, so nothing waits for this rendition.
    pub finished: bool,
}

/// A rendition that the live playlists wait for.
#[derive(Clone, Copy)]
pub struct LateRendition {
    pub rendition: usize,
    /// Whether it has begun.
    pub begun: bool,
    /// How far it lags the others, in microseconds.
    pub lag: u64,
}

/// Returns the later of `end` and the rendition's last sync sample.
fn max_end(end: u64, extent: Option<MediaExtent>) -> u64
    ensures { result ≡ later_end end extent }
{
    match extent {
        None => end,
        Some(extent) => extent.until.max(end),
    }
}

/// Returns the earlier of `begin` and the rendition's start.
fn min_begin(begin: u64, extent: Option<MediaExtent>) -> u64
    ensures { result ≡ earlier_begin begin extent }
{
    match extent {
        None => begin,
        Some(extent) => extent.from.min(begin),
    }
}

/// Returns the latest sync sample of all renditions; 0 where none has begun.
fn latest_end(all_progress: &[RenditionProgress]) -> u64
    ensures { result ≡ last_end all_progress.now }
{
    all_progress
        .iter()
        .fold(0, |end, progress| max_end(end, progress.extent))
}

/// Returns the earliest start of all renditions; `end` where none has begun.
fn earliest_begin(all_progress: &[RenditionProgress], end: u64) -> u64
    ensures { result ≡ first_begin end all_progress.now }
{
    all_progress
        .iter()
        .fold(end, |begin, progress| min_begin(begin, progress.extent))
}

/// Returns how far a rendition lags the others, whose sync samples are from `begin` to `end`.
fn lag_us(progress: RenditionProgress, begin: u64, end: u64) -> u64
    ensures { result ≡ lag_between begin end progress.extent }
{
    match progress.extent {
        None => end.saturating_sub(begin),
        Some(extent) => end.saturating_sub(extent.until),
    }
}

/// Whether the others have more than three target durations in which no place can be decided because of this rendition.
fn is_late(target: u64, progress: RenditionProgress, begin: u64, end: u64) -> bool
    requires { target ≤ 3600 }
    ensures { result ≡ is_late_between target begin end progress }
{
    !progress.finished && lag_us(progress, begin, end) > 3_000_000 * target
}

/// Returns the first unfinished rendition that lags the others by more than three target durations. `target` is in seconds.
pub fn find_first_late(target: u64, all_progress: &[RenditionProgress]) -> Option<LateRendition>
    requires { target ≤ 3600 }
    ensures some { IfSome result (IsFirstLate target all_progress.now) }
    ensures none { IfNone result (NoneLate target all_progress.now (length all_progress.now)) }
{
    let end = latest_end(all_progress);
    let begin = earliest_begin(all_progress, end);
    for rendition in 0..all_progress.len() {
        let progress = all_progress[rendition];
        if is_late(target, progress, begin, end) {
            return Some(LateRendition {
                rendition,
                begun: progress.extent.is_some(),
                lag: lag_us(progress, begin, end),
            });
        }
    }
    None
}
