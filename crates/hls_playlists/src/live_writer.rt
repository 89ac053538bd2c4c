//! Writes the text of a live playlist in parts: a long one takes a tenth of a second, and other connections get their turn in between.

ghost use Rattle.std.specs.Prelude.{◌≡◌, ◌++◌, ◌+◌, ◌<◌, ◌≤◌, ◌^◌, [], IfOk, MatchOption, None, Some, cond, length};
ghost use Rattle.std.specs.Option.{option_map};
ghost use Rattle.hls_check_tables.specs.Tables.{spot_in};
ghost use Rattle.hls_m3u8.specs.HasText.{IsDate};
ghost use Rattle.hls_m3u8.specs.Lines.{media_text};
ghost use Rattle.hls_core_laws.specs.Config.{IsEpoch};
ghost use Rattle.hls_playlists_laws.specs.Live.{live_list_of, live_media_segment};
ghost use Rattle.hls_playlists_laws.specs.JobPlaylists.{job_layout};
ghost use Rattle.hls_places_laws.specs.Line.Live.{segments_of};
ghost use Rattle.hls_places_laws.specs.Line.Lengths.{marks_in};
ghost use Rattle.hls_core_laws.specs.Line.{line};
ghost use Rattle.hls_playlists.specs.ShortLists.{shortened_list_of};
ghost use Rattle.hls_playlists.specs.LiveWriter.{shortened_head, HasSegments, ReachesStop, rest_of_live_list, served_segment_text, live_list_by, list_over_segments};
ghost use Rattle.hls_playlists.specs.MediaUris.{HasRange, media_uri, served_list, served_list_of};
ghost use Rattle.hls_m3u8.specs.Playlist.{playlist_of};
ghost use Rattle.hls_core_laws.specs.IsState.{IsState};

use crate::media_uris::{MediaUris, SegmentForm, marks_before, media_uri, serve_map};
use crate::resource_uri::resource_uri;
use crate::segment_iterator::{first_number, iter_segments_from, next_segment};
use crate::segments::segment_between;
use bytes::ByteStr;
use hls_core::base::Base;
use hls_core::snapshot::Snapshot;
use hls_live::{LiveLine, LiveSegment};
use hls_m3u8::{MediaPlaylist, MediaSegment, PlaylistKind, push_end, push_head, push_segment};
use hls_record::Recording;
use std::alloc::{AllocError, Global};
use std::marker::Model;
use std::sync::Arc;

/// How many segments are written in one part; that takes a few milliseconds.
const PART: u64 = 4096;

/// The initial room for a head, in bytes. A longer text allocates more as it grows.
const HEAD_ROOM: usize = 256;

/// The estimated size of a segment's lines, in bytes.
const SEGMENT_ROOM: usize = 128;

/// The text of a rendition's live playlist in a shared state, partly written, by ranges or by paths. A clause sees the whole text.
#[derive(Drop)]
pub struct LivePlaylistWriter {
    snapshot: Arc<Snapshot>,
    rendition: usize,
    uris: MediaUris,
    /// The number of segments written so far.
    written: u64,
    text: Vec<u8>,
}

impl Model for LivePlaylistWriter {
    ghost use Rattle.std.specs.Prelude.{ℕ, List};
    ghost use Rattle.hls_playlists.specs.LiveWriter.{IsSoundWriter, full_text};

    ghost Value = { List ℕ };

    ghost view = { full_text };

    ghost invariant = { IsSoundWriter };
}

/// Returns the recording of a rendition that has a live playlist.
pub(crate) fn find_listed_recording(snapshot: &Snapshot, rendition: usize) -> Option<&Recording>
    ensures list { MatchOption result (live_list_of snapshot.now rendition ≡ None) (λ recording. live_list_of snapshot.now rendition ≡ Some (live_list_by snapshot.now rendition recording.now)) }
    ensures valid { IsState snapshot.now }
{
    let Some(recording) = snapshot.recording(rendition) else {
        return None;
    };
    if snapshot.line().segments().next() == 0 {
        return None;
    }
    Some(recording)
}

/// Makes the live playlist over a recording, at a URI, with these segments.
pub(crate) fn make_live_playlist(
    snapshot: &Snapshot,
    recording: &Recording,
    uri: ByteStr,
    segments: Vec<MediaSegment>,
) -> MediaPlaylist
    ensures { playlist_of result ≡ list_over_segments snapshot.now recording.now uri segments.items }
{
    let line = snapshot.line();
    MediaPlaylist::live(
        snapshot.config().target(),
        line.removed(),
        line.removed_breaks(),
        uri,
        recording.init_section_bytes().len() as u64,
        segments,
        line.ended(),
    )
}

/// Makes a segment of the live line in one rendition, with its range in the recording.
pub(crate) fn make_media_segment(
    recording: &Recording,
    epoch: Option<i64>,
    rendition: usize,
    uri: &ByteStr,
    segment: &LiveSegment,
) -> Result<MediaSegment, AllocError>
    requires epoch { IsEpoch epoch }
    requires start { (spot_in segment.now.from.spots rendition).start < 2 ^ 53 }
    ensures value { IfOk result (λ made. made ≡ live_media_segment (job_layout epoch recording.now rendition uri.now 0) segment.now) }
    ensures range { IfOk result (λ made. HasRange made.range) }
{
    let uri = uri.clone()?;
    Ok(segment_between(
        recording,
        epoch,
        rendition,
        uri,
        0,
        segment.mark,
        &segment.from.spots,
        &segment.to.spots,
    ))
}

fn push_live_segment(
    alloc: Global,
    text: &mut Vec<u8>,
    form: &SegmentForm<'_>,
    number: u64,
    own: MediaSegment,
) -> Result<(), AllocError>
    requires range { HasRange own.range }
    requires uri { form.now.uri.now ≡ media_uri form.now.uris form.now.base.now form.now.rendition }
    requires length { own.us < 2 ^ 53 }
    requires date { IsDate own.date }
    ensures { IfOk result (λ done. text.new.items ≡ text.old.items ++ served_segment_text form.now.uris form.now.base.now form.now.rendition number own) }
{
    let segment = form.apply(alloc, number, own)?;
    push_segment(text, &segment)?;
    Ok(())
}

/// Writes the segments from number `written` of the playlist to the one before `stop`. Returns how many are written then.
fn push_live_segments(
    alloc: Global,
    text: &mut Vec<u8>,
    served: ServedList<'_>,
    written: u64,
    stop: u64,
) -> Result<u64, AllocError>
    requires { HasSegments served.snapshot.now served.rendition written }
    ensures text { IfOk result (λ k. text.new.items ++ rest_of_live_list served.entry.uris served.entry.snapshot.now served.entry.rendition k ≡ text.old.items ++ rest_of_live_list served.entry.uris served.entry.snapshot.now served.entry.rendition written) }
    ensures has { IfOk result (λ k. HasSegments served.entry.snapshot.now served.entry.rendition k) }
    ensures reaches { IfOk result (λ k. ReachesStop served.entry.snapshot.now served.entry.rendition stop k) }
{
    let Some(recording) = find_listed_recording(served.snapshot, served.rendition) else {
        unreachable!();
    };
    let config = served.snapshot.config();
    let epoch = config.epoch();
    let base = config.base();
    let own_uri = resource_uri(alloc, "/media/", served.rendition)?;
    let uri = media_uri(alloc, served.uris, base, served.rendition)?;
    let form = SegmentForm {
        uris: served.uris,
        base,
        rendition: served.rendition,
        uri: &uri,
    };
    let first = first_number(served.snapshot.line());
    let mut walk = iter_segments_from(served.snapshot.line(), written);
    let mut next = written;
    while next < stop {
        let Some(segment) = next_segment(&mut walk) else {
            return Ok(next);
        };
        let own = make_media_segment(recording, epoch, served.rendition, &own_uri, segment)?;
        push_live_segment(alloc, text, &form, first + next, own)?;
        next += 1;
    }
    Ok(next)
}

/// Returns the estimated size of the text of a playlist with `count` segments.
fn estimate_len(count: u64) -> usize {
    (count as usize)
        .saturating_mul(SEGMENT_ROOM)
        .saturating_add(HEAD_ROOM)
}

/// Which live playlist is written.
#[derive(Clone, Copy)]
struct ServedList<'a> {
    snapshot: &'a Snapshot,
    rendition: usize,
    uris: MediaUris,
}

/// Returns the playlist, which has no segments, as it is served.
#[tactic(auto, using(crate::proofs::Joined::head_served))]
fn serve_head(
    alloc: Global,
    base: &Base,
    rendition: usize,
    uris: MediaUris,
    list: MediaPlaylist,
) -> Result<MediaPlaylist, AllocError>
    requires empty { list.segments.items ≡ [] }
    requires sequence { list.media_sequence < 1000000000000000 }
    requires marks { list.discontinuity_sequence < 1000000000000000 }
    ensures { IfOk result (λ made. playlist_of made ≡ served_list uris base.now rendition (playlist_of list)) }
{
    let number = list.media_sequence;
    let before = marks_before(base, rendition, number);
    let map = serve_map(alloc, uris, base, rendition, list.map)?;
    Ok(MediaPlaylist {
        version: list.version,
        target: list.target,
        media_sequence: base.segments() + number,
        discontinuity_sequence: before + list.discontinuity_sequence,
        kind: list.kind,
        map,
        segments: list.segments,
        ended: list.ended,
    })
}

/// Writes the head of a rendition's live playlist. `None` if there is no playlist.
fn write_head(alloc: Global, served: ServedList<'_>) -> Result<Option<Vec<u8>>, AllocError>
    ensures { IfOk result (λ head. option_map (λ text. text.items ++ rest_of_live_list served.entry.uris served.entry.snapshot.now served.entry.rendition 0) head ≡ option_map media_text (served_list_of served.entry.uris served.entry.snapshot.now served.entry.rendition)) }
{
    let Some(recording) = find_listed_recording(served.snapshot, served.rendition) else {
        return Ok(None);
    };
    let segments = served.snapshot.line().segments();
    let room = estimate_len(segments.next() - segments.first());
    let uri = resource_uri(alloc, "/media/", served.rendition)?;
    let own = make_live_playlist(served.snapshot, recording, uri, Vec::new(alloc));
    let list = serve_head(
        alloc,
        served.snapshot.config().base(),
        served.rendition,
        served.uris,
        own,
    )?;
    let mut text = Vec::with_capacity(alloc, room)?;
    push_head(&mut text, &list)?;
    Ok(Some(text))
}

/// Returns 1 for a segment with a mark, else 0.
fn mark_count(segment: &LiveSegment) -> u64
    ensures { result ≡ cond segment.now.mark 1 0 }
{
    if segment.mark { 1 } else { 0 }
}

/// Returns how many of the first `n` segments of a line have a mark.
fn count_marks(line: &LiveLine, n: u64) -> u64
    requires { n ≤ length (segments_of line.now) }
    ensures value { result ≡ marks_in n (segments_of line.now) }
    ensures few { result ≤ n }
{
    let mut walk = iter_segments_from(line, 0);
    let mut marks = 0;
    let mut next = 0;
    while next < n {
        let Some(segment) = next_segment(&mut walk) else {
            unreachable!();
        };
        marks += mark_count(segment);
        next += 1;
    }
    marks
}

/// Returns the head of a line's playlist without the first `left_out` segments.
fn shorten_head(
    line: &LiveLine,
    left_out: u64,
    kind: Option<PlaylistKind>,
    list: MediaPlaylist,
) -> MediaPlaylist
    requires within { left_out ≤ length (segments_of line.now) }
    requires sequence { list.media_sequence ≡ line.now.removed }
    requires few { list.discontinuity_sequence ≤ line.now.removed }
    ensures value { playlist_of result ≡ shortened_head kind left_out (marks_in left_out (segments_of line.now)) (playlist_of list) }
    ensures sequence { result.media_sequence < 1000000000000000 }
    ensures marks { result.discontinuity_sequence < 1000000000000000 }
{
    let _ = line.segments().next(); // the proof needs that the segments' numbers fit
    MediaPlaylist {
        version: list.version,
        target: list.target,
        media_sequence: list.media_sequence + left_out,
        discontinuity_sequence: list.discontinuity_sequence + count_marks(line, left_out),
        kind,
        map: list.map,
        segments: list.segments,
        ended: list.ended,
    }
}

/// Writes the head of a rendition's live playlist without its first `left_out` segments. `None` if there is no playlist.
fn write_shortened_head(
    alloc: Global,
    served: ServedList<'_>,
    left_out: u64,
    kind: Option<PlaylistKind>,
) -> Result<Option<Vec<u8>>, AllocError>
    requires { left_out ≤ length (segments_of (line served.snapshot.now)) }
    ensures { IfOk result (λ head. option_map (λ text. text.items ++ rest_of_live_list served.entry.uris served.entry.snapshot.now served.entry.rendition left_out) head ≡ option_map media_text (shortened_list_of served.entry.uris kind left_out served.entry.snapshot.now served.entry.rendition)) }
{
    let Some(recording) = find_listed_recording(served.snapshot, served.rendition) else {
        return Ok(None);
    };
    let uri = resource_uri(alloc, "/media/", served.rendition)?;
    let whole = make_live_playlist(served.snapshot, recording, uri, Vec::new(alloc));
    let own = shorten_head(served.snapshot.line(), left_out, kind, whole);
    let list = serve_head(
        alloc,
        served.snapshot.config().base(),
        served.rendition,
        served.uris,
        own,
    )?;
    let mut text = Vec::with_capacity(alloc, HEAD_ROOM)?;
    push_head(&mut text, &list)?;
    Ok(Some(text))
}

impl LivePlaylistWriter {
    /// Starts the text of a rendition's live playlist with its head; it counts from the channel's base. `None` before a segment was
    /// closed, and if the channel has no such rendition.
    pub fn new(
        alloc: Global,
        snapshot: Arc<Snapshot>,
        rendition: usize,
        uris: MediaUris,
    ) -> Result<Option<LivePlaylistWriter>, AllocError>
        ensures { IfOk result (λ found. found ≡ option_map media_text (served_list_of uris snapshot.value rendition)) }
    {
        let served = ServedList {
            snapshot: &snapshot,
            rendition,
            uris,
        };
        let Some(text) = write_head(alloc, served)? else {
            return Ok(None);
        };
        Ok(Some(LivePlaylistWriter {
            snapshot,
            rendition,
            uris,
            written: 0,
            text,
        }))
    }

    /// Starts the text of a rendition's live playlist without its first `left_out` segments, which it counts as removed.
    pub fn new_shortened(
        alloc: Global,
        snapshot: Arc<Snapshot>,
        rendition: usize,
        uris: MediaUris,
        left_out: u64,
        kind: Option<PlaylistKind>,
    ) -> Result<Option<LivePlaylistWriter>, AllocError>
        requires { left_out ≤ length (segments_of (line snapshot.value)) }
        ensures { IfOk result (λ found. found ≡ option_map media_text (shortened_list_of uris kind left_out snapshot.value rendition)) }
    {
        let served = ServedList {
            snapshot: &snapshot,
            rendition,
            uris,
        };
        let Some(text) = write_shortened_head(alloc, served, left_out, kind)? else {
            return Ok(None);
        };
        Ok(Some(LivePlaylistWriter {
            snapshot,
            rendition,
            uris,
            written: left_out,
            text,
        }))
    }

    /// Writes some of the remaining segments. Returns whether more may remain. After an allocation failure the text can't be finished.
    pub fn write_some(&mut self, alloc: Global) -> Result<bool, AllocError>
        ensures { IfOk result (λ more. self.new ≡ self.old) }
    {
        let stop = self.written.saturating_add(PART);
        let served = ServedList {
            snapshot: &self.snapshot,
            rendition: self.rendition,
            uris: self.uris,
        };
        self.written = push_live_segments(alloc, &mut self.text, served, self.written, stop)?;
        Ok(self.written == stop)
    }

    /// Writes all that remains, and returns the text.
    pub fn finish(self, alloc: Global) -> Result<Vec<u8>, AllocError>
        ensures { IfOk result (λ text. text.items ≡ self) }
    {
        let LivePlaylistWriter {
            snapshot,
            rendition,
            uris,
            written,
            text,
        } = self;
        let mut text = text;
        let line = snapshot.line();
        let stop = line.segments().next();
        let served = ServedList {
            snapshot: &snapshot,
            rendition,
            uris,
        };
        let _ = push_live_segments(alloc, &mut text, served, written, stop)?;
        push_end(&mut text, line.ended())?;
        Ok(text)
    }
}
