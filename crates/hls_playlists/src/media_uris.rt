//! How a live playlist names its media, and how it counts from the channel's base.

ghost use Rattle.std.specs.Prelude.{◌≡◌, ◌+◌, ◌<◌, ◌≤◌, ◌^◌, option_map, IfOk, Some};
ghost use Rattle.hls_core_laws.specs.Base.{base_limit, run_text};
ghost use Rattle.hls_playlists_laws.specs.BasedLists.{offsets_from};
ghost use Rattle.hls_playlists_laws.specs.PathLists as paths;
ghost use Rattle.hls_playlists_laws.specs.Handovers.{shifted_range};
ghost use Rattle.hls_playlists_laws.specs.JoinedLists.{joined_segment, marks_uncounted};
ghost use Rattle.hls_playlists.specs.MediaUris as spec;
ghost use Rattle.hls_playlists.specs.MediaUris.{HasRange, HasSmallRange, served_map, served_segment};

use crate::resource_uri::resource_uri;
use bytes::{ByteStr, Bytes};
use hls_core::base::Base;
use hls_m3u8::{ByteRange, InitSection, MediaSegment};
use std::alloc::{AllocError, Global};

/// How a live playlist names its media.
#[derive(Clone, Copy, Debug, PartialEq, Eq, Drop)]
pub enum MediaUris {
    /// Ranges of the recording, `/media/<r>.mp4`.
    Ranges,
    /// A path for each range, `<run>/<r>/<first>-<last>.m4s`, and `<run>/<r>/init.mp4`.
    Paths,
    /// The same paths after `../../`, for a playlist that is two folders further down, as in `/hls/since/<from>/`.
    PathsAbove,
}

/// Returns the name of a run, without the zero bytes that fill it up.
fn run_name(alloc: Global, base: &Base) -> Result<ByteStr, AllocError>
    ensures { IfOk result (λ name. name ≡ run_text base.now.run) }
{
    Ok(ByteStr::from_known_utf8(Bytes::copy_from_slice(alloc, base.run_name())?))
}

/// Returns the folder of a rendition's media beside its playlist: `<run>/<r>/`.
fn media_folder(alloc: Global, base: &Base, rendition: usize) -> Result<ByteStr, AllocError>
    ensures { IfOk result (λ folder. folder ≡ paths.media_folder (run_text base.now.run) rendition) }
{
    let run = run_name(alloc, base)?;
    let run: &str = &run;
    ByteStr::from_string(format!(in alloc; "{run}/{rendition}/")?)
}

/// Returns the folder of a rendition's media, seen from a playlist two folders below: `../../<run>/<r>/`.
fn folder_above(alloc: Global, base: &Base, rendition: usize) -> Result<ByteStr, AllocError>
    ensures { IfOk result (λ folder. folder ≡ paths.media_folder (spec.run_above base.now) rendition) }
{
    let run = run_name(alloc, base)?;
    let run: &str = &run;
    ByteStr::from_string(format!(in alloc; "../../{run}/{rendition}/")?)
}

/// Returns where the URIs of a rendition's media begin: the URI of its recording, or the folder of its paths.
pub(crate) fn media_uri(
    alloc: Global,
    uris: MediaUris,
    base: &Base,
    rendition: usize,
) -> Result<ByteStr, AllocError>
    ensures { IfOk result (λ uri. uri ≡ spec.media_uri uris base.now rendition) }
{
    match uris {
        MediaUris::Ranges => resource_uri(alloc, "/media/", rendition),
        MediaUris::Paths => media_folder(alloc, base, rendition),
        MediaUris::PathsAbove => folder_above(alloc, base, rendition),
    }
}

/// Returns the init section of a folder.
fn init_in(alloc: Global, folder: &str) -> Result<InitSection, AllocError>
    ensures { IfOk result (λ init. init ≡ paths.init_in folder.now) }
{
    let uri = ByteStr::from_string(format!(in alloc; "{folder}init.mp4")?)?;
    Ok(InitSection { uri, range: None })
}

/// Returns a range as the channel's playlists count it, after the bytes that precede.
fn shift_range(range: Option<ByteRange>, bytes: u64) -> Option<ByteRange>
    requires range { HasRange range }
    requires bytes { bytes ≤ base_limit }
    ensures value { result ≡ option_map (shifted_range bytes) range }
    ensures small { HasSmallRange result }
{
    let range = range?;
    Some(ByteRange {
        length: range.length,
        offset: bytes + range.offset,
    })
}

/// Returns the segment with a media sequence number, as the channel's playlists count it: the first segment of the process has the
/// mark that the base says.
#[tactic(auto, using(crate::proofs::Joined::joined_first, crate::proofs::Joined::joined_other))]
fn join_segment(base: &Base, rendition: usize, number: u64, segment: MediaSegment) -> MediaSegment
    requires { HasRange segment.range }
    ensures value { result ≡ joined_segment (offsets_from base.now rendition) number segment }
    ensures small { HasSmallRange result.range }
{
    let MediaSegment {
        mark,
        date,
        us,
        range,
        uri,
    } = segment;
    let range = shift_range(range, base.bytes(rendition));
    if number == 0 {
        return MediaSegment {
            mark: base.marked(),
            date,
            us,
            range,
            uri,
        };
    }
    MediaSegment {
        mark,
        date,
        us,
        range,
        uri,
    }
}

/// Returns the path of a range in a folder.
fn path_in(alloc: Global, folder: &str, range: ByteRange) -> Result<ByteStr, AllocError>
    requires { range.offset + range.length < 2 ^ 64 }
    ensures { IfOk result (λ uri. uri ≡ paths.path_in folder.now (Some range)) }
{
    let first = range.offset;
    let last = (range.offset + range.length).saturating_sub(1);
    ByteStr::from_string(format!(in alloc; "{folder}{first}-{last}.m4s")?)
}

/// Returns a segment under its path in a folder.
fn segment_in(
    alloc: Global,
    folder: &str,
    segment: MediaSegment,
) -> Result<MediaSegment, AllocError>
    requires { HasSmallRange segment.range }
    ensures { IfOk result (λ made. made ≡ paths.segment_in folder.now segment) }
{
    let uri = match segment.range {
        Some(range) => path_in(alloc, folder, range)?,
        None => ByteStr::new(),
    };
    Ok(MediaSegment {
        mark: segment.mark,
        date: segment.date,
        us: segment.us,
        range: None,
        uri,
    })
}

/// Where the segments of a rendition are, and from where they count.
#[derive(Clone, Copy)]
pub(crate) struct SegmentForm<'a> {
    pub uris: MediaUris,
    pub base: &'a Base,
    pub rendition: usize,
    /// Where the URIs begin.
    pub uri: &'a ByteStr,
}

impl<'a> SegmentForm<'a> {
    /// Returns the segment with a media sequence number as it is served.
    pub fn apply(
        &self,
        alloc: Global,
        number: u64,
        segment: MediaSegment,
    ) -> Result<MediaSegment, AllocError>
        requires range { HasRange segment.range }
        requires uri { self.now.uri.now ≡ spec.media_uri self.now.uris self.now.base.now self.now.rendition }
        ensures { IfOk result (λ made. made ≡ served_segment self.now.uris self.now.base.now self.now.rendition number segment) }
    {
        let segment = join_segment(self.base, self.rendition, number, segment);
        match self.uris {
            MediaUris::Ranges => Ok(segment),
            MediaUris::Paths | MediaUris::PathsAbove => segment_in(alloc, self.uri, segment),
        }
    }
}

/// Returns how many marks a playlist has to count that begins at a media sequence number: the base's, and that of the first segment of
/// the process, once the segment is gone.
#[tactic(auto, using(crate::proofs::Joined::none_uncounted, crate::proofs::Joined::one_uncounted, crate::proofs::Joined::unmarked_uncounted))]
pub(crate) fn marks_before(base: &Base, rendition: usize, number: u64) -> u64
    ensures value { result ≡ base.now.marks + marks_uncounted (offsets_from base.now rendition) number }
    ensures small { result ≤ base_limit + 1 }
{
    if number == 0 {
        return base.marks();
    }
    if base.marked() {
        return base.marks() + 1;
    }
    base.marks()
}

/// Returns the init section that a playlist names, instead of the recording's own.
pub(crate) fn serve_map(
    alloc: Global,
    uris: MediaUris,
    base: &Base,
    rendition: usize,
    own: Option<InitSection>,
) -> Result<Option<InitSection>, AllocError>
    ensures { IfOk result (λ map. map ≡ served_map uris base.now rendition own) }
{
    match uris {
        MediaUris::Ranges => Ok(own),
        MediaUris::Paths => Ok(Some(init_in(alloc, &media_folder(alloc, base, rendition)?)?)),
        MediaUris::PathsAbove => Ok(Some(init_in(alloc, &folder_above(alloc, base, rendition)?)?)),
    }
}
