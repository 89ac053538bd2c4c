//! The playlists of a programme by its address: a job's playlists, by paths of the channel's recordings.

ghost use Rattle.std.specs.Prelude.{◌≡◌, [], ◌++◌, ◌+◌, ◌<◌, ◌≤◌, All, IfOk, Some, length, map, option_map};
ghost use Rattle.hls_core_laws.specs.Base.{run_text};
ghost use Rattle.hls_m3u8.specs.HasText.{HasText};
ghost use Rattle.hls_m3u8.specs.Lines.{all_segment_lines, media_text, text_of_lines};
ghost use Rattle.hls_m3u8.specs.Playlist.{playlist_of};
ghost use Rattle.hls_playlists_laws.specs.PathLists as paths;
ghost use Rattle.hls_jobs.specs.Programmes as spec;
ghost use Rattle.hls_jobs.specs.Programmes.{CanBeNamed, HasPath};

use bytes::{ByteStr, Bytes};
use hls_catchup::{CutResult, Reply};
use hls_check_tables::{Certificate, CertificateTable};
use hls_core::base::Base;
use hls_core::snapshot::Snapshot;
use hls_m3u8::{
    ByteRange, InitSection, MediaPlaylist, MediaSegment, push_end, push_head, push_segment,
};
use hls_playlists::bytes_between;
use std::alloc::{AllocError, Global};

/// The estimated size of a playlist's head, in bytes.
const HEAD_ROOM: usize = 256;

/// The estimated size of a segment's lines, in bytes.
const SEGMENT_ROOM: usize = 128;

/// Returns the name of a run, without the zero bytes that fill it up.
fn run_name(alloc: Global, base: &Base) -> Result<ByteStr, AllocError>
    ensures { IfOk result (λ name. name ≡ run_text base.now.run) }
{
    Ok(ByteStr::from_known_utf8(Bytes::copy_from_slice(alloc, base.run_name())?))
}

/// Returns the folder of a rendition's media, seen from the folder of a programme's playlists, `/hls/programme/<from>/<to>/`.
fn folder_above(alloc: Global, base: &Base, rendition: usize) -> Result<ByteStr, AllocError>
    ensures { IfOk result (λ folder. folder ≡ spec.folder_above base.now rendition) }
{
    let run = run_name(alloc, base)?;
    let run: &str = &run;
    ByteStr::from_string(format!(in alloc; "../../../{run}/{rendition}/")?)
}

/// Returns the init section in a folder.
fn init_in(alloc: Global, folder: &str) -> Result<InitSection, AllocError>
    ensures { IfOk result (λ init. init ≡ paths.init_in folder.now) }
{
    let uri = ByteStr::from_string(format!(in alloc; "{folder}init.mp4")?)?;
    Ok(InitSection { uri, range: None })
}

/// Returns the path of a range that is `ahead` bytes further, in a folder.
fn path_in(alloc: Global, folder: &str, ahead: u64, range: ByteRange) -> Result<ByteStr, AllocError>
    requires range { range.offset + range.length < 2000000000000000 }
    requires ahead { ahead ≤ 2000000000000000 }
    ensures { IfOk result (λ uri. uri ≡ paths.path_in folder.now (Some (record { length = range.length; offset = ahead + range.offset }))) }
{
    let first = ahead + range.offset;
    let last = (first + range.length).saturating_sub(1);
    ByteStr::from_string(format!(in alloc; "{folder}{first}-{last}.m4s")?)
}

/// Returns a segment of a job's playlist under its path in a folder, `ahead` bytes further.
fn segment_above(
    alloc: Global,
    folder: &str,
    ahead: u64,
    segment: &MediaSegment,
) -> Result<MediaSegment, AllocError>
    requires range { HasPath segment.now.range }
    requires ahead { ahead ≤ 2000000000000000 }
    ensures { IfOk result (λ made. made ≡ spec.segment_above folder.now ahead segment.now) }
{
    let uri = match segment.range {
        Some(range) => path_in(alloc, folder, ahead, range)?,
        None => ByteStr::new(),
    };
    Ok(MediaSegment {
        mark: segment.mark,
        date: segment.date,
        us: segment.us,
        range: None,
        uri,
    })
}

/// Appends the lines of a job's segments under their paths in a folder, `ahead` bytes further.
fn push_segments_above(
    alloc: Global,
    text: &mut Vec<u8>,
    folder: &str,
    ahead: u64,
    segments: &[MediaSegment],
) -> Result<(), AllocError>
    requires segments { All CanBeNamed segments.now }
    requires ahead { ahead ≤ 2000000000000000 }
    ensures { IfOk result (λ done. text.new.items ≡ text.old.items ++ text_of_lines (all_segment_lines (map (spec.segment_above folder.now ahead) segments.now))) }
{
    for segment in segments {
        let by_path = segment_above(alloc, folder, ahead, segment)?;
        push_segment(text, &by_path)?;
    }
    Ok(())
}

/// Returns how far after its place in a job's resource a path counts a unit.
fn bytes_ahead(snapshot: &Snapshot, rendition: usize, table: &CertificateTable) -> u64
    requires { 1 ≤ length table.now.places }
    ensures value { result ≡ spec.bytes_ahead snapshot.now rendition table.now }
    ensures small { result ≤ 2000000000000000 }
{
    let before = snapshot.config().base().bytes(rendition);
    let first = table.place(0).get_or_zero(rendition).fragment;
    match snapshot.recording(rendition) {
        Some(recording) => before + bytes_between(recording, 0, first),
        None => before,
    }
}

/// Returns the head of a job's playlist by paths.
fn head_above(
    alloc: Global,
    folder: &str,
    list: &MediaPlaylist,
) -> Result<MediaPlaylist, AllocError>
    ensures { IfOk result (λ made. playlist_of made ≡ spec.list_in folder.now [] (playlist_of list.now)) }
{
    Ok(MediaPlaylist {
        version: list.version,
        target: list.target,
        media_sequence: list.media_sequence,
        discontinuity_sequence: list.discontinuity_sequence,
        kind: list.kind,
        map: Some(init_in(alloc, folder)?),
        segments: Vec::new(alloc),
        ended: list.ended,
    })
}

/// Writes a job's playlist by paths.
fn write_list_above(
    alloc: Global,
    folder: &str,
    ahead: u64,
    list: &MediaPlaylist,
) -> Result<Vec<u8>, AllocError>
    requires text { HasText (playlist_of list.now) }
    requires ahead { ahead ≤ 2000000000000000 }
    ensures { IfOk result (λ text. text.items ≡ media_text (spec.list_above folder.now ahead (playlist_of list.now))) }
{
    let room = list
        .segments
        .len()
        .saturating_mul(SEGMENT_ROOM)
        .saturating_add(HEAD_ROOM);
    let mut text = Vec::with_capacity(alloc, room)?;
    push_head(&mut text, &head_above(alloc, folder, list)?)?;
    push_segments_above(alloc, &mut text, folder, ahead, list.segments.as_slice())?;
    push_end(&mut text, list.ended)?;
    Ok(text)
}

/// Writes a job's playlist by the paths of the channel's recording, for `/hls/programme/<from>/<to>/`.
fn write_programme_list(
    alloc: Global,
    snapshot: &Snapshot,
    rendition: usize,
    certificate: &Certificate,
    list: &MediaPlaylist,
) -> Result<Vec<u8>, AllocError>
    requires { HasText (playlist_of list.now) }
    ensures { IfOk result (λ text. text.items ≡ media_text (spec.programme_list snapshot.now rendition certificate.now.table (playlist_of list.now))) }
{
    let folder = folder_above(alloc, snapshot.config().base(), rendition)?;
    let ahead = bytes_ahead(snapshot, rendition, certificate.table());
    write_list_above(alloc, &folder, ahead, list)
}

/// Returns the text of a rendition's playlist for `/hls/programme/<from>/<to>/`: that of the job, with a path of the channel's recording
/// for each segment. `None` if the programme has no plan, or there is no such rendition.
pub fn programme_list_text(
    alloc: Global,
    reply: &Reply,
    rendition: usize,
) -> Result<Option<Vec<u8>>, AllocError>
    ensures { IfOk result (λ text. option_map (λ t. t.items) text ≡ spec.programme_list_file reply.now rendition) }
{
    let snapshot = reply.snapshot();
    match reply.cut_result() {
        CutResult::Cut {
            playlists,
            certificate,
        } => match playlists.get(rendition) {
            Some(list) => {
                let text = write_programme_list(alloc, snapshot, rendition, certificate, list)?;
                Ok(Some(text))
            }
            None => Ok(None),
        },
        CutResult::NoCut { .. } => Ok(None),
    }
}
