//! Init sections: their `moov` and their tracks.

ghost use Rattle.std.specs.Prelude.{position, ◌==◌, Some, ◌<◌, ◌≡◌, ◌^◌, ◌≤◌, length, slice_range, option_map, IfSome};
ghost use Rattle.hls_media_laws.specs.declared.track.Track.{Track};
ghost use Rattle.hls_media_laws.specs.Layout.{moov_of};
ghost use Rattle.hls_media_laws.specs.Inits.{init_of, init_of_tracks, timing_index as timing_by_list};
ghost use Rattle.hls_media_laws.specs.IsInitOrUnit.{ReadsAs};
ghost use Rattle.hls_media.specs.declared.moov.ByteSpan.{ByteSpan};

use crate::box_headers::read_uncounted_box_header;
use crate::moov::{ByteSpan, read_tracks};
use crate::track_ids::TrackIds;
use hls_boxes::kinds::{INIT_LIMIT, MDAT, MOOF, MOOV};
use hls_media_laws::fault::MediaFault;
use hls_media_laws::init::Init;
use hls_media_laws::kinds::{MAX_TRACKS, VIDE};
use hls_media_laws::track::Track;
use std::alloc::Global;

/// The position of the content of an init section's `moov`, if the bytes are exactly one init section.
fn find_moov(bytes: &[u8]) -> Option<ByteSpan>
    ensures value { option_map (λ (s : ByteSpan). slice_range bytes.now s.from s.to) result ≡ moov_of bytes.now }
    ensures within { IfSome result (λ s. (s.from ≤ s.to) × (s.to ≤ length bytes.now) × (length bytes.now ≤ 2 ^ 20)) }
{
    if bytes.len() > INIT_LIMIT as usize {
        return None;
    }
    let mut rest = bytes;
    'boxes: while !rest.is_empty() {
        let Some(header) = read_uncounted_box_header(rest) else {
            return None;
        };
        let size = header.size as usize;
        match header.kind {
            MOOV => {
                if size < rest.len() {
                    return None;
                }
                let at = bytes.len() - rest.len();
                return Some(ByteSpan {
                    from: at + header.head as usize,
                    to: at + size,
                });
            }
            MDAT => return None,
            MOOF => return None,
            _ => rest = &rest[size..],
        }
    }
    None
}

/// The number of the first video track.
fn find_video(tracks: &[Track]) -> Option<usize>
    ensures number { result ≡ position (λ (t : Track). t.handler == VIDE) tracks.now }
    ensures in_range { IfSome result (λ i. i < length tracks.now) }
{
    tracks.iter().position(|track| track.handler == VIDE)
}

/// The number of the timing track: the first video track, or else the first track.
fn find_timing_track(tracks: &[Track]) -> usize
    requires { 0 < length tracks.now }
    ensures number { result ≡ timing_by_list tracks.now }
    ensures in_range { result < length tracks.now }
{
    find_video(tracks).unwrap_or(0)
}

/// The init section of these tracks, whose number is within the limit.
fn make_init(alloc: Global, tracks: &[Track]) -> Result<Init, MediaFault>
    requires some { 0 < length tracks.now }
    requires few { length tracks.now ≤ 8 }
    ensures { ReadsAs result (init_of_tracks (Some tracks.now)) }
{
    let timing = find_timing_track(tracks);
    if tracks[timing].scale == 0 {
        return Err(MediaFault::ZeroScale);
    }
    let Ok(init) = Init::new(alloc, tracks, timing) else {
        return Err(MediaFault::Memory);
    };
    Ok(init)
}

/// Reads an init section (ISO/IEC 14496-12 8.2 to 8.4, 8.8.1, 8.8.3): its tracks in order with their `trex` defaults, and the number of the
/// timing track.
///
/// # Errors
/// The first fault, in this order: `BadBox`, `NoTrack`, `TooManyTracks`, `ZeroScale`. `Memory` only for a valid init section, if the
/// allocation to keep it failed.
pub fn read_init(alloc: Global, bytes: &[u8]) -> Result<Init, MediaFault>
    ensures { ReadsAs result (init_of bytes.now) }
{
    let Some(moov) = find_moov(bytes) else {
        return Err(MediaFault::BadBox);
    };
    let mut ids = TrackIds::new();
    let Some(tracks) = read_tracks(&bytes[moov.from..moov.to], &mut ids) else {
        return Err(MediaFault::BadBox);
    };
    if ids.len() == 0 {
        return Err(MediaFault::NoTrack);
    }
    if ids.len() > MAX_TRACKS {
        return Err(MediaFault::TooManyTracks);
    }
    make_init(alloc, tracks.as_slice())
}
