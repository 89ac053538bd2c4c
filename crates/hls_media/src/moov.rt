//! Movie boxes (ISO/IEC 14496-12 8.2.1): their tracks and their `mvex`.

ghost use Rattle.std.proofs.Common.{rules};
ghost use Rattle.std.specs.Prelude.{◌≡◌, ◌^◌, ◌<◌, ◌≤◌, true, Some, [], length, IfSome, option_map, if◌then◌else◌, None};
ghost use Rattle.hls_media_laws.specs.Inits.{track_at as track_by_lists, tracks_of};
ghost use Rattle.hls_media.specs.Folds.{fold_content};
ghost use Rattle.hls_media.specs.declared.moov.MoovExtras.{MoovExtras};
ghost use Rattle.hls_media.specs.TrexSteps.{trex_step};
ghost use Rattle.hls_media.specs.MoovSteps.{moov_step, no_contents, contents_with, AddsTrack, AreTracks};

use crate::box_fields::parse_trex;
use crate::box_headers::read_uncounted_box_header;
use crate::box_visitor::{BoxVisitor, visit_boxes};
use crate::track_ids::TrackIds;
use crate::tracks::Tracks;
use crate::trak::parse_trak;
use hls_media_laws::kinds::{MVEX, TRAK, TREX};
use hls_time::Ticks;

/// A range of bytes.
#[derive(Clone, Copy)]
pub struct ByteSpan {
    pub from: usize,
    pub to: usize,
}

/// Adds the track of the `trak` with this content. Returns whether it is valid and its number is new.
fn add_track(ids: &mut TrackIds, tracks: &mut Tracks, content: &[u8]) -> bool
    requires len { length content.now ≤ 2 ^ 20 }
    requires room { 76 ≤ length content.now → length ids.old < 16384 }
    ensures value { AddsTrack result (track_by_lists content.now) ids.old tracks.old ids.new tracks.new }
    ensures least { result ≡ true → 76 ≤ length content.now }
{
    let Some(track) = parse_trak(content) else {
        return false;
    };
    if ids.contains(track.id) {
        return false;
    }
    ids.push(track.id);
    tracks.keep(track);
    true
}

/// The contents of a `moov` other than its tracks.
#[derive(Clone, Copy)]
pub struct MoovExtras {
    /// The content of the first `mvex`.
    pub mvex: Option<ByteSpan>,
}

/// Collects the tracks of the `moov` with this content: all their numbers, and the first eight tracks. Returns None if a box isn't valid or
/// two tracks have the same number.
fn collect_tracks(moov: &[u8], ids: &mut TrackIds, tracks: &mut Tracks) -> Option<MoovExtras>
    requires len { length moov.now ≤ 2 ^ 20 }
    requires no_ids { ids.old ≡ [] }
    requires no_tracks { tracks.old ≡ [] }
    ensures value { fold_content moov_step Some no_contents moov.now ≡ option_map (λ (r : MoovExtras). contents_with moov.now ids.new tracks.new r.mvex) result }
    ensures within { IfSome result (λ r. IfSome r.mvex (λ s. (s.from ≤ s.to) × (s.to ≤ length moov.now))) }
{
    let mut mvex: Option<ByteSpan> = None;
    let mut rest = moov;
    'boxes: while !rest.is_empty() {
        let Some(header) = read_uncounted_box_header(rest) else {
            return None;
        };
        let head = header.head as usize;
        let size = header.size as usize;
        match header.kind {
            TRAK => {
                if !add_track(ids, tracks, &rest[head..size]) {
                    return None;
                }
                rest = &rest[size..];
            }
            MVEX => {
                let at = moov.len() - rest.len();
                let found = ByteSpan {
                    from: at + head,
                    to: at + size,
                };
                mvex = mvex.or(Some(found));
                rest = &rest[size..];
            }
            _ => rest = &rest[size..],
        }
    }
    Some(MoovExtras { mvex })
}

/// The visitor of an `mvex`, which collects the defaults of tracks.
#[derive(Clone, Copy)]
pub struct MvexVisitor;

impl BoxVisitor for MvexVisitor {
    type Found = Tracks;

    ghost step = { λ _ tracks kind content. trex_step tracks kind content };

    ghost known = { λ _ _ _. Unit {0} };

    ghost fields = { 1 };

    fn visit_box(
        &self,
        state: Tracks,
        kind: u32,
        content: &[u8],
        ticks: &mut Ticks,
    ) -> Option<Tracks> {
        if kind != TREX {
            return Some(state);
        }
        let trex = parse_trex(content)?;
        let mut tracks = state;
        tracks.set_defaults(trex);
        Some(tracks)
    }

    ghost stays_known = { λ _ _ _ _ _ known. known };

    ghost some = { Prim.search rules };
}

/// The tracks with the defaults of the `mvex` with this content, if its relevant boxes are valid.
fn apply_mvex(mvex: &[u8], tracks: Tracks) -> Option<Tracks>
    requires { length mvex.now ≤ 2 ^ 20 }
    ensures { result ≡ fold_content trex_step Some tracks mvex.now }
{
    visit_boxes(&MvexVisitor, tracks, mvex, &mut Ticks::new())
}

/// Reads the tracks of the `moov` with this content: all their numbers, and the first eight tracks with their defaults. Returns None if a
/// relevant box isn't valid, or two tracks have the same number.
pub fn read_tracks(moov: &[u8], ids: &mut TrackIds) -> Option<Tracks>
    requires len { length moov.now ≤ 2 ^ 20 }
    requires no_ids { ids.old ≡ [] }
    ensures { AreTracks result (tracks_of moov.now) ids.new }
{
    let mut tracks = Tracks::new();
    let Some(rest) = collect_tracks(moov, ids, &mut tracks) else {
        return None;
    };
    let Some(mvex) = rest.mvex else {
        return Some(tracks);
    };
    apply_mvex(&moov[mvex.from..mvex.to], tracks)
}
