//! The tracks of a rendition that a master playlist speaks of: one picture and one sound at most.

ghost use Rattle.std.specs.Prelude.{◌≡◌};
ghost use Rattle.hls_players_master.specs.Tracks.{no_tracks, with_picture, with_sound, with_track, and_track, tracks_from};

use hls_codecs::codec::Codec;
use hls_codecs::read_track_format;
use hls_codecs::track_format::{
    Channels, DisplaySize, TrackFormat, TrackKind, VideoFormat, VideoRange,
};

/// A video track.
#[derive(Clone, Copy)]
pub struct Picture {
    /// Its number in the init section.
    pub number: usize,
    pub codec: Codec,
    pub size: Option<DisplaySize>,
    pub range: Option<VideoRange>,
}

/// An audio track.
#[derive(Clone, Copy)]
pub struct Sound {
    pub codec: Codec,
    pub channels: Option<Channels>,
    pub language: Option<u16>,
}

/// The tracks of a rendition.
#[derive(Clone, Copy)]
pub struct KnownTracks {
    pub picture: Option<Picture>,
    pub sound: Option<Sound>,
}

fn with_picture(
    number: usize,
    format: TrackFormat,
    video: VideoFormat,
    known: KnownTracks,
) -> Option<KnownTracks>
    ensures { result ≡ with_picture number format video known }
{
    if known.picture.is_some() {
        return None;
    }
    Some(KnownTracks {
        picture: Some(Picture {
            number,
            codec: format.codec,
            size: video.size,
            range: video.range,
        }),
        sound: known.sound,
    })
}

fn with_sound(
    format: TrackFormat,
    channels: Option<Channels>,
    known: KnownTracks,
) -> Option<KnownTracks>
    ensures { result ≡ with_sound format channels known }
{
    if known.sound.is_some() {
        return None;
    }
    Some(KnownTracks {
        picture: known.picture,
        sound: Some(Sound {
            codec: format.codec,
            channels,
            language: format.language,
        }),
    })
}

/// Adds a track; None if there was one of its kind.
#[tactic(auto, unfolding(crate::specs::Tracks::with_track))]
fn with_track(number: usize, format: TrackFormat, known: KnownTracks) -> Option<KnownTracks>
    ensures { result ≡ with_track number format known }
{
    match format.kind {
        TrackKind::Video(video) => with_picture(number, format, video, known),
        TrackKind::Audio(channels) => with_sound(format, channels, known),
    }
}

/// Reads a track and adds it; None if it isn't understood, or there was one of its kind.
fn and_track(init: &[u8], number: usize, known: KnownTracks) -> Option<KnownTracks>
    ensures { result ≡ and_track init.now number known }
{
    let format = read_track_format(init, number)?;
    with_track(number, format, known)
}

/// Reads the tracks of an init section of this many. None if one isn't understood, or two are of one kind.
pub fn read_tracks(init: &[u8], count: usize) -> Option<KnownTracks>
    ensures { result ≡ tracks_from init.now count 0 no_tracks }
{
    let mut known = KnownTracks {
        picture: None,
        sound: None,
    };
    let mut n = 0;
    'tracks: while n < count {
        let Some(more) = and_track(init, n, known) else {
            return None;
        };
        known = more;
        n += 1;
    }
    Some(known)
}
