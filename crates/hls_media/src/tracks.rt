//! The first tracks of an init section, kept on the stack.

ghost use Rattle.std.specs.Prelude.{◌≡◌, ◌≤◌, List, [], length, map, take};
ghost use Rattle.hls_media_laws.specs.declared.track.Track.{Track};
ghost use Rattle.hls_media.specs.TrexSteps.{track_with_defaults as with_trex_defaults, first_eight};

use hls_media_laws::track::{Track, Trex};
use std::marker::Model;

/// At most the first eight tracks. Contracts see their list.
#[derive(Drop)]
pub struct Tracks {
    slots: [Track; 8],
    count: usize,
}

impl Model for Tracks {
    ghost Value = { List Track };

    ghost view = { λ s. take s.count s.slots };

    ghost invariant = { λ s. s.count ≤ 8 };
}

const NO_TRACK: Track = Track {
    id: 0,
    scale: 0,
    handler: 0,
    defaults: None,
};

impl Tracks {
    pub fn new() -> Tracks
        ensures { result ≡ [] }
    {
        Tracks {
            slots: [NO_TRACK; 8],
            count: 0,
        }
    }

    pub fn as_slice(&self) -> &[Track]
        ensures items { result.now ≡ self.now }
        ensures most { length self.now ≤ 8 }
    {
        &self.slots[..self.count]
    }

    /// Keeps a track if it is among the first eight.
    pub fn keep(&mut self, track: Track)
        ensures { self.new ≡ first_eight self.old track }
    {
        if self.count < 8 {
            self.slots[self.count] = track;
            self.count += 1;
        }
    }

    /// Sets the defaults of a track, unless it has some.
    pub fn set_defaults(&mut self, trex: Trex)
        ensures { self.new ≡ map (with_trex_defaults trex) self.old }
    {
        set_all_defaults(&mut self.slots, trex);
    }
}

/// A track with its defaults.
fn track_with_defaults(track: Track, trex: Trex) -> Track
    ensures { result ≡ with_trex_defaults trex track }
{
    if trex.id != track.id || track.defaults.is_some() {
        return track;
    }
    Track {
        id: track.id,
        scale: track.scale,
        handler: track.handler,
        defaults: Some(trex.defaults),
    }
}

fn set_all_defaults(tracks: &mut [Track], trex: Trex)
    ensures { tracks.new ≡ map (with_trex_defaults trex) tracks.old }
{
    for track in tracks.iter_mut() {
        *track = track_with_defaults(*track, trex);
    }
}
