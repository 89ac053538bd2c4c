//! One rendition of a channel.

ghost use Rattle.std.specs.Prelude.{◌≡◌};

use hls_record::Recording;
use std::marker::Model;

/// One rendition of a channel, as the input of the search for common places.
#[derive(Drop)]
pub struct RenditionSource<'a> {
    recording: &'a Recording,
    tolerance: u64,
    finished: bool,
}

impl<'a> Model for RenditionSource<'a> {
    ghost use Rattle.hls_places_laws.specs.Sources.{Source as SourceData};

    ghost Value = { SourceData };

    ghost view = { λ s. record { facts = s.recording.now.facts; tolerance = s.tolerance; finished = s.finished } };
}

impl<'a> RenditionSource<'a> {
    /// A rendition with an init section. `tolerance` is the maximum distance of its sync sample from that of rendition 0, in microseconds.
    /// `finished` says that no more units come.
    pub fn new(recording: &'a Recording, tolerance: u64, finished: bool) -> RenditionSource<'a>
        ensures { result ≡ record { facts = recording.now.facts; tolerance = tolerance; finished = finished } }
    {
        RenditionSource {
            recording,
            tolerance,
            finished,
        }
    }

    pub(crate) fn recording(&self) -> &'a Recording
        ensures { result.now.facts ≡ self.now.facts }
    {
        self.recording
    }

    pub(crate) fn tolerance(&self) -> u64
        ensures { result ≡ self.now.tolerance }
    {
        self.tolerance
    }

    pub(crate) fn is_finished(&self) -> bool
        ensures { result ≡ self.now.finished }
    {
        self.finished
    }
}
