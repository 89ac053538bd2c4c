//! The renditions of a channel.

ghost use Rattle.std.specs.Prelude.{◌≡◌, ◌<◌, ◌≤◌, length};
ghost use Rattle.hls_places_laws.specs.Sources.{source_at};
ghost use Rattle.hls_places.specs.Searches.{AreInOrder};
ghost use Rattle.hls_check_tables.specs.Tables.{rendition_limit};

use crate::rendition_source::RenditionSource;
use hls_record::Recording;
use std::marker::Model;

/// The renditions of a channel: at most sixteen.
#[derive(Drop)]
pub(crate) struct RenditionSources<'s, 'a> {
    sources: &'s [RenditionSource<'a>],
}

impl<'s, 'a> Model for RenditionSources<'s, 'a> {
    ghost use Rattle.std.specs.Prelude.{◌≤◌, List, length};
    ghost use Rattle.hls_check_tables.specs.Tables.{rendition_limit};
    ghost use Rattle.hls_places_laws.specs.Sources.{Source};

    ghost Value = { List Source };

    ghost view = { λ r. r.sources.now };

    ghost invariant = { λ r. length r.sources.now ≤ rendition_limit };
}

impl<'s, 'a> RenditionSources<'s, 'a> {
    pub(crate) fn new(sources: &'s [RenditionSource<'a>]) -> RenditionSources<'s, 'a>
        requires { length sources.now ≤ rendition_limit }
        ensures { result ≡ sources.now }
    {
        RenditionSources { sources }
    }

    pub(crate) fn len(&self) -> usize
        ensures { result ≡ length self.now }
    {
        self.sources.len()
    }

    pub(crate) fn recording(&self, r: usize) -> &'a Recording
        requires { r < length self.now }
        ensures { result.now.facts ≡ (source_at self.now r).facts }
    {
        self.at(r).recording()
    }

    pub(crate) fn tolerance(&self, r: usize) -> u64
        requires { r < length self.now }
        ensures { result ≡ (source_at self.now r).tolerance }
    {
        self.at(r).tolerance()
    }

    pub(crate) fn is_finished(&self, r: usize) -> bool
        requires { r < length self.now }
        ensures { result ≡ (source_at self.now r).finished }
    {
        self.at(r).is_finished()
    }

    fn at(&self, r: usize) -> &'s RenditionSource<'a>
        requires { r < length self.now }
        ensures { result.now ≡ source_at self.now r }
    {
        let sources = self.sources;
        &sources[r]
    }

    /// Each rendition's units are in order: for the proof, which gets this from `count`.
    pub(crate) fn look_at_order(&self)
        ensures { AreInOrder self.now }
    {
        for r in 0..self.len() {
            let _count = self.recording(r).count();
        }
    }
}
