//! A cache of live playlists: players request the same few repeatedly, mostly in the latest state.

ghost use Rattle.std.specs.Prelude.{◌≡◌, IfOk, IfSome, None, Some};
ghost use Rattle.hls_api.specs.{Players.live_list_answer, PlaylistCache.{HasSameListsBefore, live_text_in}};

use crate::playlist_responses::{playlist_response, with_list_policy};
use crate::response::Response;
use crate::response_content::ResponseContent;
use crate::text_responses::fault_response;
use hls_core::snapshot::Snapshot;
use hls_http::fault::HttpFault;
use hls_playlists::{LivePlaylistWriter, MediaUris};
use http_server::Log;
use std::alloc::{AllocError, Global};
use std::marker::Model;
use std::sync::Arc;

/// The longest text that is cached, in bytes; each response copies it.
const MAX_CACHED_BYTES: usize = 65536;

/// The text of a rendition's live playlist, by ranges or by paths.
#[derive(Drop)]
pub(crate) struct CachedPlaylist {
    rendition: usize,
    uris: MediaUris,
    text: Vec<u8>,
}

/// The live playlists of one state, each cached if it isn't long. A clause sees that state, if there is one; the cache doesn't hold
/// it, so it keeps no media alive.
#[derive(Drop)]
pub struct PlaylistCache {
    alloc: Global,
    /// The number of events of the state.
    version: u64,
    lists: Vec<CachedPlaylist>,
    /// The state, only for proofs.
    source: Log<Arc<Snapshot>, ()>,
}

impl Model for PlaylistCache {
    ghost use Rattle.std.specs.Prelude.{Option};
    ghost use Rattle.hls_core_laws.specs.State.{State};
    ghost use Rattle.hls_api.specs.PlaylistCache.{AreListsOf, noted_state};

    ghost Value = { Option State };

    ghost view = { λ r. noted_state r.source.items };

    ghost invariant = { λ r. AreListsOf (noted_state r.source.items) r.version r.lists.items };
}

impl PlaylistCache {
    /// Creates an empty cache without a state. Doesn't allocate.
    pub fn new(alloc: Global) -> PlaylistCache
        ensures { result ≡ None }
    {
        PlaylistCache {
            alloc,
            version: 0,
            lists: Vec::new(alloc),
            source: Log::new(),
        }
    }

    /// Returns the cached text of a rendition's playlist.
    fn lookup(&self, rendition: usize, uris: MediaUris) -> Option<&[u8]>
        ensures { IfSome result (λ text. live_text_in self.now uris rendition ≡ Some text.now) }
    {
        for kept in &self.lists {
            if kept.rendition == rendition && kept.uris == uris {
                return Some(kept.text.as_slice());
            }
        }
        None
    }

    /// Switches to a state: the playlists of another one are dropped.
    fn switch_to(&mut self, state: &Arc<Snapshot>)
        requires { HasSameListsBefore self.old state.now.value }
        ensures { self.new ≡ Some state.now.value }
    {
        let version = state.version();
        if version != self.version {
            self.lists.clear();
        }
        self.version = version;
        self.source = Log::new().and(state, &());
    }

    /// Caches the text of a rendition's playlist, if it isn't long and can be allocated.
    #[tactic(auto, using(crate::proofs::Recents::pushed))]
    fn store(&mut self, rendition: usize, uris: MediaUris, text: &[u8])
        requires { live_text_in self.old uris rendition ≡ Some text.now }
        ensures { self.new ≡ self.old }
    {
        if text.len() > MAX_CACHED_BYTES {
            return;
        }
        if let Ok(text) = Vec::from_slice(self.alloc, text) {
            let _ = self.lists.push(CachedPlaylist {
                rendition,
                uris,
                text,
            });
        }
    }

    /// Makes a rendition's playlist, and caches it if it is made in one part.
    fn render(
        &mut self,
        state: Arc<Snapshot>,
        rendition: usize,
        uris: MediaUris,
    ) -> Result<Response, AllocError>
        requires { self.old ≡ Some state.value }
        ensures state { self.new ≡ self.old }
        ensures answer { IfOk result (λ a. a ≡ live_list_answer uris state.value rendition) }
    {
        let Some(mut text) = LivePlaylistWriter::new(self.alloc, state, rendition, uris)? else {
            let missing = fault_response(self.alloc, HttpFault::NotFound)?;
            return Ok(with_list_policy(missing, uris));
        };
        if text.write_some(self.alloc)? {
            let long = playlist_response(ResponseContent::List(text));
            return Ok(with_list_policy(long, uris));
        }
        let text = text.finish(self.alloc)?;
        self.store(rendition, uris, &text);
        Ok(with_list_policy(playlist_response(ResponseContent::from_text(text)), uris))
    }

    /// Returns the live playlist of a rendition in a state, whose playlists the cache keeps from then on; a long one may be partly
    /// written. 404 before a segment was closed.
    pub fn get_or_render(
        &mut self,
        state: Arc<Snapshot>,
        rendition: usize,
        uris: MediaUris,
    ) -> Result<Response, AllocError>
        requires { HasSameListsBefore self.old state.value }
        ensures state { self.new ≡ Some state.value }
        ensures answer { IfOk result (λ a. a ≡ live_list_answer uris state.value rendition) }
    {
        self.switch_to(&state);
        if let Some(text) = self.lookup(rendition, uris) {
            let text = Vec::from_slice(self.alloc, text)?;
            let cached = playlist_response(ResponseContent::from_text(text));
            return Ok(with_list_policy(cached, uris));
        }
        self.render(state, rendition, uris)
    }
}
