//! A channel of a video and optionally an audio rendition without any events; `None` if an allocation failed. The target duration is 6
//! s, the preferred length 4 s.

use hls_core::config::Config;
use hls_core::snapshot::Snapshot;
use hls_core_laws::rendition::Rendition;
use hls_sample_channels::{SECOND, rendition};
use std::alloc::Global;

/// Appends a rendition to others.
fn add_rendition(
    alloc: Global,
    renditions: &mut Vec<Rendition>,
    name: &[u8],
    video: bool,
) -> Option<()> {
    renditions.push(rendition(alloc, name, video, 0).ok()?).ok()
}

/// Makes a video rendition, and an audio one if `two`.
pub fn renditions(alloc: Global, two: bool) -> Option<Vec<Rendition>> {
    let mut renditions = Vec::new(alloc);
    add_rendition(alloc, &mut renditions, b"v1", true)?;
    if two {
        add_rendition(alloc, &mut renditions, b"en", false)?;
    }
    Some(renditions)
}

pub fn config(alloc: Global, two: bool) -> Option<Config> {
    Config::new(alloc, 6, 4 * SECOND, renditions(alloc, two)?).ok()
}

pub fn first_snapshot(alloc: Global, two: bool) -> Option<Snapshot> {
    Snapshot::first(alloc, config(alloc, two)?).ok()
}
