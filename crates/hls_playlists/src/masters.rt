//! The master playlists of a channel and of a job (RFC 8216 section 4.3.4).

ghost use Rattle.std.specs.Prelude.{◌≡◌, All, IfOk};
ghost use Rattle.std.specs.List.{list_any};
ghost use Rattle.hls_core_laws.specs.Config.{IsName};
ghost use Rattle.hls_m3u8.specs.Masters.{master_of};
ghost use Rattle.hls_playlists.specs.RenditionNames.{IsNamed};
ghost use Rattle.hls_playlists_laws.specs.Masters.{is_video, list_uri, audio_at, variant_at, audio_from, videos_from, variants_from, master_below, live_master, job_master};

use bytes::ByteStr;
use hls_core::snapshot::Snapshot;
use hls_core_laws::rendition::Rendition;
use hls_m3u8::{AudioRendition, MasterPlaylist, VariantStream};
use std::alloc::{AllocError, Global};

/// Returns the URI of a rendition's media playlist in a folder.
fn list_uri(alloc: Global, folder: &str, rendition: usize) -> Result<ByteStr, AllocError>
    ensures { IfOk result (λ uri. uri ≡ list_uri folder.now rendition) }
{
    ByteStr::from_string(format!(in alloc; "{folder}{rendition}.m3u8")?)
}

/// Returns a rendition's name, over the same memory.
#[tactic(auto, using(crate::proofs::Names::name_text))]
fn name_of(rendition: &Rendition) -> Result<ByteStr, AllocError>
    requires { IsName rendition.now.name }
    ensures { IfOk result (λ name. name ≡ rendition.now.name) }
{
    Ok(ByteStr::from_known_utf8(rendition.name.clone()?))
}

fn make_audio(
    alloc: Global,
    folder: &str,
    number: usize,
    rendition: &Rendition,
) -> Result<AudioRendition, AllocError>
    requires { IsName rendition.now.name }
    ensures { IfOk result (λ audio. audio ≡ audio_at folder.now number rendition.now) }
{
    Ok(AudioRendition {
        name: name_of(rendition)?,
        uri: list_uri(alloc, folder, number)?,
    })
}

fn make_variant(
    alloc: Global,
    folder: &str,
    number: usize,
    rendition: &Rendition,
) -> Result<VariantStream, AllocError>
    ensures { IfOk result (λ variant. variant ≡ variant_at folder.now number rendition.now) }
{
    Ok(VariantStream {
        bandwidth: rendition.bandwidth,
        uri: list_uri(alloc, folder, number)?,
    })
}

/// Makes the audio renditions, in order.
fn make_audio_group(
    alloc: Global,
    folder: &str,
    renditions: &[Rendition],
) -> Result<Vec<AudioRendition>, AllocError>
    requires { All IsNamed renditions.now }
    ensures { IfOk result (λ group. group.items ≡ audio_from folder.now 0 renditions.now) }
{
    let mut group = Vec::new(alloc);
    for (number, rendition) in renditions.iter().enumerate() {
        if !rendition.video {
            group.push(make_audio(alloc, folder, number, rendition)?)?;
        }
    }
    Ok(group)
}

/// Makes the video renditions, in order.
fn make_video_variants(
    alloc: Global,
    folder: &str,
    renditions: &[Rendition],
) -> Result<Vec<VariantStream>, AllocError>
    ensures { IfOk result (λ variants. variants.items ≡ videos_from folder.now 0 renditions.now) }
{
    let mut variants = Vec::new(alloc);
    for (number, rendition) in renditions.iter().enumerate() {
        if rendition.video {
            variants.push(make_variant(alloc, folder, number, rendition)?)?;
        }
    }
    Ok(variants)
}

/// Makes all renditions, in order.
fn make_variants(
    alloc: Global,
    folder: &str,
    renditions: &[Rendition],
) -> Result<Vec<VariantStream>, AllocError>
    ensures { IfOk result (λ variants. variants.items ≡ variants_from folder.now 0 renditions.now) }
{
    let mut variants = Vec::new(alloc);
    for (number, rendition) in renditions.iter().enumerate() {
        variants.push(make_variant(alloc, folder, number, rendition)?)?;
    }
    Ok(variants)
}

fn has_video(renditions: &[Rendition]) -> bool
    ensures { result ≡ list_any is_video renditions.now }
{
    renditions.iter().any(|rendition| rendition.video)
}

/// Makes the master playlist of renditions whose media playlists are in a folder.
fn make_master(
    alloc: Global,
    folder: &str,
    renditions: &[Rendition],
) -> Result<MasterPlaylist, AllocError>
    requires { All IsNamed renditions.now }
    ensures { IfOk result (λ list. master_of list ≡ master_below folder.now renditions.now) }
{
    if has_video(renditions) {
        return Ok(MasterPlaylist {
            audio: make_audio_group(alloc, folder, renditions)?,
            variants: make_video_variants(alloc, folder, renditions)?,
        });
    }
    Ok(MasterPlaylist {
        audio: Vec::new(alloc),
        variants: make_variants(alloc, folder, renditions)?,
    })
}

/// Makes the master playlist of a channel's live playlists, which are `/live/<rendition>.m3u8`. If the channel has a video rendition,
/// its audio renditions are a group that plays with each video; else each rendition is a variant stream.
#[tactic(auto, using(crate::proofs::Names::are_named))]
pub fn live_master(alloc: Global, snapshot: &Snapshot) -> Result<MasterPlaylist, AllocError>
    ensures { IfOk result (λ list. master_of list ≡ live_master snapshot.now) }
{
    make_master(alloc, "/live/", snapshot.config().renditions())
}

/// Makes the master playlist of a job over a snapshot: `<rendition>.m3u8` in the same folder, by the rule of `live_master`.
#[tactic(auto, using(crate::proofs::Names::are_named))]
pub fn job_master(alloc: Global, snapshot: &Snapshot) -> Result<MasterPlaylist, AllocError>
    ensures { IfOk result (λ list. master_of list ≡ job_master snapshot.now) }
{
    make_master(alloc, "", snapshot.config().renditions())
}
