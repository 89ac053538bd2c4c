//! The playlists among a job's files, and its certificate.

ghost use Rattle.std.specs.Prelude.{◌≡◌, IfOk, option_map};
ghost use Rattle.hls_catchup.specs.Jobs.Files.{certificate_of, master_file, playlist_file};

use hls_catchup::{CutResult, Reply};
use hls_check_tables::Certificate;
use hls_m3u8::{write_master, write_media};
use hls_playlists::job_master;
use std::alloc::{AllocError, Global};

/// Returns the certificate of a plan, or that there is none.
pub(crate) fn certificate_of(cut_result: &CutResult) -> &Certificate
    ensures { result.now ≡ certificate_of cut_result.now }
{
    match cut_result {
        CutResult::Cut { certificate, .. } => certificate,
        CutResult::NoCut { certificate } => certificate,
    }
}

/// Returns the text of a rendition's playlist; `None` if the programme has no plan, or there is no such rendition.
pub fn playlist_text(
    alloc: Global,
    reply: &Reply,
    rendition: usize,
) -> Result<Option<Vec<u8>>, AllocError>
    ensures { IfOk result (λ text. option_map (λ t. t.items) text ≡ playlist_file reply.now rendition) }
{
    let _ = reply.snapshot();
    match reply.cut_result() {
        CutResult::Cut { playlists, .. } => match playlists.get(rendition) {
            Some(list) => Ok(Some(write_media(alloc, list)?)),
            None => Ok(None),
        },
        CutResult::NoCut { .. } => Ok(None),
    }
}

/// Returns the text of the master playlist, whose media playlists are in the same folder; `None` if the programme has no plan.
pub fn master_text(alloc: Global, reply: &Reply) -> Result<Option<Vec<u8>>, AllocError>
    ensures { IfOk result (λ text. option_map (λ t. t.items) text ≡ master_file reply.now) }
{
    match reply.cut_result() {
        CutResult::Cut { .. } => {
            let list = job_master(alloc, reply.snapshot())?;
            Ok(Some(write_master(alloc, &list)?))
        }
        CutResult::NoCut { .. } => Ok(None),
    }
}
