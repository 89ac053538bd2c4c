//! The texts of a programme by its address: a planner makes them once, and they are served until they are dropped.

ghost use Rattle.std.specs.Prelude.{◌≡◌, ℕ, IfOk, IfSome, IsTrue, Some, option_map, slice_get};
ghost use Rattle.std.specs.Option.{option_copied};
ghost use Rattle.hls_catchup.specs.Jobs.Files.{certificate_file};
ghost use Rattle.hls_catchup.specs.Replies.{ReplyData};
ghost use Rattle.hls_jobs.specs.Plans.{HasAddedPlan, HasFoundPlan};
ghost use Rattle.hls_jobs.specs.ProgrammeTexts.{AreLists, IsReplyFor};
ghost use Rattle.hls_jobs.specs.Programmes as spec;

use crate::certificate_writer::CertificateWriter;
use crate::plans::{FoundPlan, PlanWork};
use crate::programme_files::programme_list_text;
use bytes::Bytes;
use hls_catchup::{CutResult, Reply, Request, answer};
use hls_core::snapshot::Snapshot;
use hls_players_master::players_master;
use http_server::Log;
use std::alloc::{AllocError, Global};
use std::marker::Model;
use std::sync::Arc;

/// The texts of a programme: a master playlist and a playlist for each rendition if it has a plan, and its certificate. They were made
/// from a reply, which a clause sees; they don't hold it, so they keep no media alive.
#[derive(Drop)]
pub struct ProgrammeTexts {
    request: Request,
    master: Option<Bytes>,
    lists: Vec<Bytes>,
    certificate: Bytes,
    /// The reply, only for proofs.
    reply: Log<Arc<Reply>, ()>,
}

impl Model for ProgrammeTexts {
    ghost use Rattle.std.specs.Prelude.{Option};
    ghost use Rattle.hls_catchup.specs.Replies.{ReplyData};
    ghost use Rattle.hls_jobs.specs.ProgrammeTexts.{AreTexts, noted_reply};

    ghost Value = { Option ReplyData };

    ghost view = { λ t. noted_reply t.reply.items };

    ghost invariant = { λ t. AreTexts t (noted_reply t.reply.items) };
}

/// Makes a text that can be shared.
fn share_text(text: Option<Vec<u8>>) -> Result<Option<Bytes>, AllocError>
    ensures { IfOk result (λ shared. shared ≡ option_map (λ t. t.items) text) }
{
    match text {
        Some(text) => Ok(Some(Bytes::from_vec(text)?)),
        None => Ok(None),
    }
}

/// Returns the text of the master playlist; `None` if the programme has no plan.
fn master_text(alloc: Global, reply: &Reply) -> Result<Option<Bytes>, AllocError>
    ensures { IfOk result (λ text. text ≡ spec.master_file reply.now) }
{
    match reply.cut_result() {
        CutResult::Cut { .. } => share_text(players_master(alloc, reply.snapshot(), false)?),
        CutResult::NoCut { .. } => Ok(None),
    }
}

/// Returns how many playlists a reply has.
fn list_count(reply: &Reply) -> usize
    ensures { result ≡ spec.list_count reply.now }
{
    match reply.cut_result() {
        CutResult::Cut { playlists, .. } => playlists.len(),
        CutResult::NoCut { .. } => 0,
    }
}

/// Returns the texts of all playlists.
fn list_texts(alloc: Global, reply: &Reply) -> Result<Vec<Bytes>, AllocError>
    ensures { IfOk result (λ texts. AreLists reply.now texts.items) }
{
    let mut texts = Vec::new(alloc);
    for rendition in 0..list_count(reply) {
        let Some(text) = programme_list_text(alloc, reply, rendition)? else {
            unreachable!()
        };
        let shared = Bytes::from_vec(text)?;
        texts.push(shared)?;
    }
    Ok(texts)
}

/// Returns the text of the certificate.
fn certificate_text(alloc: Global, reply: &Arc<Reply>) -> Result<Bytes, AllocError>
    ensures { IfOk result (λ text. text ≡ certificate_file reply.now.value) }
{
    let text = CertificateWriter::new(alloc, Arc::try_clone(reply)?)?.finish()?;
    Ok(Bytes::from_vec(text)?)
}

/// Returns the text of a number.
fn get_text(texts: &[Bytes], number: usize) -> Option<&Bytes>
    ensures { option_copied result ≡ slice_get texts.now number }
{
    texts.get(number)
}

impl ProgrammeTexts {
    /// Makes the texts of a reply.
    pub fn new(alloc: Global, reply: &Arc<Reply>) -> Result<ProgrammeTexts, AllocError>
        ensures { IfOk result (λ texts. texts ≡ Some reply.now.value) }
    {
        let made: &Reply = reply;
        let _ = made.snapshot(); // the proof needs that the reply is right
        let master = master_text(alloc, made)?;
        let lists = list_texts(alloc, made)?;
        let certificate = certificate_text(alloc, reply)?;
        let noted = Log::new().and(reply, &());
        Ok(ProgrammeTexts {
            request: made.request(),
            master,
            lists,
            certificate,
            reply: noted,
        })
    }

    /// Whether the texts are the answer to a request.
    pub fn is_for(&self, request: Request) -> bool
        ensures { IsTrue result → IsReplyFor request self.now }
    {
        self.request == request
    }

    /// Returns the text of the master playlist; `None` if the programme has no plan.
    pub fn master(&self) -> Option<&Bytes>
        ensures { (reply : ReplyData) → self.now ≡ Some reply → option_copied result ≡ spec.master_file reply }
    {
        self.master.as_ref()
    }

    /// Returns the text of a rendition's playlist; `None` if the programme has no plan, or there is no such rendition.
    pub fn list(&self, rendition: usize) -> Option<&Bytes>
        ensures { (reply : ReplyData) → self.now ≡ Some reply → option_copied result ≡ spec.programme_list_file reply rendition }
    {
        get_text(&self.lists, rendition)
    }

    /// Returns the text of the certificate, which may be shared: it can have some megabytes.
    pub fn certificate(&self) -> &Bytes
        ensures { (reply : ReplyData) → self.now ≡ Some reply → result.now ≡ certificate_file reply }
    {
        &self.certificate
    }

    /// Returns how many bytes the texts have.
    pub fn byte_count(&self) -> usize {
        let mut count = self.certificate.len();
        if let Some(text) = &self.master {
            count = count.saturating_add(text.len());
        }
        for text in &self.lists {
            count = count.saturating_add(text.len());
        }
        count
    }
}

/// Makes the texts of a reply, to be shared.
fn make_texts(alloc: Global, reply: Reply) -> Result<Arc<ProgrammeTexts>, AllocError>
    ensures { IfOk result (λ texts. texts.value ≡ Some reply) }
{
    let reply = Arc::new(alloc, reply)?;
    let texts = ProgrammeTexts::new(alloc, &reply)?;
    Ok(Arc::new(alloc, texts)?)
}

/// Plans a programme, and makes its texts. Fails if it ran out of memory, or if the snapshot doesn't have the programme.
fn plan_texts(
    alloc: Global,
    snapshot: &Arc<Snapshot>,
    request: Request,
) -> Result<Arc<ProgrammeTexts>, AllocError>
    ensures { IfOk result (λ texts. IsReplyFor request texts.value) }
{
    match answer(alloc, snapshot, request) {
        Ok(reply) => make_texts(alloc, reply),
        Err(_) => Err(AllocError),
    }
}

/// Plans a programme, and makes its texts; `None` if it ran out of memory, or if its snapshot doesn't have the programme. Never waits.
pub(crate) fn run_plan(alloc: Global, work: PlanWork) -> Option<Arc<ProgrammeTexts>>
    ensures { IfSome result (λ texts. IsReplyFor work.request texts.value) }
{
    match plan_texts(alloc, &work.snapshot, work.request) {
        Ok(texts) => Some(texts),
        Err(_) => None,
    }
}

/// Plans a programme at once, for any client, and keeps nothing of it. Fails if it ran out of memory, or if the snapshot doesn't have the
/// programme.
pub fn plan_now(
    alloc: Global,
    snapshot: &Arc<Snapshot>,
    request: Request,
) -> Result<FoundPlan, AllocError>
    ensures added { (client : ℕ) → IfOk result (HasAddedPlan request client) }
    ensures found { IfOk result (HasFoundPlan request) }
{
    let texts = plan_texts(alloc, snapshot, request)?;
    Ok(FoundPlan::Ready(texts))
}
