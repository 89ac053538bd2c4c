//! Writes the text of a certificate in parts: one with many places takes long, and other connections get their turn in between.

ghost use Rattle.std.specs.Prelude.{◌≡◌, ◌++◌, IfOk};
ghost use Rattle.hls_catchup.specs.Jobs.Files.{certificate_file};
ghost use Rattle.hls_jobs.specs.CertificateWriter.{rest_of_certificate};

use crate::files::certificate_of;
use hls_catchup::Reply;
use hls_check::{push_claim, push_head, push_places};
use hls_check_tables::Certificate;
use std::alloc::{AllocError, Global};
use std::marker::Model;
use std::sync::Arc;

/// How many places are written in one part; with sixteen renditions that takes a few milliseconds.
const PART: usize = 1024;

/// The text of a reply's certificate, partly written. A clause sees the whole text.
#[derive(Drop)]
pub struct CertificateWriter {
    reply: Arc<Reply>,
    /// The number of places written so far.
    written: usize,
    text: Vec<u8>,
}

impl Model for CertificateWriter {
    ghost use Rattle.std.specs.Prelude.{ℕ, List};
    ghost use Rattle.hls_jobs.specs.CertificateWriter.{full_text};

    ghost Value = { List ℕ };

    ghost view = { full_text };
}

/// Writes at most `most` of the places after the first `written`. Returns how many are written then.
fn push_some_places(
    text: &mut Vec<u8>,
    certificate: &Certificate,
    written: usize,
    most: usize,
) -> Result<usize, AllocError>
    ensures { IfOk result (λ k. text.new.items ++ rest_of_certificate certificate.now k ≡ text.old.items ++ rest_of_certificate certificate.now written) }
{
    let places = certificate.table().places();
    let from = written.min(places.len());
    let stop = from.saturating_add(most).min(places.len());
    push_places(text, &places[from..stop])?;
    Ok(stop)
}

impl CertificateWriter {
    /// Starts the text of a reply's certificate with its head.
    pub fn new(alloc: Global, reply: Arc<Reply>) -> Result<CertificateWriter, AllocError>
        ensures { IfOk result (λ text. text ≡ certificate_file reply.value) }
    {
        let mut text = Vec::new(alloc);
        push_head(&mut text, certificate_of(reply.cut_result()).table())?;
        Ok(CertificateWriter {
            reply,
            written: 0,
            text,
        })
    }

    /// Writes some of the remaining places. Returns whether more may remain. After an allocation failure the text can't be finished.
    pub fn write_some(&mut self) -> Result<bool, AllocError>
        ensures { IfOk result (λ more. self.new ≡ self.old) }
    {
        let certificate = certificate_of(self.reply.cut_result());
        self.written = push_some_places(&mut self.text, certificate, self.written, PART)?;
        Ok(self.written < certificate.table().len())
    }

    /// Writes all that remains, and returns the text.
    pub fn finish(self) -> Result<Vec<u8>, AllocError>
        ensures { IfOk result (λ text. text.items ≡ self) }
    {
        let CertificateWriter {
            reply,
            written,
            text,
        } = self;
        let mut text = text;
        let certificate = certificate_of(reply.cut_result());
        let places = certificate.table().places();
        push_places(&mut text, &places[written.min(places.len())..])?;
        push_claim(&mut text, certificate)?;
        Ok(text)
    }
}
