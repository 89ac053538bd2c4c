//! The reader of a stream.

ghost use Rattle.std.specs.Prelude.{◌≡◌, ◌≢◌, [], ◌++◌, Err, IfOk, IfErr, OnOk, OnErr, None};
ghost use Rattle.hls_boxes.specs.Parts.{stream_cut, text_fault, fault_at_end};
ghost use Rattle.hls_boxes.specs.Reader.{IsFeedRefusal, TakesNextPart, HasPart, ReportsFault};

use crate::complete_part::CompletePart;
use crate::fault::BoxFault;
use crate::feed::feed_piece;
use crate::part::Part;
use crate::pending_part::{Checkpoint, PendingPart};
use std::alloc::{AllocError, Global};
use std::collections::VecDeque;
use std::marker::Model;

/// A reader of one stream, which arrives in pieces of any length. Contracts see the bytes that were fed and not yet taken.
#[derive(Drop)]
pub struct UnitReader {
    alloc: Global,
    /// The complete parts that weren't taken yet, in order.
    whole: VecDeque<CompletePart>,
    /// The part in progress, which follows them.
    pending: PendingPart,
    fault: Option<BoxFault>,
}

impl Model for UnitReader {
    ghost use Rattle.std.specs.Prelude.{ℕ, List};
    ghost use Rattle.hls_boxes.specs.Feed.{IsReaderState, reader_bytes};

    ghost Value = { List ℕ };

    ghost view = { λ r. reader_bytes r.whole.items r.pending };

    ghost invariant = { λ r. IsReaderState r.whole.items r.pending r.fault };
}

impl UnitReader {
    /// A reader that was fed nothing. Doesn't allocate.
    pub fn new(alloc: Global) -> UnitReader
        ensures { result ≡ [] }
    {
        UnitReader {
            alloc,
            whole: VecDeque::new(alloc),
            pending: PendingPart::empty(alloc),
            fault: None,
        }
    }

    /// Appends the next piece of the stream.
    ///
    /// # Errors
    /// `BadSize`, `TooLarge`, `OpenEnded`, `MdatAlone` and `MoofWithoutMdat` are the fault of the first faulty box header. The piece with
    /// the fault is accepted, and the parts before the fault can still be taken. From then on each `feed` and `finish` returns that fault,
    /// and no further piece is accepted.
    /// `Memory` if an allocation failed. The piece isn't accepted then, and nothing has changed; a fault in that piece isn't reported yet.
    pub fn feed(&mut self, piece: &[u8]) -> Result<(), BoxFault>
        ensures ok { OnOk result ((self.new ≡ self.old ++ piece.now) × (text_fault self.new ≡ None)) }
        ensures err { IfErr result (λ fault. IsFeedRefusal fault self.old piece.now self.new) }
        ensures empty { piece.now ≡ [] → result ≢ Err BoxFault.Memory }
    {
        if let Some(fault) = self.fault {
            return Err(fault);
        }
        if piece.is_empty() {
            return Ok(());
        }
        let checkpoint = Checkpoint::save(&self.pending, &self.whole);
        let Ok(fault) = feed_piece(self.alloc, &mut self.pending, &mut self.whole, piece) else {
            checkpoint.restore(&mut self.pending, &mut self.whole);
            return Err(BoxFault::Memory);
        };
        self.fault = fault;
        if let Some(found) = fault {
            return Err(found);
        }
        Ok(())
    }

    /// Takes the first complete part. Returns None if no part is complete yet. If an allocation fails, nothing is lost.
    pub fn take(&mut self) -> Result<Option<Part>, AllocError>
        ensures ok { IfOk result (λ part. TakesNextPart part self.old self.new) }
        ensures err { OnErr result ((self.new ≡ self.old) × HasPart self.old) }
    {
        let Some(first) = self.whole.pop_front() else {
            return Ok(None);
        };
        match first.into_part() {
            Ok(part) => Ok(Some(part)),
            Err(failed) => {
                self.whole.push_front_reserved(failed.value);
                Err(AllocError)
            }
        }
    }

    /// Declares the end of the stream. Doesn't allocate.
    ///
    /// # Errors
    /// A fault of `feed` is permanent. `Truncated` if the stream ends inside a box, or between a `moof` and its `mdat`.
    pub fn finish(&self) -> Result<(), BoxFault>
        ensures { ReportsFault result (fault_at_end (stream_cut self.now).left) }
    {
        if let Some(fault) = self.fault {
            return Err(fault);
        }
        if self.pending.at < self.pending.bytes.len() {
            return Err(BoxFault::Truncated);
        }
        if self.pending.has_moof {
            return Err(BoxFault::Truncated);
        }
        Ok(())
    }
}
