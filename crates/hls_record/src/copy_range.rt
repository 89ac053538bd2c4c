//! Copies ranges of a recording, piece by piece. No program calls this: responses send the pieces themselves.
ghost use Rattle.std.specs.Prelude.{◌≡◌, ◌+◌, ◌<◌, ◌≤◌, ◌⊎◌, length, map, min, max, Some, true, false, IfOk};
ghost use Rattle.hls_record.specs.RecordingData.{offset_at, total_of, range_of};
ghost use Rattle.hls_record.specs.IsRecorded.{IsRecorded};
ghost use Rattle.hls_record.specs.Outcome.{IsInside, Copies, IsPrefixOfPiece};

use crate::fault::RangeFault;
use crate::recording::Recording;
use std::alloc::{AllocError, Global};

impl Recording {
    /// Copies the bytes of the resource from `a` up to `b`.
    ///
    /// # Errors
    /// `Outside` if `a` is greater than `b`, or `b` greater than the total. `Gone` if a byte of the range is trimmed. `Memory` if an
    /// allocation failed.
    pub fn copy_range(&self, alloc: Global, a: u64, b: u64) -> Result<Vec<u8>, RangeFault>
        ensures { Copies self.now a b result }
    {
        if b < a {
            return Err(RangeFault::Outside);
        }
        if self.total() < b {
            return Err(RangeFault::Outside);
        }
        if self.is_gone(a, b) {
            return Err(RangeFault::Gone);
        }
        match self.copy_bytes(alloc, a, b) {
            Ok(bytes) => Ok(bytes),
            Err(_) => Err(RangeFault::Memory),
        }
    }

    // Whether some byte of the range is trimmed.
    fn is_gone(&self, a: u64, b: u64) -> bool
        requires { IsInside self.now a b }
        ensures yes { result ≡ true → max a (length self.now.head) < min b (offset_at self.now self.now.floor) }
        ensures no { result ≡ false → min b (offset_at self.now self.now.floor) ≤ max a (length self.now.head) }
    {
        let from = a.max(self.init_section_bytes().len() as u64);
        let until = b.min(self.offset(self.floor()));
        from < until
    }

    // Copies the bytes of a range without trimmed bytes.
    fn copy_bytes(&self, alloc: Global, a: u64, b: u64) -> Result<Vec<u8>, AllocError>
        requires valid { IsRecorded self.now }
        requires inside { IsInside self.now a b }
        requires whole { min b (offset_at self.now self.now.floor) ≤ max a (length self.now.head) }
        ensures { IfOk result (λ v. map Some v.items ≡ range_of self.now a b) }
    {
        let mut all = Vec::with_capacity(alloc, (b - a) as usize)?;
        let mut at = a;
        while at < b {
            let piece = self.piece_up_to(at, b);
            all.extend_from_slice(piece)?;
            at += piece.len() as u64;
        }
        Ok(all)
    }

    // The part of the piece at `at` that is before `b`.
    fn piece_up_to(&self, at: u64, b: u64) -> &[u8]
        requires valid { IsRecorded self.now }
        requires within { at < b }
        requires high { b ≤ total_of self.now }
        requires kept { (at < length self.now.head) ⊎ (offset_at self.now self.now.floor ≤ at) }
        ensures some { 0 < length result.now }
        ensures few { at + length result.now ≤ b }
        ensures start { IsPrefixOfPiece self.now at result.now }
    {
        match self.piece(at) {
            Some(piece) => {
                let few = piece.len().min((b - at) as usize);
                &piece[..few]
            }
            None => unreachable!(),
        }
    }
}
