//! A record of the calls on a file. Clauses read it; no memory holds it.

ghost use Rattle.std.specs.Prelude.{◌≡◌, List, [], ◌∷◌};
ghost use Rattle.std.specs.Borrow.{ftrue};
ghost use Rattle.sqlite_disk.specs.Events.{Event};
ghost use Rattle.hls_journal_store.specs.Calls.{call_of};

use std::marker::{Model, PhantomData};

/// The calls that were made on a file, with their answers, the newest first.
#[derive(Drop)]
pub struct CallRecord {
    marker: PhantomData<u8>,
    pub ghost calls: { List Event },
}

impl Model for CallRecord {
    ghost also_owns = { λ _. ftrue };
}

impl CallRecord {
    /// The record of a file on which no call was made.
    pub(crate) fn new() -> CallRecord
        ensures { result.calls ≡ [] }
    {
        CallRecord {
            marker: PhantomData,
        }
    }

    /// Notes a call: its kind, an offset or a length, a count, 1 if it succeeded, and for a tested read the key and the digest.
    pub(crate) fn note(&mut self, _numbers: &[u64], _bytes: &[u8])
        ensures { self.new.calls ≡ call_of _numbers.now _bytes.now ∷ self.old.calls }
    {}
}
