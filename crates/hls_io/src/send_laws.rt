//! The law of sending. The function has no body: its contract is the theorem.
ghost use Rattle.hls_io.specs.SentBytes.{SentAndWaitingAreAll};

/// The bytes that were sent, however they were taken, followed by those that wait, are all bytes.
pub fn sent_and_waiting_are_all()
    ensures { SentAndWaitingAreAll }
{}
