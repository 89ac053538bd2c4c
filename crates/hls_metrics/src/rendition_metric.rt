//! What is shown of each rendition.

/// A metric that has a row for each rendition.
#[derive(Clone, Copy)]
pub enum RenditionMetric {
    /// Whether it has its init section.
    Begun,
    /// Whether it is finished.
    Finished,
    /// Bytes that were ever accepted, those before this process included.
    ReceivedBytes,
    /// Bytes at which its recording is full.
    MaxBytes,
    /// Bytes of fragments that are kept.
    KeptBytes,
    /// Fragments that this process accepted.
    Fragments,
    /// The end of its last fragment, in microseconds.
    End,
    /// Its tolerance, in microseconds.
    Tolerance,
    /// How many of the checked sync samples of rendition 0 have none of it within its tolerance.
    MissedSyncs,
    /// The greatest distance of one of these from its nearest one, in microseconds.
    SyncDistance,
    /// After how many of the last places it has a gap before the next one.
    Gaps,
}
