//! A part of a stream.

use bytes::Bytes;

/// A part of a stream, with all its bytes, including loose boxes before and between.
#[derive(Drop)]
pub enum Part {
    /// An init is a Media Initialization Section (RFC 8216 section 3): it ends with its `moov`.
    Init(Bytes),
    /// A unit is a movie fragment with its media data (ISO/IEC 14496-12 section 8.8.4): it ends with the `mdat` that follows its
    /// `moof`.
    Unit(Bytes),
}
