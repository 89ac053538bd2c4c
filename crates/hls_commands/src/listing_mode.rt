//! How a recorded stream is listed, and the result.

use hls_check_tables::CostRule;

/// How a recorded stream is listed.
#[derive(Clone, Copy)]
pub enum ListingMode {
    /// A playlist with one segment from each place to the next.
    Each,
    /// A least plan of all places by a rule: its playlist, or its certificate.
    Planned { rule: CostRule, certificate: bool },
}

/// The bytes of a listing.
#[derive(Drop)]
pub enum ListingOutput {
    /// The playlist, or the certificate of a least plan.
    Text(Vec<u8>),
    /// There is no plan: the certificate of that if requested, else empty.
    NoCut(Vec<u8>),
}
