//! The result of cutting the table of a programme.

use hls_check_tables::Certificate;
use hls_m3u8::MediaPlaylist;

/// The result of cutting a programme. The certificate has the programme's table and the plan, or the closed set.
#[derive(Drop)]
pub enum CutResult {
    /// A least plan: one playlist for each rendition, in order.
    Cut {
        playlists: Vec<MediaPlaylist>,
        certificate: Certificate,
    },
    /// The table has no plan.
    NoCut {
        certificate: Certificate,
    },
}
