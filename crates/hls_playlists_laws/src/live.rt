//! Laws of live playlists. Each function has no body: its contract is the law.

ghost use Rattle.hls_playlists_laws.specs.LiveLaws.{LiveListsHaveTexts, LiveListsFollow, LiveListsStay, LiveListsAgree, LiveListsContinueAtHandover, LiveListsJoinAtHandover, LiveListsStayJoined};

/// The live playlists of a state can be written.
pub fn live_lists_have_texts()
    ensures { LiveListsHaveTexts }
{}

/// The live playlist of a state that follows another changes only what a reload may change (RFC 8216 section 6.2.2).
pub fn live_lists_follow()
    ensures { LiveListsFollow }
{}

/// Two states of one log with equally many events have the same live playlists: one that was made from the first is that of the
/// second.
pub fn live_lists_stay()
    ensures { LiveListsStay }
{}

/// In the live playlists of two origins that are fed by the same encoders, however far each has come, segments with the same media
/// sequence number are the same, and equal media sequence numbers have equal discontinuity sequence numbers.
pub fn live_lists_agree()
    ensures { LiveListsAgree }
{}

/// A channel that is handed over to an origin whose recordings begin with the units at a cut of its live line continues there: after
/// the cut the playlists have the same segments, dates and lengths, and the same marks except the first one's; ranges, media and
/// discontinuity sequence numbers differ by a constant.
pub fn live_lists_continue_at_handover()
    ensures { LiveListsContinueAtHandover }
{}

/// Across a handover a reload changes only what RFC 8216 section 6.2.2 allows: after a playlist of the first origin, the second's
/// with the constants added is valid as a later one.
pub fn live_lists_join_at_handover()
    ensures { LiveListsJoinAtHandover }
{}

/// And it stays so: with any constants added, playlists of the second origin are valid as later ones of each other.
pub fn live_lists_stay_joined()
    ensures { LiveListsStayJoined }
{}
