//! Laws of path lists and of playlists that count from a base. Each function has no body: its contract is the law.

ghost use Rattle.hls_playlists_laws.specs.PathLaws.{PathListsMatchRanges, PathListsFollow, ServedListsStay, PathListsAgree, PathsAreRanges, PathsNeverChange, TrimmedPathsStayTrimmed, ListedPathsAreKept, ListedInitsAreThere, ListsWithoutBaseAreOwn, BasedListsFollow, HandedOverListsAreEqual, TakenOverListsAreEqual, BaseOfCutTakesOver, HandedOverListsJoin, HandedOverListsAgree, HandedOverPathsNameSameUnits, PathsNameSameUnitsAfterHandover, HandedOverUnitsHaveSameBytes};

/// A path list has exactly the segments, lengths, marks, dates and sequence numbers of the list by ranges.
pub fn path_lists_match_ranges()
    ensures { PathListsMatchRanges }
{}

/// The path list of a state that follows another changes only what a reload may change (RFC 8216 section 6.2.2).
pub fn path_lists_follow()
    ensures { PathListsFollow }
{}

/// Two states of one log with equally many events have the same playlists, by ranges and by paths.
pub fn served_lists_stay()
    ensures { ServedListsStay }
{}

/// Path lists of two origins with one base that are fed by the same encoders agree, however far each has come.
pub fn path_lists_agree()
    ensures { PathListsAgree }
{}

/// A path names one range.
pub fn paths_are_ranges()
    ensures { PathsAreRanges }
{}

/// A path never names other bytes in a later state: it names the same units with the same bytes, or some of them are trimmed.
pub fn paths_never_change()
    ensures { PathsNeverChange }
{}

/// What a path named that is trimmed stays so.
pub fn trimmed_paths_stay_trimmed()
    ensures { TrimmedPathsStayTrimmed }
{}

/// Each path that a state lists names kept units in that state, no longer than a segment may be.
pub fn listed_paths_are_kept()
    ensures { ListedPathsAreKept }
{}

/// And a rendition with a path list has its init section.
pub fn listed_inits_are_there()
    ensures { ListedInitsAreThere }
{}

/// With no base a playlist is the process's own, text for text.
pub fn lists_without_base_are_own()
    ensures { ListsWithoutBaseAreOwn }
{}

/// With any base playlists change only as live playlists may.
pub fn based_lists_follow()
    ensures { BasedListsFollow }
{}

/// With the base of a cut of another channel's line playlists are that channel's own, once both have removed and listed as many
/// segments.
pub fn handed_over_lists_are_equal()
    ensures { HandedOverListsAreEqual }
{}

/// So the playlists of a channel that continues another one at a cut equal that one's, by ranges and by paths.
pub fn taken_over_lists_are_equal()
    ensures { TakenOverListsAreEqual }
{}

/// A channel that continues another one at a cut, with the base of that cut, takes it over.
pub fn base_of_cut_takes_over()
    ensures { BaseOfCutTakesOver }
{}

/// Before, they are valid as later ones of that channel's.
pub fn handed_over_lists_join()
    ensures { HandedOverListsJoin }
{}

/// And they agree with that channel's, however far each has come: a player may be moved to and fro.
pub fn handed_over_lists_agree()
    ensures { HandedOverListsAgree }
{}

/// A path of a channel that continues another one at a cut, with its base, names the same units there, or they are trimmed.
pub fn handed_over_paths_name_same_units()
    ensures { HandedOverPathsNameSameUnits }
{}

/// And a path of the first one that begins at the cut or after it names the same units in the second.
pub fn paths_name_same_units_after_handover()
    ensures { PathsNameSameUnitsAfterHandover }
{}

/// These have the same bytes in both, if encoders sent both the same units.
pub fn handed_over_units_have_same_bytes()
    ensures { HandedOverUnitsHaveSameBytes }
{}
