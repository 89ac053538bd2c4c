//! Laws of renewals. Each function has no body: its contract is the law.

ghost use Rattle.hls_renewal.specs.Laws.{EarlierProgrammesAreRefused, RenewalsAreNew, RenewedCatchUpListsAreEqual, RenewedChannelsAreHandedOver, RenewedListsAreEqual, RenewedListsContinue, RenewedPlacesAreThoseFromTheCut, RenewedPlansAgree, RenewedProgrammesAgree, RenewedUnitsHaveSameBytes, RunsAndVersionsNeverGoBack};

use hls_places_laws::{line_from_cut_agrees, places_from_a_place_agree, places_never_go_back};
use hls_playlists_laws::path_laws::{
    base_of_cut_takes_over, based_lists_follow, path_lists_follow, taken_over_lists_are_equal,
};

/// A renewed channel continues the old one at the cut, in each rendition, with the base of the cut. So its playlists and paths are those
/// of the old channel (`taken_over_lists_are_equal` in `hls_playlists_laws`). Its version isn't lower.
pub fn renewed_channels_are_handed_over()
    ensures { RenewedChannelsAreHandedOver }
{}

/// The common places of a renewed channel are the old one's from the cut on.
pub fn renewed_places_are_those_from_the_cut()
    ensures { RenewedPlacesAreThoseFromTheCut }
{
    places_from_a_place_agree();
    places_never_go_back();
    line_from_cut_agrees();
}

/// A programme of a renewed channel that begins at the cut or later has the same table as in the old channel, with its units and gaps
/// counted from the cut, or the same refusal.
pub fn renewed_programmes_agree()
    ensures { RenewedProgrammesAgree }
{
    places_from_a_place_agree();
    places_never_go_back();
    line_from_cut_agrees();
}

/// The table of such a programme has the same plans as in the old channel, at the same costs, so the same plans are least.
pub fn renewed_plans_agree()
    ensures { RenewedPlansAgree }
{
    places_from_a_place_agree();
    places_never_go_back();
    line_from_cut_agrees();
}

/// In each rendition the playlist of such a plan is equal, and so are the bytes of its resource: the init section and the units.
pub fn renewed_catch_up_lists_are_equal()
    ensures { RenewedCatchUpListsAreEqual }
{
    places_from_a_place_agree();
    places_never_go_back();
    line_from_cut_agrees();
}

/// A programme of a renewed channel that begins before the cut is refused as before the recording.
pub fn earlier_programmes_are_refused()
    ensures { EarlierProgrammesAreRefused }
{
    places_from_a_place_agree();
    places_never_go_back();
    line_from_cut_agrees();
}

/// The playlists of a renewed channel are the old one's at once, by ranges and by paths.
pub fn renewed_lists_are_equal()
    ensures { RenewedListsAreEqual }
{
    places_from_a_place_agree();
    places_never_go_back();
    line_from_cut_agrees();
    taken_over_lists_are_equal();
    base_of_cut_takes_over();
}

/// So they are valid as later ones of each that was sent before the renewal.
pub fn renewed_lists_continue()
    ensures { RenewedListsContinue }
{
    places_from_a_place_agree();
    places_never_go_back();
    line_from_cut_agrees();
    taken_over_lists_are_equal();
    base_of_cut_takes_over();
    based_lists_follow();
    path_lists_follow();
}

/// The units that a renewed channel keeps have the same bytes under the same paths.
pub fn renewed_units_have_same_bytes()
    ensures { RenewedUnitsHaveSameBytes }
{}

/// Run and version never go back, over restarts and renewals.
pub fn runs_and_versions_never_go_back()
    ensures { RunsAndVersionsNeverGoBack }
{}

/// Each event of a renewal is new in the state that it meets, so a renewal isn't refused for one.
pub fn renewals_are_new()
    ensures { RenewalsAreNew }
{
    places_from_a_place_agree();
    places_never_go_back();
    line_from_cut_agrees();
}
