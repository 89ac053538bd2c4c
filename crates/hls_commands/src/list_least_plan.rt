//! `cut --preferred`: the playlist of a least plan, or its certificate.

ghost use Rattle.std.specs.Prelude.{◌≡◌, ◌≤◌, length, Ok, IfOk};
ghost use Rattle.hls_m3u8.specs.Uri.{IsUri};
ghost use Rattle.hls_record.specs.IsRecorded.{IsRecorded};
ghost use Rattle.hls_check_tables.specs.Tables.{IsGoal, IsTable, table_of};
ghost use Rattle.hls_check_tables.specs.Plans.{IsPlan};
ghost use Rattle.hls_check_tables.specs.Certificates.{IsGood};
ghost use Rattle.hls_places_laws.specs.Order.{spots_of};
ghost use Rattle.hls_core_laws.specs.Config.{IsEpoch};
ghost use Rattle.hls_plan.specs.Planned.{IsBest, HasClaimForm, certificate_of};
ghost use Rattle.hls_playlists_laws.specs.SegmentLaws.{end_fragment};
ghost use Rattle.hls_m3u8.specs.Written.{IsWritten};
ghost use Rattle.hls_commands.specs.Each.{plan_list};
ghost use Rattle.hls_commands.specs.Plans.{ListsLeastPlan, IsPlanCertificate, IsPlanPlaylist};
ghost use Rattle.hls_commands.specs.Places.{ArePlacesOf};

use crate::listing_fault::ListingFault;
use crate::listing_mode::ListingOutput;
use crate::table::build_table;
use crate::vod_playlist::write_vod_playlist;
use bytes::ByteStr;
use hls_blocks::Shared;
use hls_check::write;
use hls_check_tables::{Claim, Goal, PLACE_LIMIT, PlaceTable};
use hls_places::Place;
use hls_plan::{Planned, certificate, plan};
use hls_playlists::make_plan_segments;
use hls_record::Recording;
use std::alloc::{AllocError, Global};

/// Writes the playlist by a plan's steps.
fn write_plan_playlist(
    alloc: Global,
    recording: &Recording,
    epoch: Option<i64>,
    uri: &str,
    table: &PlaceTable,
    plan: &[usize],
) -> Result<Vec<u8>, AllocError>
    requires epoch { IsEpoch epoch }
    requires recorded { IsRecorded recording.now }
    requires table { IsTable table.now }
    requires uri { IsUri uri.now }
    requires plan { IsPlan table.now plan.now }
    requires ever { end_fragment table.now 0 ≤ length recording.now.facts }
    ensures { IfOk result (λ text. IsWritten (plan_list table.now.goal.target epoch recording.now uri.now table.now.places plan.now) text.items) }
{
    let uri = ByteStr::copy_from_str(alloc, uri)?;
    let segments = make_plan_segments(alloc, recording, epoch, 0, &uri, 0, table, plan)?;
    write_vod_playlist(alloc, table.target(), recording, uri, segments)
}

/// Writes the playlist of the planning's result.
fn write_planned_playlist(
    alloc: Global,
    recording: &Recording,
    epoch: Option<i64>,
    uri: &str,
    table: &PlaceTable,
    planned: &Planned,
) -> Result<ListingOutput, AllocError>
    requires epoch { IsEpoch epoch }
    requires recorded { IsRecorded recording.now }
    requires table { IsTable table.now }
    requires uri { IsUri uri.now }
    requires best { IsBest table.now planned.now }
    requires ever { end_fragment table.now 0 ≤ length recording.now.facts }
    ensures { IfOk result (IsPlanPlaylist table.now epoch recording.now uri.now) }
{
    match planned {
        Planned::Cut { plan, .. } => {
            let text = write_plan_playlist(alloc, recording, epoch, uri, table, plan.as_slice())?;
            Ok(ListingOutput::Text(text))
        }
        Planned::NoCut { .. } => Ok(ListingOutput::NoCut(Vec::new(alloc))),
    }
}

/// Writes the certificate of the planning's result.
fn write_certificate(
    alloc: Global,
    table: PlaceTable,
    planned: Planned,
) -> Result<ListingOutput, AllocError>
    requires good { IsGood (certificate_of table planned) }
    requires best { IsBest table planned }
    requires shown { HasClaimForm table planned }
    ensures { IfOk result (IsPlanCertificate table) }
{
    let certificate = certificate(table, planned);
    let text = write(alloc, &certificate)?;
    match certificate.claim() {
        Claim::Cut { .. } => Ok(ListingOutput::Text(text)),
        Claim::NoCut { .. } => Ok(ListingOutput::NoCut(text)),
    }
}

/// Lists by a least plan of a table: its playlist, or its certificate.
fn list_plan(
    alloc: Global,
    recording: &Recording,
    epoch: Option<i64>,
    uri: &str,
    table: PlaceTable,
    certificate: bool,
) -> Result<ListingOutput, AllocError>
    requires epoch { IsEpoch epoch }
    requires recorded { IsRecorded recording.now }
    requires table { IsTable table }
    requires uri { IsUri uri.now }
    requires ever { end_fragment table 0 ≤ length recording.now.facts }
    ensures { IfOk result (λ listed. ListsLeastPlan certificate table epoch recording.now uri.now (Ok listed)) }
{
    let planned = plan(alloc, &table)?;
    if certificate {
        write_certificate(alloc, table, planned)
    } else {
        write_planned_playlist(alloc, recording, epoch, uri, &table, &planned)
    }
}

/// Lists by a least plan of all places: its playlist, or its certificate. There are at least two places.
pub fn list_least_plan(
    alloc: Global,
    goal: Goal,
    recording: &Recording,
    epoch: Option<i64>,
    places: &Shared<Place>,
    uri: &str,
    certificate: bool,
) -> Result<ListingOutput, ListingFault>
    requires epoch { IsEpoch epoch }
    requires first { places.now.first ≡ 0 }
    requires goal { IsGoal goal }
    requires places { ArePlacesOf recording.now places.now.items }
    requires count { 2 ≤ length places.now.items }
    requires uri { IsUri uri.now }
    ensures { ListsLeastPlan certificate (table_of goal 1 (spots_of places.now.items)) epoch recording.now uri.now result }
{
    if places.next() > PLACE_LIMIT as u64 {
        return Err(ListingFault::ProgrammeTooLong);
    }
    let table = build_table(alloc, goal, places)?;
    Ok(list_plan(alloc, recording, epoch, uri, table, certificate)?)
}
