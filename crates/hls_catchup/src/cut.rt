//! Cuts a table by a least plan.

ghost use Rattle.std.specs.Prelude.{map, IfOk};
ghost use Rattle.hls_core_laws.specs.Config.{IsEpoch};
ghost use Rattle.hls_catchup.specs.Answers.{AreCovered, IsRightCutResult};

use crate::cut_result::CutResult;
use crate::laws::good_certificates_are_accepted;
use hls_check_tables::PlaceTable;
use hls_plan::{Planned, certificate, plan};
use hls_playlists::make_job_lists;
use hls_record::Recording;
use std::alloc::{AllocError, Global};

/// Cuts the programme of a table: a least plan with its playlists, which have dates if there is an epoch, or the proof that there is
/// no plan.
pub fn cut_programme(
    alloc: Global,
    recordings: &[&Recording],
    epoch: Option<i64>,
    table: PlaceTable,
) -> Result<CutResult, AllocError>
    requires covered { AreCovered table (map (λ r. r.now) recordings.now) }
    requires epoch { IsEpoch epoch }
    ensures { IfOk result (IsRightCutResult epoch (map (λ r. r.now) recordings.now) table) }
{
    good_certificates_are_accepted();
    let _ = table.len(); // the proof needs that the table is well formed
    let planned = plan(alloc, &table)?;
    match &planned {
        Planned::Cut { plan, .. } => {
            let playlists = make_job_lists(alloc, recordings, epoch, &table, plan.as_slice())?;
            Ok(CutResult::Cut {
                playlists,
                certificate: certificate(table, planned),
            })
        }
        Planned::NoCut { .. } => Ok(CutResult::NoCut {
            certificate: certificate(table, planned),
        }),
    }
}
