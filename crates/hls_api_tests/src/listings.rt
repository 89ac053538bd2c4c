//! Listings of a recorded channel of three units.

ghost use Rattle.hls_commands.specs.Listings.{CanList};

use hls_check_tables::CostRule;
use hls_commands::{ListingFault, ListingMode, ListingOutput, list_channel};
use hls_core::snapshot::Snapshot;
use hls_fakes::CallOutcome;
use hls_m3u8::is_uri;
use hls_sample_channels::{THREE_UNITS, end_channel_with_retry};
use std::alloc::Global;

fn list_text() -> &'static [u8] {
    b"#EXTM3U\n#EXT-X-VERSION:6\n#EXT-X-TARGETDURATION:6\n#EXT-X-MEDIA-SEQUENCE:0\n#EXT-X-DISCONTINUITY-SEQUENCE:0\n#EXT-X-PLAYLIST-TYPE:VOD\n#EXT-X-MAP:URI=\"a.mp4\",BYTERANGE=\"600@0\"\n#EXTINF:4.000000,\n#EXT-X-BYTERANGE:1000@600\na.mp4\n#EXTINF:4.000000,\n#EXT-X-BYTERANGE:1000@1600\na.mp4\n#EXTINF:4.000000,\n#EXT-X-BYTERANGE:1000@2600\na.mp4\n#EXT-X-ENDLIST\n"
}

fn certificate_text() -> &'static [u8] {
    b"HLS-CUT-CERTIFICATE 1\ntarget 6\npreferred 4000000\nrenditions 1\nplaces 4\n0 0 0 0 0\n1 4000000 4000000 0 0\n2 8000000 8000000 0 0\n3 12000000 12000000 0 0\ncut 0\nplan 0 1 2 3\nprice 0 0\nprice 1 0\nprice 2 0\nprice 3 0\nend\n"
}

fn is_listed(listed: &ListingOutput, expected: &[u8]) -> bool {
    match listed {
        ListingOutput::Text(text) => text.as_slice() == expected,
        _ => false,
    }
}

/// The outcome of a listing of the channel, which stays unchanged.
pub fn outcome_of(
    alloc: Global,
    state: &Snapshot,
    listing: ListingMode,
    expected: &[u8],
) -> CallOutcome
    requires { CanList listing }
{
    if state.config().renditions().len() != 1 || state.recording(0).is_none() {
        return CallOutcome::Wrong;
    }
    if !is_uri("a.mp4") {
        return CallOutcome::Wrong;
    }
    let outcome = match list_channel(alloc, state, "a.mp4", listing) {
        Ok(listed) => CallOutcome::from_answer(is_listed(&listed, expected)),
        Err(ListingFault::Memory) => CallOutcome::OutOfMemory,
        Err(_) => CallOutcome::Wrong,
    };
    outcome.require_unchanged(state.version() == 5)
}

/// A least plan's playlist, or its certificate.
fn planned_mode(certificate: bool) -> ListingMode
    ensures { CanList result }
{
    ListingMode::Planned {
        rule: CostRule::Deviation,
        certificate,
    }
}

pub fn outcome_of_each(alloc: Global, state: &Snapshot) -> CallOutcome {
    outcome_of(alloc, state, ListingMode::Each, list_text())
}

pub fn outcome_of_planned(alloc: Global, state: &Snapshot) -> CallOutcome {
    outcome_of(alloc, state, planned_mode(false), list_text())
}

pub fn outcome_of_certificate(alloc: Global, state: &Snapshot) -> CallOutcome {
    outcome_of(alloc, state, planned_mode(true), certificate_text())
}

#[test]
fn out_of_memory_then_prints_again(rt: HostRuntime) {
    let alloc = rt.alloc();
    let state = end_channel_with_retry(alloc, &THREE_UNITS).expect(&rt, "a channel");
    assert!(rt; outcome_of_each(alloc, &state).is_consistent_with(outcome_of_each(alloc, &state)));
    assert!(rt;
        outcome_of_planned(alloc, &state).is_consistent_with(outcome_of_planned(alloc, &state))
    );
    assert!(rt;
        outcome_of_certificate(alloc, &state).is_consistent_with(outcome_of_certificate(
            alloc, &state
        ))
    );
}
