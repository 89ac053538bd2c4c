//! The players' master playlist under allocation failures.

use hls_core::snapshot::Snapshot;
use hls_players_master::players_master;
use hls_sample_channels::{THREE_UNITS, record_channel_with_retry};
use std::alloc::Global;
use std::test::Fail;

/// Units of 1000 bytes and four seconds. The init section has no sample entry.
const MASTER: &[u8] = b"#EXTM3U
#EXT-X-VERSION:6
#EXT-X-INDEPENDENT-SEGMENTS
#EXT-X-STREAM-INF:BANDWIDTH=3000000,AVERAGE-BANDWIDTH=2000,CLOSED-CAPTIONS=NONE
0.m3u8
";

fn master_with_retry(alloc: Global, snapshot: &Snapshot) -> Option<Vec<u8>> {
    match players_master(alloc, snapshot, true) {
        Ok(text) => text,
        Err(_) => players_master(alloc, snapshot, true).ok()?,
    }
}

#[test]
fn players_master_out_of_memory(rt: HostRuntime) -> Result<(), Fail> {
    let alloc = rt.alloc();
    let state = record_channel_with_retry(alloc, &THREE_UNITS).expect(&rt, "a channel");
    let text = master_with_retry(alloc, &state).expect(&rt, "a master");
    assert!(rt; text.as_slice() == MASTER);
    Ok(())
}
