//! Mending under allocation failures: a call that reports it is out of memory gives its only answer when it is repeated.

use hls_fakes::init_bytes;
use hls_media::read_init;
use hls_media_laws::init::Init;
use hls_mend::{hold_unit, retime_unit, silent_unit};
use hls_mend_laws::filler::{FillerSpan, FrameLength};
use std::alloc::Global;
use std::test::Fail;

/// A unit of three samples from tick 25601, as ffmpeg writes video: `styp`, `moof` and `mdat`.
const SENT: [u8; 141] = [
    0, 0, 0, 8, 115, 116, 121, 112, 0, 0, 0, 116, 109, 111, 111, 102, 0, 0, 0, 16, 109, 102, 104,
    100, 0, 0, 0, 0, 0, 0, 0, 7, 0, 0, 0, 92, 116, 114, 97, 102, 0, 0, 0, 28, 116, 102, 104, 100,
    0, 2, 0, 56, 0, 0, 0, 1, 0, 0, 2, 0, 0, 0, 0, 4, 1, 1, 0, 0, 0, 0, 0, 20, 116, 102, 100, 116,
    1, 0, 0, 0, 0, 0, 0, 0, 0, 0, 100, 1, 0, 0, 0, 36, 116, 114, 117, 110, 0, 0, 2, 5, 0, 0, 0, 3,
    0, 0, 0, 120, 2, 0, 0, 0, 0, 0, 0, 3, 0, 0, 0, 2, 0, 0, 0, 4, 0, 0, 0, 17, 109, 100, 97, 116,
    1, 2, 3, 11, 12, 21, 22, 23, 24,
];

/// The same samples from tick 25600, as mending writes them.
const RETIMED: [u8; 173] = [
    0, 0, 0, 8, 115, 116, 121, 112, 0, 0, 0, 148, 109, 111, 111, 102, 0, 0, 0, 16, 109, 102, 104,
    100, 0, 0, 0, 0, 0, 0, 0, 7, 0, 0, 0, 124, 116, 114, 97, 102, 0, 0, 0, 28, 116, 102, 104, 100,
    0, 2, 0, 56, 0, 0, 0, 1, 0, 0, 2, 0, 0, 0, 0, 4, 1, 1, 0, 0, 0, 0, 0, 20, 116, 102, 100, 116,
    1, 0, 0, 0, 0, 0, 0, 0, 0, 0, 100, 0, 0, 0, 0, 68, 116, 114, 117, 110, 1, 0, 15, 1, 0, 0, 0, 3,
    0, 0, 0, 156, 0, 0, 2, 1, 0, 0, 0, 3, 2, 0, 0, 0, 0, 0, 0, 0, 0, 0, 2, 0, 0, 0, 0, 2, 1, 1, 0,
    0, 0, 0, 0, 0, 0, 0, 2, 0, 0, 0, 0, 4, 1, 1, 0, 0, 0, 0, 0, 0, 0, 0, 0, 17, 109, 100, 97, 116,
    1, 2, 3, 11, 12, 21, 22, 23, 24,
];

fn retime_with_retry(alloc: Global, init: &Init) -> Result<Option<Vec<u8>>, Fail> {
    match retime_unit(alloc, init, &SENT, 25600) {
        Ok(made) => Ok(made),
        Err(_) => Ok(retime_unit(alloc, init, &SENT, 25600)?),
    }
}

fn hold_with_retry(alloc: Global, init: &Init) -> Result<Option<Vec<u8>>, Fail> {
    let span = FillerSpan {
        start: 30000,
        ticks: 512,
        most: 1000,
    };
    match hold_unit(alloc, init, &SENT, span) {
        Ok(made) => Ok(made),
        Err(_) => Ok(hold_unit(alloc, init, &SENT, span)?),
    }
}

fn silence_with_retry(alloc: Global, init: &Init) -> Result<Option<Vec<u8>>, Fail> {
    let span = FillerSpan {
        start: 30000,
        ticks: 2000,
        most: 1000,
    };
    let length = FrameLength {
        ticks: 512 * 48000,
        rate: 48000,
    };
    match silent_unit(alloc, init, &SENT, length, Some(&[8, 9]), span) {
        Ok(made) => Ok(made),
        Err(_) => Ok(silent_unit(alloc, init, &SENT, length, Some(&[8, 9]), span)?),
    }
}

#[test]
fn mending_without_memory_changes_nothing(rt: HostRuntime) -> Result<(), Fail> {
    let alloc = rt.alloc();
    let bytes = init_bytes(alloc, b"vide", 12800)?;
    let Ok(init) = read_init(alloc, &bytes) else {
        return Err(Fail::from("no init section"));
    };
    let made = retime_with_retry(alloc, &init)?.ok_or("not made")?;
    assert!(rt; made.as_slice() == RETIMED.as_slice());
    let held = hold_with_retry(alloc, &init)?.ok_or("not made")?;
    assert_eq!(rt; held.len(), 127);
    let silent = silence_with_retry(alloc, &init)?.ok_or("not made")?;
    assert_eq!(rt; silent.len(), 180);
    Ok(())
}
