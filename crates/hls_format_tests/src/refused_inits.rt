//! Failing allocations, and the names of the faults.

use hls_media::read_init;
use hls_media_laws::fault::MediaFault;
use std::test::Fail;

/// A `moov` with a video track at 90000 ticks per second.
const ONE_TRACK: &[u8; 92] =
    b"\x00\x00\x00\x5cmoov\x00\x00\x00\x54trak\x00\x00\x00\x18tkhd\x00\x00\x00\x00\x00\x00\x00\x00\x00\x00\
\x00\x00\x00\x00\x00\x01\x00\x00\x00\x34mdia\x00\x00\x00\x18mdhd\x00\x00\x00\x00\x00\x00\x00\x00\x00\
\x00\x00\x00\x00\x01\x5f\x90\x00\x00\x00\x14hdlr\x00\x00\x00\x00\x00\x00\x00\x00vide";

/// The same without a timescale.
const NO_SCALE: &[u8; 92] =
    b"\x00\x00\x00\x5cmoov\x00\x00\x00\x54trak\x00\x00\x00\x18tkhd\x00\x00\x00\x00\x00\x00\x00\x00\x00\x00\
\x00\x00\x00\x00\x00\x01\x00\x00\x00\x34mdia\x00\x00\x00\x18mdhd\x00\x00\x00\x00\x00\x00\x00\x00\x00\
\x00\x00\x00\x00\x00\x00\x00\x00\x00\x00\x14hdlr\x00\x00\x00\x00\x00\x00\x00\x00vide";

/// The only allocation here is that of the init section, so this is the test to run with each allocation failing in turn: a failure occurs
/// only instead of a value, and a second attempt returns the value.
#[test]
fn out_of_memory_is_reported(rt: HostRuntime) -> Result<(), Fail> {
    let alloc = rt.alloc();
    assert_eq!(rt;
        read_init(alloc, NO_SCALE).err(),
        Some(MediaFault::ZeroScale)
    );
    let init = match read_init(alloc, ONE_TRACK) {
        Err(MediaFault::Memory) => read_init(alloc, ONE_TRACK)?,
        answer => answer?,
    };
    assert_eq!(rt; init.tracks().len(), 1);
    assert_eq!(rt; init.timing_track().scale, 90000);
    Ok(())
}

const NAMES: [(MediaFault, &str); 14] = [
    (MediaFault::BadBox, "BadBox"),
    (MediaFault::NoTrack, "NoTrack"),
    (MediaFault::TooManyTracks, "TooManyTracks"),
    (MediaFault::ZeroScale, "ZeroScale"),
    (MediaFault::NoDefault, "NoDefault"),
    (MediaFault::NoTimingTraf, "NoTimingTraf"),
    (MediaFault::TwoTimingTrafs, "TwoTimingTrafs"),
    (MediaFault::NoDecodeTime, "NoDecodeTime"),
    (MediaFault::BaseOffset, "BaseOffset"),
    (MediaFault::UnknownTrack, "UnknownTrack"),
    (MediaFault::EmptyFragment, "EmptyFragment"),
    (MediaFault::DataOutside, "DataOutside"),
    (MediaFault::TimeTooLarge, "TimeTooLarge"),
    (MediaFault::Memory, "Memory"),
];

/// The names equal the printed texts.
#[test]
fn names(rt: HostRuntime) -> Result<(), Fail> {
    for (fault, name) in &NAMES {
        assert_eq!(rt; fault.name(), *name);
        assert_eq!(rt; format!(in rt.alloc(); "{fault}")?.as_str(), *name);
    }
    Ok(())
}
