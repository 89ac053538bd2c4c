//! The box reader under allocation failures.

use super::parts::{
    ExpectedPart, assert_init_and_unit, feed_with_retry, is_at_its_end, is_next_part,
};
use hls_boxes::UnitReader;

/// All allocations here are the reader's, so this is the test to run with each allocation refused in turn.
#[test]
fn out_of_memory_loses_nothing(rt: HostRuntime) {
    let mut reader = UnitReader::new(rt.alloc());
    for piece in b"\x00\x00\x00\x09moov\x01\x00\x00\x00\x08moof\x00\x00\x00\x0amdat\x02\x03".chunks(
        7,
    ) {
        assert!(rt; feed_with_retry(&mut reader, piece).is_ok());
    }
    assert_init_and_unit(
        &rt,
        &mut reader,
        b"\x00\x00\x00\x09moov\x01",
        b"\x00\x00\x00\x08moof\x00\x00\x00\x0amdat\x02\x03",
    );
}

/// The buffer for complete parts has to grow in the middle of this piece.
#[test]
fn out_of_memory_between_parts(rt: HostRuntime) {
    let mut reader = UnitReader::new(rt.alloc());
    let piece =
        b"\x00\x00\x00\x08moov\x00\x00\x00\x09moov\x01\x00\x00\x00\x09moov\x02\x00\x00\x00\x09moov\x03\x00\x00\x00\x09moov\x04\x00\x00\x00\x09moov\x05";
    assert!(rt; feed_with_retry(&mut reader, piece).is_ok());
    assert!(rt; is_next_part(&mut reader, ExpectedPart::Init(b"\x00\x00\x00\x08moov")));
    for last in 1..=5 {
        let init = [0, 0, 0, 9, b'm', b'o', b'o', b'v', last];
        assert!(rt; is_next_part(&mut reader, ExpectedPart::Init(&init)));
    }
    assert!(rt; is_at_its_end(&mut reader));
}
