//! Codec strings under allocation failures.

use hls_codecs::codec::{Codec, HevcConfig, ParameterSets};
use hls_codecs::push_codec;
use std::alloc::{AllocError, Global};
use std::test::Fail;

/// A codec with a long string: every field of H.265 is written.
const LONG: Codec = Codec::Hevc(HevcConfig {
    sets: ParameterSets::InBand,
    profile_space: 3,
    high_tier: true,
    profile: 1,
    compatibility: 0x60000000,
    constraints: [0x90, 0, 0, 0, 0, 1],
    level: 30,
});

fn write_codec(alloc: Global, codec: Codec) -> Result<Vec<u8>, AllocError> {
    let mut out = Vec::new(alloc);
    push_codec(&mut out, codec)?;
    Ok(out)
}

/// A string is written whole, or an allocation failure is reported.
#[test]
fn codec_strings_out_of_memory(rt: HostRuntime) -> Result<(), Fail> {
    let alloc = rt.alloc();
    let text = match write_codec(alloc, LONG) {
        Ok(text) => text,
        Err(_) => write_codec(alloc, LONG)?,
    };
    assert!(rt; text.as_slice() == b"hev1.C1.6.H30.90.0.0.0.0.1".as_slice());
    Ok(())
}
