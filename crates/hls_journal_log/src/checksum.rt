//! The checksum of records and of stored units.

ghost use Rattle.std.specs.Prelude.{◌≡◌};
ghost use Rattle.byteorder.specs.Endian.{little_number};
ghost use Rattle.hls_journal_log.specs.Checksum.{checksum_of, mix};

use byteorder::{ByteOrder, LittleEndian};
use std::simd::prelude::*;

/// The state before the number: the first 64 bits of pi's fraction.
const START: u64 = 0x243f_6a88_85a3_08d3;

/// The bytes of a word.
const WORD_LEN: usize = 8;

/// Returns the checksum of a number and a text, which guards against torn writes and decay, not against forgery.
///
/// Each step is a bijection of the state and of the word, so two texts of one length that differ in one word have different checksums.
pub fn checksum_of(number: u64, text: &[u8]) -> u64
    ensures { result ≡ checksum_of number text.now }
{
    let mut state = mix(mix(START, number), text.len() as u64);
    let (words, rest) = text.as_chunks::<WORD_LEN>();
    for word in words {
        state = mix(state, read_word(u8x8::from_array(*word)));
    }
    if !rest.is_empty() {
        state = mix(state, LittleEndian::read_uint(rest, rest.len()));
    }
    state
}

/// Returns the number in eight bytes, the lowest first. As lanes they are read by one load.
fn read_word(bytes: u8x8) -> u64
    ensures { result ≡ little_number 8 bytes }
{
    u64x1::from_le_bytes(bytes).to_array()[0]
}

/// Returns the state after one more word.
fn mix(state: u64, word: u64) -> u64
    ensures { result ≡ mix state word }
{
    (state ^ word.wrapping_mul(0x9e37_79b9_7f4a_7c15))
        .rotate_left(31)
        .wrapping_mul(0xbf58_476d_1ce4_e5b9)
}
