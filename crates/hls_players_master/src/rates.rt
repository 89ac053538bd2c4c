//! Measures the bit rates of a rendition.

ghost use Rattle.std.specs.Prelude.{◌≡◌, ◌+◌, ◌≤◌, ◌^◌};
ghost use Rattle.hls_places_laws.specs.Line.Live.{segments_of};
ghost use Rattle.hls_players_master.specs.Rates.{bit_rate, and_segment, measure_of, rates_of};

use crate::segment_iterator::{iter_segments_from, next_segment};
use hls_live::{LiveLine, LiveSegment};
use hls_record::Recording;

/// How many segments are measured, the newest ones.
const MOST_MEASURED: u64 = 256;

/// The highest bit rate that is written: 2^53 - 1.
pub const MOST_RATE: u64 = 9007199254740991;

/// The bit rates of a rendition, in bits per second.
#[derive(Clone, Copy)]
pub struct Rates {
    /// That of the segment with the highest.
    pub peak: u64,
    /// That of all measured segments together.
    pub average: u64,
}

/// Some segments: the highest bit rate, and all bytes and microseconds together.
#[derive(Clone, Copy)]
pub struct Measure {
    pub peak: u64,
    pub bytes: u64,
    pub us: u128,
}

/// Bits per second, rounded up.
#[tactic(auto, unfolding(crate::specs::Rates::bit_rate))]
fn bit_rate(bytes: u64, us: u128) -> u64
    requires { us ≤ 2 ^ 100 }
    ensures { result ≡ bit_rate bytes us }
{
    if us == 0 {
        return 0;
    }
    let rate = (8000000 * u128::from(bytes) + us - 1) / us;
    rate.min(u128::from(MOST_RATE)) as u64
}

/// Adds a segment.
#[tactic(auto, unfolding(crate::specs::Rates::and_segment))]
fn and_segment(
    recording: &Recording,
    rendition: usize,
    measure: Measure,
    segment: &LiveSegment,
) -> Measure
    requires bytes { measure.bytes ≤ 2 ^ 50 }
    requires us { measure.us ≤ 2 ^ 80 }
    ensures bytes { result.bytes ≤ measure.bytes + 2 ^ 40 }
    ensures us { result.us ≤ measure.us + 2 ^ 64 }
    ensures value { result ≡ and_segment recording.now rendition measure segment.now }
{
    let from = segment.from.spots.get_or_zero(rendition);
    let to = segment.to.spots.get_or_zero(rendition);
    let bytes = recording
        .offset(to.fragment)
        .saturating_sub(recording.offset(from.fragment));
    let us = u128::from(to.prev_end.saturating_sub(from.start));
    Measure {
        peak: measure.peak.max(bit_rate(bytes, us)),
        bytes: measure.bytes + bytes,
        us: measure.us + us,
    }
}

/// Measures the newest segments of the live line in a rendition.
#[tactic(auto, unfolding(crate::specs::Rates::measure_of))]
fn measure_line(recording: &Recording, rendition: usize, line: &LiveLine) -> Measure
    ensures short { result.us ≤ 2 ^ 80 }
    ensures value { result ≡ measure_of recording.now rendition (segments_of line.now) }
{
    let segments = line.segments();
    let count = segments.next() - segments.first();
    let mut measure = Measure {
        peak: 0,
        bytes: 0,
        us: 0,
    };
    let mut walk = iter_segments_from(line, count.saturating_sub(MOST_MEASURED));
    while let Some(segment) = next_segment(&mut walk) {
        measure = and_segment(recording, rendition, measure, segment);
    }
    measure
}

/// The bit rates of the newest segments of the live line in a rendition. None before a segment was closed. It looks at 256 segments at
/// most, and searches the recording twice for each.
#[tactic(auto, unfolding(crate::specs::Rates::rates_of))]
pub fn measure_rates(recording: &Recording, rendition: usize, line: &LiveLine) -> Option<Rates>
    ensures { result ≡ rates_of (measure_of recording.now rendition (segments_of line.now)) }
{
    let measure = measure_line(recording, rendition, line);
    if measure.us == 0 {
        return None;
    }
    Some(Rates {
        peak: measure.peak,
        average: bit_rate(measure.bytes, measure.us),
    })
}
