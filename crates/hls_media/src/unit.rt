//! Units: their top-level boxes and their facts.

ghost use Rattle.std.specs.Prelude.{pos, option_map, IfSome, ◌≡◌, ◌+◌, ◌*◌, ◌^◌, ◌<◌, ◌≤◌, length};
ghost use Rattle.hls_media_laws.specs.UnitFacts.{facts};
ghost use Rattle.hls_media_laws.specs.Layout.{layout_of};
ghost use Rattle.hls_media_laws.specs.FactCases.{facts_of_moof as facts_by_moof};
ghost use Rattle.hls_media.specs.RisesBy.{RisesBy};
ghost use Rattle.hls_media.specs.UnitLayout.{layout_of_spans};
ghost use Rattle.hls_media.specs.MoofSummary.{facts_context};

use crate::box_headers::read_box_header;
use crate::facts::decide_facts;
use crate::moof::{MdatBounds, summarize_moof};
use hls_boxes::kinds::{MDAT, MOOF, MOOV, UNIT_LIMIT};
use hls_media_laws::facts::Facts;
use hls_media_laws::fault::MediaFault;
use hls_media_laws::init::Init;
use hls_media_laws::track::Track;
use hls_time::Ticks;

/// The facts of a unit of `len` bytes whose `moof` has this content, or the first fault.
fn read_moof_facts(
    tracks: &[Track],
    timing: Track,
    bounds: MdatBounds,
    len: u64,
    moof: &[u8],
    ticks: &mut Ticks,
) -> Result<Facts, MediaFault>
    requires some { 0 < timing.scale }
    requires short { length moof.now ≤ 2 ^ 26 }
    requires count { ticks.old < 2 ^ 62 + 2 ^ 56 }
    ensures value { result ≡ facts_by_moof (facts_context tracks.now timing bounds) len moof.now }
    ensures counted { RisesBy (length moof.now * 4) ticks.old ticks.new }
{
    let Some(summary) = summarize_moof(tracks, timing, bounds, moof, ticks) else {
        return Err(MediaFault::BadBox);
    };
    decide_facts(timing, len, summary)
}

/// The positions of the parts of a unit.
#[derive(Clone, Copy)]
pub struct UnitLayout {
    /// The range of the `moof`'s content.
    pub from: usize,
    pub to: usize,
    /// The range of the `mdat`'s content, relative to the first byte of the `moof`.
    pub low: usize,
    pub high: usize,
}

/// The `moof` that was found: its start, and the range of its content.
#[derive(Clone, Copy)]
pub struct FoundMoof {
    pub begin: usize,
    pub from: usize,
    pub to: usize,
}

/// The layout of a unit, if the bytes are exactly one.
fn find_layout(unit: &[u8], ticks: &mut Ticks) -> Option<UnitLayout>
    requires { ticks.old < 2 ^ 62 }
    ensures value { option_map (layout_of_spans unit.now) result ≡ layout_of unit.now }
    ensures within { IfSome result (λ s. (s.from ≤ s.to) × (s.to ≤ length unit.now) × (length unit.now ≤ 2 ^ 26)) }
    ensures counted { RisesBy (length unit.now) ticks.old ticks.new }
{
    if unit.len() > UNIT_LIMIT as usize {
        return None;
    }
    let mut met: Option<FoundMoof> = None;
    let mut rest = unit;
    'boxes: while !rest.is_empty() {
        let Some(header) = read_box_header(rest, ticks) else {
            return None;
        };
        let at = unit.len() - rest.len();
        let size = header.size as usize;
        match header.kind {
            MOOV => return None,
            MOOF if met.is_some() => return None,
            MOOF => {
                met = Some(FoundMoof {
                    begin: at,
                    from: at + header.head as usize,
                    to: at + size,
                });
                rest = &rest[size..];
            }
            MDAT => {
                let Some(moof) = met else {
                    return None;
                };
                if size < rest.len() {
                    return None;
                }
                return Some(UnitLayout {
                    from: moof.from,
                    to: moof.to,
                    low: at + header.head as usize - moof.begin,
                    high: at + size - moof.begin,
                });
            }
            _ => rest = &rest[size..],
        }
    }
    None
}

fn mdat_bounds(layout: UnitLayout) -> MdatBounds
    ensures { result ≡ record { low = pos layout.low; high = pos layout.high } }
{
    MdatBounds {
        low: i128::from(layout.low as u64),
        high: i128::from(layout.high as u64),
    }
}

/// Reads the facts of a unit under its init section (ISO/IEC 14496-12 8.8). Doesn't allocate.
///
/// `ticks` is incremented for each field that is read: the size and type of a box, and its 64-bit size if it has one; and each number used
/// in its content, each time that it is used. However many samples a unit declares, that is at most 16 for each of its bytes.
///
/// # Errors
/// The first fault of the whole unit, in this order: `BadBox`, `UnknownTrack`, `BaseOffset`, `NoTimingTraf`, `TwoTimingTrafs`,
/// `NoDecodeTime`, `NoDefault`, `EmptyFragment`, `TimeTooLarge`, `DataOutside`.
pub fn read_facts_counted(init: &Init, unit: &[u8], ticks: &mut Ticks) -> Result<Facts, MediaFault>
    requires { ticks.old < 2 ^ 62 }
    ensures value { result ≡ facts init.now unit.now }
    ensures rises { ticks.old ≤ ticks.new }
    ensures bound { ticks.new ≤ ticks.old + 16 * length unit.now }
{
    let Some(layout) = find_layout(unit, ticks) else {
        return Err(MediaFault::BadBox);
    };
    let moof = &unit[layout.from..layout.to];
    read_moof_facts(
        init.tracks(),
        init.timing_track(),
        mdat_bounds(layout),
        unit.len() as u64,
        moof,
        ticks,
    )
}

/// The same as `read_facts_counted`, with a counter of its own.
pub fn read_facts(init: &Init, unit: &[u8]) -> Result<Facts, MediaFault>
    ensures { result ≡ facts init.now unit.now }
{
    read_facts_counted(init, unit, &mut Ticks::new())
}
