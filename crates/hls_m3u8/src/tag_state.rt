//! The state after some lines of a playlist.

ghost use Rattle.hls_m3u8.specs.ReaderRecords as records;

use crate::playlist::{ByteRange, MediaSegment, PlaylistKind};
use crate::uri_range::UriRange;
use crate::value::RangeTag;
use std::marker::Model;

/// The state after some lines: the playlist's tags, the next segment's tags, and the last segment.
#[derive(Drop)]
pub(crate) struct TagState<'a> {
    pub(crate) version: Option<u64>,
    pub(crate) target: Option<u64>,
    pub(crate) media_sequence: Option<u64>,
    pub(crate) discontinuity_sequence: Option<u64>,
    pub(crate) kind: Option<PlaylistKind>,
    pub(crate) map: Option<UriRange<'a>>,
    pub(crate) ended: bool,
    pub(crate) us: Option<u64>,
    pub(crate) range: Option<RangeTag>,
    pub(crate) mark: bool,
    pub(crate) date: Option<i64>,
    pub(crate) last: Option<UriRange<'a>>,
    pub(crate) count: usize,
}

impl<'a> Model for TagState<'a> {
    ghost Value = { records.TagState };

    ghost view = { λ r. record {
      version = r.version;
      target = r.target;
      media_sequence = r.media_sequence;
      discontinuity_sequence = r.discontinuity_sequence;
      kind = r.kind;
      map = r.map;
      ended = r.ended;
      us = r.us;
      range = r.range;
      mark = r.mark;
      date = r.date;
      last = r.last;
      count = r.count;
    } };
}

/// The tags of the segment that a URI line completes.
#[derive(Clone, Copy)]
pub(crate) struct SegmentTags {
    pub(crate) mark: bool,
    pub(crate) date: Option<i64>,
    pub(crate) us: u64,
    pub(crate) range: Option<ByteRange>,
}

impl Model for SegmentTags {
    ghost Value = { records.SegmentTags };

    ghost view = { λ r. record { mark = r.mark; date = r.date; us = r.us; range = r.range } };

    ghost inverse = { λ r. record { mark = r.mark; date = r.date; us = r.us; range = r.range } };
}

/// The state after some lines, and the segments so far.
#[derive(Drop)]
pub(crate) struct ReadState<'a> {
    pub(crate) state: TagState<'a>,
    pub(crate) segments: Vec<MediaSegment>,
}
