//! Ingests a stream part by part.

ghost use Rattle.std.specs.Prelude.{◌≡◌, ℕ, List, None};
ghost use Rattle.hls_boxes.specs.Parts.{text_fault};
ghost use Rattle.hls_core.specs.Streams.{EndsStream, Feeds, IsLeft};
ghost use Rattle.hls_core.specs.DrainSteps.{Drains};

use crate::feed_fault::{FeedFault, StreamFault};
use crate::part_sink::PartSink;
use hls_boxes::UnitReader;
use hls_boxes::fault::BoxFault;

/// Gives all whole parts of what was fed to the sink.
fn drain_parts<T: PartSink>(
    reader: &mut UnitReader,
    sink: &T,
    kept: &mut T::StreamState,
    channel: &mut T::Channel,
) -> Result<(), FeedFault>
    requires { T.fits sink.now kept.old channel.old }
    ensures fits { T.fits sink.now kept.new channel.new }
    ensures changes { T.changes kept.old channel.old kept.new channel.new }
    ensures drains { Drains (T.yields sink.now) reader.old reader.new (T.progress kept.old channel.old) (T.progress kept.new channel.new) result }
{
    while let Some(part) = reader.take()? {
        sink.accept_part(kept, channel, part)?;
    }
    Ok(())
}

/// Feeds the next piece of a stream: each complete part is given to the sink, in order, up to the first refusal. After a refusal
/// nothing more may be fed.
pub fn ingest_piece<T: PartSink>(
    reader: &mut UnitReader,
    sink: &T,
    kept: &mut T::StreamState,
    channel: &mut T::Channel,
    piece: &[u8],
) -> Result<(), FeedFault>
    requires { T.fits sink.now kept.old channel.old }
    ensures fits { T.fits sink.now kept.new channel.new }
    ensures changes { T.changes kept.old channel.old kept.new channel.new }
    ensures ingests { Feeds (T.yields sink.now) reader.old piece.now reader.new (T.progress kept.old channel.old) (T.progress kept.new channel.new) result }
{
    let fault = match reader.feed(piece) {
        Ok(()) => return drain_parts(reader, sink, kept, channel),
        Err(fault) => fault,
    };
    match fault {
        BoxFault::Memory => Err(FeedFault::Memory),
        _ => {
            drain_parts(reader, sink, kept, channel)?;
            Err(FeedFault::Refused(StreamFault::Boxes(fault)))
        }
    }
}

/// Ends a stream: `Truncated` inside a part. Doesn't allocate.
pub fn finish_stream(reader: &UnitReader) -> Result<(), StreamFault>
    ensures { (content : List ℕ) → text_fault content ≡ None → IsLeft content reader.now → EndsStream content result }
{
    match reader.finish() {
        Ok(()) => Ok(()),
        Err(fault) => Err(StreamFault::Boxes(fault)),
    }
}
