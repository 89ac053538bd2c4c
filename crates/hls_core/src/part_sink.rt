//! The sink that takes the parts of a stream.

ghost use Rattle.std.specs.Prelude.{ℕ, Result};
ghost use Rattle.hls_boxes.specs.declared.part.Part.{Part as PartData};
ghost use Rattle.hls_core.specs.declared.feed_fault.FeedFault.{FeedFault as FeedFaultData};

use crate::feed_fault::FeedFault;
use hls_boxes::part::Part;

/// Accepts the parts of a stream into a channel, one after the other.
pub trait PartSink {
    /// The state of the stream while it is ingested.
    type StreamState;

    /// The channel into which the parts go.
    type Channel;

    /// How far a stream has come.
    ghost Progress: { Type 0 };

    ghost progress: { Self.StreamState → Self.Channel → Progress };

    /// The precondition of each call.
    ghost fits: { Self → Self.StreamState → Self.Channel → Type 0 };

    /// The result of a part: it is accepted, or refused, or memory runs out.
    ghost yields: { Self → Progress → PartData → Progress → Result (Unit {0}) FeedFaultData → Type 0 };

    /// The effect of a call on the channel.
    ghost changes: { Self.StreamState → Self.Channel → Self.StreamState → Self.Channel → Type 0 };

    ghost changes_refl: { (kept : Self.StreamState) (channel : Self.Channel) → changes kept channel kept channel };

    ghost changes_trans: { (kept : Self.StreamState) (channel : Self.Channel) (later : Self.StreamState) (now : Self.Channel) (last : Self.StreamState) (then : Self.Channel)
        → changes kept channel later now → changes later now last then → changes kept channel last then };

    /// Accepts the next part.
    fn accept_part(
        &self,
        kept: &mut Self::StreamState,
        channel: &mut Self::Channel,
        part: Part,
    ) -> Result<(), FeedFault>
        requires { fits self.now kept.old channel.old }
        ensures fits { fits self.now kept.new channel.new }
        ensures changes { changes kept.old channel.old kept.new channel.new }
        ensures yields { yields self.now (progress kept.old channel.old) part (progress kept.new channel.new) result };
}
