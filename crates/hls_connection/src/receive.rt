//! A request's body while it is received: discarded, or an encoder's, which is ingested part by part as it arrives.

ghost use Rattle.std.specs.Prelude.{◌≡◌, ◌<◌, ◌≤◌, ◌↔◌, IsTrue, IsFalse, length};
ghost use Rattle.hls_http.specs.Bodies.{IsOpen};
ghost use Rattle.hls_api.specs.Acts.{ActsExtend};
ghost use Rattle.hls_connection.specs.Events.{ingest_event};
ghost use Rattle.hls_connection.specs.WithinBody.{BodyIsBetweenParts, EndsTarget, HasRoom, IsForTarget, ReceivesFrom, SuitsTarget, TakesPiece, TargetIsBetweenParts, is_mended_into, status_into, target_after_frame};
ghost use Rattle.hls_connection.specs.declared.receive.BodyProgress.TheVariants as progresses;

use crate::events::{IngestReport, SessionEvent};
use crate::ingest_sink::{IngestSink, IngestState};
use crate::keeper::Keeper;
use crate::request_context::RequestContext;
use hls_api::ingest::IngestStop;
use hls_api::route::{IngestTarget, Route};
use hls_boxes::UnitReader;
use hls_core::{finish_stream, ingest_piece};
use hls_event_loop::ConnectionStage;
use hls_http::{
    BodyEnd, BodyFraming, BodyToken, InputBuffer, TokenFault, announced_len, find_token,
};

/// Where a body's content goes.
#[derive(Drop)]
pub(crate) enum BodyTarget {
    /// It is discarded, and at most `room` more bytes of it may be announced.
    Nothing {
        room: u64,
    },
    /// It is this encoder's; the reader holds what was received of the next part.
    Encoder {
        encoder: IngestTarget,
        reader: UnitReader,
    },
}

/// A request whose body is received.
#[derive(Drop)]
pub(crate) struct ReceivingBody {
    pub context: RequestContext,
    pub route: Route,
    pub body: BodyFraming,
    pub target: BodyTarget,
    /// What was ingested of it, and the keeper's acts for that.
    pub taken: IngestState,
}

/// The progress of a body.
#[derive(Clone, Copy, Drop)]
pub(crate) enum BodyProgress {
    /// Some of it was received, and there may be more.
    More,
    /// More bytes are needed.
    Wait,
    /// It announces more bytes than are discarded.
    TooLarge,
    /// It ended, or no more of it is received for this reason.
    Done(Result<(), IngestStop>),
}

impl BodyTarget {
    /// Handles a piece of the content. Each part that it completes is submitted before the next one is read.
    fn take_piece<K: Keeper>(
        &mut self,
        taken: &mut IngestState,
        keeper: &mut K,
        piece: &[u8],
    ) -> Result<(), IngestStop>
        requires usable { SuitsTarget (K.known keeper.old) self.old taken.old }
        ensures usable { SuitsTarget (K.known keeper.new) self.new taken.new }
        ensures act_steps { ActsExtend K.other_actors (K.known keeper.old) taken.old.acts (K.known keeper.new) taken.new.acts }
        ensures takes { TakesPiece self.old taken.old piece.now self.new taken.new result }
    {
        let BodyTarget::Encoder { encoder, reader } = self else {
            return Ok(());
        };
        let sink: IngestSink<K> = IngestSink::new(*encoder);
        match ingest_piece(reader, &sink, taken, keeper, piece) {
            Ok(()) => Ok(()),
            Err(fault) => Err(IngestStop::from(fault)),
        }
    }

    /// Whether it is an encoder's whose units are mended.
    pub fn is_mended(&self) -> bool
        ensures { result ≡ is_mended_into self.now }
    {
        match self {
            BodyTarget::Nothing { .. } => false,
            BodyTarget::Encoder { encoder, .. } => encoder.mending.is_some(),
        }
    }

    /// Whether it is an encoder's, and nothing of its next part was received.
    fn is_between_parts(&self) -> bool
        ensures { IsTrue result ↔ TargetIsBetweenParts self.now }
    {
        match self {
            BodyTarget::Nothing { .. } => false,
            BodyTarget::Encoder { reader, .. } => reader.finish().is_ok(),
        }
    }

    /// Whether `len` more bytes may be announced. If so, they are counted.
    fn announce(&mut self, len: u64) -> bool
        ensures fits { IsTrue result ↔ HasRoom self.old len }
        ensures counted { IsTrue result → self.new ≡ target_after_frame self.old len }
        ensures same { IsFalse result → self.new ≡ self.old }
    {
        match self {
            BodyTarget::Nothing { room } if *room < len => false,
            BodyTarget::Nothing { room } => {
                *room -= len;
                true
            }
            BodyTarget::Encoder { .. } => true,
        }
    }

    /// Ends the content: an encoder's must not end within a part.
    fn finish(&self) -> Result<(), IngestStop>
        ensures { EndsTarget self.now result }
    {
        let BodyTarget::Encoder { reader, .. } = self else {
            return Ok(());
        };
        match finish_stream(reader) {
            Ok(()) => Ok(()),
            Err(fault) => Err(IngestStop::Refused(fault)),
        }
    }
}

impl ReceivingBody {
    /// Receives what is at the front of the input.
    pub fn receive_some<K: Keeper>(
        &mut self,
        input: &mut InputBuffer,
        keeper: &mut K,
    ) -> BodyProgress
        requires usable { SuitsTarget (K.known keeper.old) self.old.target self.old.taken }
        ensures usable { SuitsTarget (K.known keeper.new) self.new.target self.new.taken }
        ensures act_steps { ActsExtend K.other_actors (K.known keeper.old) self.old.taken.acts (K.known keeper.new) self.new.taken.acts }
        ensures receives { ReceivesFrom self.old input.old.unread self.new input.new.unread result }
        ensures waits { result ≡ progresses.Wait → length input.new.unread < 16384 }
        ensures unfinished { result ≡ progresses.Wait → IsOpen self.new.body input.new.unread }
        ensures takes { result ≡ progresses.More → length input.new.unread < length input.old.unread }
        ensures less { length input.new.unread ≤ length input.old.unread }
        ensures room { input.new.room ≡ input.old.room }
        ensures for_target { IsForTarget self.old.target self.old.route self.old.context → IsForTarget self.new.target self.new.route self.new.context }
    {
        if self.body == BodyFraming::Length(0) {
            return BodyProgress::Done(self.target.finish());
        }
        match find_token(input.unread(), self.body) {
            Ok(BodyToken::Piece(len, next)) => {
                let piece = &input.unread()[..len];
                let received = self.target.take_piece(&mut self.taken, keeper, piece);
                input.consume(len);
                self.body = next;
                match received {
                    Ok(()) => BodyProgress::More,
                    Err(stop) => BodyProgress::Done(Err(stop)),
                }
            }
            Ok(BodyToken::Frame(len, next)) => {
                if !self.target.announce(announced_len(next)) {
                    return BodyProgress::TooLarge;
                }
                input.consume(len);
                self.body = next;
                BodyProgress::More
            }
            Err(TokenFault::Incomplete) => BodyProgress::Wait,
            Err(TokenFault::Invalid) => BodyProgress::Done(Err(IngestStop::Stopped(
                BodyEnd::BadFraming,
            ))),
        }
    }

    /// The event for an encoder's body that ended with this result; none for another body.
    pub fn ingest_event(&self, end: Result<(), IngestStop>) -> Option<SessionEvent>
        ensures { result ≡ ingest_event self.now end }
    {
        let BodyTarget::Encoder { encoder, .. } = &self.target else {
            return None;
        };
        Some(SessionEvent::Ingested(IngestReport {
            rendition: encoder.rendition,
            is_mended: encoder.mending.is_some(),
            counts: self.taken.counts,
            result: end,
        }))
    }

    /// Whether it is an encoder's in chunks, and nothing of its next part was received.
    pub fn is_between_parts(&self) -> bool
        ensures { IsTrue result ↔ BodyIsBetweenParts self.now }
    {
        match self.body {
            BodyFraming::Size | BodyFraming::Data(_) => self.target.is_between_parts(),
            _ => false,
        }
    }

    /// Whether it is an encoder's.
    pub fn is_encoders(&self) -> bool {
        matches!(self.target, BodyTarget::Encoder { .. })
    }

    /// What the connection waits for while it receives the body.
    pub fn status(&self) -> ConnectionStage
        ensures { result ≡ status_into self.now.target }
    {
        match self.target {
            BodyTarget::Nothing { .. } => ConnectionStage::Discarding,
            BodyTarget::Encoder { .. } => ConnectionStage::Ingesting,
        }
    }
}
