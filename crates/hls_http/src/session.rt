//! A session: requests from a reader, and replies to a writer.

ghost use Rattle.std.specs.Prelude.{◌≡◌};
ghost use Rattle.hls_io.specs.{Counted.failures_of, Streams.RelatesOutput, Writing.{CountsWrite, Writes}};
ghost use Rattle.hls_http.specs.{ReadBodies.{CountsBody, ReadsPiece}, ReadHeads.{CountsHead, ReadsHead}};
ghost use Rattle.hls_http.specs.{Responses.{WritesResponse, CountsResponse}, BufferedReader.{FromSource, read_failures, taken_of}};

use crate::body_tokens::{BodyRead, BodyToken, TokenFault, find_token};
use crate::buffered_reader::BufferedReader;
use crate::end::{BodyEnd, SessionEnd};
use crate::framing::BodyFraming;
use crate::head::{HeadEnd, HeadFault, ParsedHead, find_head};
use crate::input_buffer::ReadOutcome;
use crate::response::make_response;
use crate::response_parts::{ResponseParts, out_of_memory_response};
use hls_io::{Counted, Resource, SendBuffer, TextResource, write_whole};
use std::alloc::{AllocError, Global};
use std::io::{Read, Write};

/// A session over a reader and a writer, both counted.
#[derive(Drop)]
pub struct Session<R, W> {
    /// The reader, with the bytes that were read and not yet taken.
    pub source: BufferedReader<R>,
    /// The writer.
    pub writer: Counted<W>,
}

impl<R: Drop, W: Drop> Session<R, W> {
    ghost use Rattle.std.specs.Prelude.{IfOk};
    ghost use Rattle.hls_http.specs.BufferedReader.{IsNew};

    /// Creates a session with nothing read and nothing written. Allocates the buffer of 65536 bytes; later only the heads of replies
    /// are allocated.
    pub fn new(alloc: Global, reader: R, writer: W) -> Result<Session<R, W>, AllocError>
        ensures { IfOk result (IsNew reader writer) }
    {
        let source = BufferedReader::new(alloc, reader)?;
        Ok(Session {
            source,
            writer: Counted::new(writer),
        })
    }
}

impl<R: Read, W> Session<R, W> {
    /// Reads the next head, with as many reads as it needs. The source has then taken the head's text last, with the empty lines
    /// before it. On any error nothing is taken. Doesn't allocate.
    #[tactic(auto, using(crate::proofs::HeadLaws::heard_ok))]
    pub fn next_head(&mut self) -> Result<ParsedHead, HeadEnd>
        ensures reads_head { FromSource R.remaining self.old.source self.new.source (λ input. ReadsHead input (taken_of self.new.source)) result }
        ensures counts { CountsHead result (read_failures self.old.source) (read_failures self.new.source) }
        ensures writer { self.new.writer ≡ self.old.writer }
    {
        loop {
            match find_head(self.source.input.unread()) {
                Ok((head, len)) => {
                    self.source.input.consume(len);
                    return Ok(head);
                }
                Err(HeadFault::Invalid) => return Err(HeadEnd::BadHead),
                Err(HeadFault::TooLarge) => return Err(HeadEnd::HeadTooLarge),
                Err(HeadFault::Partial) => {}
            }
            match self.source.input.read_from(&mut self.source.reader) {
                ReadOutcome::Data => {}
                ReadOutcome::Eof if self.source.input.unread().is_empty() => return Err(
                    HeadEnd::Closed,
                ),
                ReadOutcome::Eof => return Err(HeadEnd::CutShort),
                ReadOutcome::Failed => return Err(HeadEnd::ReadFailed),
            }
        }
    }

    /// Reads the next piece of a body, with as many reads as it needs, and updates the body's framing. After the body's end, the
    /// bytes that follow it are held. The last byte of a body by length is a piece of its own, so whatever an earlier piece yields
    /// precedes the body's end. Doesn't allocate.
    pub fn body(&mut self, body: &mut BodyFraming) -> Result<BodyRead, BodyEnd>
        ensures reads_piece { FromSource R.remaining self.old.source self.new.source
            (λ input. ReadsPiece body.old input body.new (taken_of self.new.source)) result }
        ensures counts { CountsBody result (read_failures self.old.source) (read_failures self.new.source) }
        ensures writer { self.new.writer ≡ self.old.writer }
    {
        loop {
            if *body == BodyFraming::Length(0) {
                return Ok(BodyRead::End);
            }
            match find_token(self.source.input.unread(), *body) {
                Ok(BodyToken::Piece(len, next)) => {
                    self.source.input.consume(len);
                    *body = next;
                    return Ok(BodyRead::Piece);
                }
                Ok(BodyToken::Frame(len, next)) => {
                    self.source.input.consume(len);
                    *body = next;
                }
                Err(TokenFault::Incomplete) => match self
                    .source
                    .input
                    .read_from(&mut self.source.reader)
                {
                    ReadOutcome::Data => {}
                    ReadOutcome::Eof => return Err(BodyEnd::CutShort),
                    ReadOutcome::Failed => return Err(BodyEnd::ReadFailed),
                },
                Err(TokenFault::Invalid) => return Err(BodyEnd::BadFraming),
            }
        }
    }
}

/// Writes all pending output. After a failed call, which is counted, a prefix of it is written.
fn write_output<W: Write, M: Resource + Drop>(
    writer: &mut Counted<W>,
    output: SendBuffer<M>,
) -> bool
    ensures writes { RelatesOutput W.contents writer.old writer.new (λ held. Writes held output) result }
    ensures counts { CountsWrite result (failures_of writer.old) (failures_of writer.new) }
{
    let mut output = output;
    while !output.is_empty() {
        let next = output.chunk();
        if !write_whole(writer, next) {
            return false;
        }
        let count = next.len();
        output.advance(count);
    }
    true
}

impl<R, W: Write> Session<R, W> {
    /// Replies with a text, to HEAD without the text. On an allocation failure the fixed 503 is the reply. The session continues
    /// unless a reply said `Connection: close` or wasn't written completely.
    pub fn reply(
        &mut self,
        alloc: Global,
        head: &ResponseParts<'_>,
        body: &[u8],
        to_head: bool,
    ) -> Result<(), SessionEnd>
        ensures answers { RelatesOutput W.contents self.old.writer self.new.writer (WritesResponse head.now body.now to_head) result }
        ensures counts { CountsResponse result (failures_of self.old.writer) (failures_of self.new.writer) }
        ensures reader { self.new.source ≡ self.old.source }
    {
        let Ok(output) = make_response(alloc, head, TextResource::as_range(body), to_head) else {
            return Err(if write_whole(&mut self.writer, out_of_memory_response(to_head)) {
                SessionEnd::Refused
            } else {
                SessionEnd::WriteFailed
            });
        };
        if !write_output(&mut self.writer, output) {
            return Err(SessionEnd::WriteFailed);
        }
        match (head.closing, head.status.is_success()) {
            (false, _) => Ok(()),
            (true, true) => Err(SessionEnd::Closed),
            (true, false) => Err(SessionEnd::Refused),
        }
    }
}
