//! Tokens of request bodies, framed by length or in chunks.

ghost use Rattle.std.specs.Prelude.{◌≡◌, ◌≢◌, ◌<◌};
ghost use Rattle.hls_http.specs.{Bodies.framing_after_size, ReadBodies.FindsToken};

use crate::framing::BodyFraming;
use crate::limits::{MOST_FIELDS, MOST_HEAD};
use httparse::spans::{EMPTY_HEADER_SPAN, parse_headers};
use httparse::{Status, parse_chunk_size};

/// The token at the front of a body's held bytes.
#[derive(Clone, Copy, Drop)]
pub enum BodyToken {
    /// A number of bytes of content, and the framing of the rest of the body.
    Piece(usize, BodyFraming),
    /// A number of bytes that frame the content, and the framing of the rest of the body.
    Frame(usize, BodyFraming),
}

/// Why there is no token at the front.
#[derive(Clone, Copy, Drop)]
pub enum TokenFault {
    /// More bytes are needed.
    Incomplete,
    /// The bytes break the grammar, whatever follows.
    Invalid,
}

/// What a call read of a body.
#[derive(Clone, Copy, Drop)]
pub enum BodyRead {
    /// A piece that isn't empty: it is what the source has taken last.
    Piece,
    /// The body is over.
    End,
}

/// Finds a token of a body by length: the bytes before the last one, or the last byte alone.
fn find_length(held: &[u8], left: u64) -> Result<BodyToken, TokenFault>
    requires { 0 < left }
    ensures { FindsToken (BodyFraming.Length left) held.now result }
{
    let len = held.len().min((left - 1).max(1) as usize);
    if len == 0 {
        return Err(TokenFault::Incomplete);
    }
    Ok(BodyToken::Piece(len, BodyFraming::Length(left - len as u64)))
}

/// Finds the bytes of a chunk, or the CR LF after them.
fn find_data(held: &[u8], left: u64) -> Result<BodyToken, TokenFault>
    ensures { FindsToken (BodyFraming.Data left) held.now result }
{
    if left == 0 {
        return match held {
            [] | [b'\r'] => Err(TokenFault::Incomplete),
            [b'\r', b'\n', ..] => Ok(BodyToken::Frame(2, BodyFraming::Size)),
            _ => Err(TokenFault::Invalid),
        };
    }
    let len = held.len().min(left as usize);
    if len == 0 {
        return Err(TokenFault::Incomplete);
    }
    Ok(BodyToken::Piece(len, BodyFraming::Data(left - len as u64)))
}

/// Returns the framing after a chunk's size line.
fn framing_after_size(size: u64) -> BodyFraming
    ensures { result ≡ framing_after_size size }
{
    match size {
        0 => BodyFraming::Trailers,
        _ => BodyFraming::Data(size),
    }
}

/// Finds the size line of a chunk.
fn find_size(held: &[u8]) -> Result<BodyToken, TokenFault>
    ensures { FindsToken BodyFraming.Size held.now result }
{
    match parse_chunk_size(held) {
        Ok(Status::Complete((len, _))) if len > MOST_HEAD => Err(TokenFault::Invalid),
        Ok(Status::Complete((len, size))) => Ok(BodyToken::Frame(len, framing_after_size(size))),
        Ok(Status::Partial) if held.len() < MOST_HEAD => Err(TokenFault::Incomplete),
        Ok(Status::Partial) => Err(TokenFault::Invalid),
        Err(_) => Err(TokenFault::Invalid),
    }
}

#[tactic(auto, using(crate::proofs::BodySteps::trailers_frame))]
fn find_trailers(held: &[u8]) -> Result<BodyToken, TokenFault>
    ensures { FindsToken BodyFraming.Trailers held.now result }
{
    let mut headers = [EMPTY_HEADER_SPAN; MOST_FIELDS];
    match parse_headers(held, &mut headers) {
        Ok(Status::Complete((len, _))) if len > MOST_HEAD => Err(TokenFault::Invalid),
        Ok(Status::Complete((len, _))) => Ok(BodyToken::Frame(len, BodyFraming::Length(0))),
        Ok(Status::Partial) if held.len() < MOST_HEAD => Err(TokenFault::Incomplete),
        Ok(Status::Partial) => Err(TokenFault::Invalid),
        Err(_) => Err(TokenFault::Invalid),
    }
}

/// Finds the token at the front of the held bytes of a body that hasn't ended. Doesn't allocate.
pub fn find_token(held: &[u8], body: BodyFraming) -> Result<BodyToken, TokenFault>
    requires { body ≢ BodyFraming.Length 0 }
    ensures { FindsToken body held.now result }
{
    match body {
        BodyFraming::Length(left) => find_length(held, left),
        BodyFraming::Size => find_size(held),
        BodyFraming::Data(left) => find_data(held, left),
        BodyFraming::Trailers => find_trailers(held),
    }
}
