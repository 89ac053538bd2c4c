//! HTTP/1.1 sessions over any reader and writer (RFC 9110, RFC 9112), independent of what is served: heads within limits, the fields that
//! matter, bodies by length and in chunks, and replies.
//!
//! The definitions are in `specs/`, over a whole stream: [`Heads`](../specs/Heads.antt), [`Methods`](../specs/Methods.antt),
//! [`Fields`](../specs/Fields.antt) and [`Framing`](../specs/Framing.antt) define what a head says, [`Bodies`](../specs/Bodies.antt)
//! how a body is taken step by step, [`Grammar`](../specs/Grammar.antt) what a body is by the standard's grammar,
//! [`Requests`](../specs/Requests.antt) how a stream splits into requests, [`Actions`](../specs/Actions.antt) in which order a
//! request is examined, and [`ResponseText`](../specs/ResponseText.antt) the text of a reply. The functions of [`laws`] have no body:
//! their contracts hold of every stream. Each other call's contract says how far it advances the reader in it.
#![tactic(auto)]

mod body_tokens;
mod bounded_digits;
mod buffered_reader;
mod decisions;
pub mod end;
pub mod fault;
mod fields;
pub mod framing;
mod head;
mod input_buffer;
pub mod laws;
pub mod limits;
pub mod method;
mod query;
mod range_field;
pub mod range_spec;
mod remaining;
pub mod request_action;
mod response;
pub mod response_parts;
mod session;

pub use body_tokens::{BodyRead, BodyToken, TokenFault, find_token};
pub use buffered_reader::BufferedReader;
pub use decisions::{decide_action, is_over, sends_close, sends_continue};
pub use end::{BodyEnd, DiscardEnd, SessionEnd};
pub use fault::HttpFault;
pub use framing::BodyFraming;
pub use head::{HeadEnd, HeadFault, ParsedHead, find_head};
pub use hls_io::{Counted, write_whole};
pub use input_buffer::{InputBuffer, ReadOutcome};
pub use method::Method;
pub use query::{find_query_value, parse_query, split_target};
pub use range_field::select_range;
pub use remaining::announced_len;
pub use request_action::RequestAction;
pub use response::{make_response, refusal_body, write_head};
pub use session::Session;
