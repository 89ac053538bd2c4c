//! A response without its `Connection` field, and how it is sent.

ghost use Rattle.std.specs.Prelude.{◌≡◌, IfOk};
ghost use Rattle.hls_http.specs.ResponseText.{extra_line};
ghost use Rattle.hls_http.specs.declared.response_parts.CachePolicy.TheVariants.{Unstated};
ghost use Rattle.hls_api.specs.{Responses.{answer_text, text_with}, Players.with_policy, ResponseContents.content_of};

use crate::response_body::ResponseBody;
use crate::response_content::ResponseContent;
use hls_http::make_response;
use hls_http::response_parts::{CachePolicy, ContentType, ExtraField, ResponseParts, Status};
use hls_io::SendBuffer;
use std::alloc::{AllocError, Global};
use std::marker::Model;

/// A response without its `Connection` field: its status, the type of its body, the one optional field, what caches may do with it,
/// and its body, which isn't copied. A long text may be partly written: a clause sees all of it.
#[derive(Drop)]
pub struct Response {
    status: Status,
    kind: ContentType,
    extra: ExtraField<'static>,
    policy: CachePolicy,
    body: ResponseContent,
}

impl Model for Response {
    ghost use Rattle.hls_api.specs.Responses as replies;

    ghost Value = { replies.ResponseData };

    ghost use Rattle.hls_api.specs.ResponseContents.{model_of};

    ghost view = { model_of };
}

impl Response {
    /// Makes a response whose body is a text.
    pub(crate) fn from_text(status: Status, extra: ExtraField<'static>, body: Vec<u8>) -> Response
        ensures { result ≡ text_with (extra_line extra.entry) status body.items }
    {
        Response::from_content(
            status,
            ContentType::Text,
            extra,
            ResponseContent::from_text(body),
        )
    }

    /// Makes a response whose body may be partly written.
    pub(crate) fn from_content(
        status: Status,
        kind: ContentType,
        extra: ExtraField<'static>,
        body: ResponseContent,
    ) -> Response
        ensures { result ≡ record { status = status; kind = kind; field = extra_line extra.entry; policy = Unstated; body = content_of body } }
    {
        Response {
            status,
            kind,
            extra,
            policy: CachePolicy::Unstated,
            body,
        }
    }

    /// Returns the response with this statement about caches.
    pub(crate) fn with_policy(self, policy: CachePolicy) -> Response
        ensures { result ≡ with_policy policy self }
    {
        let Response {
            status,
            kind,
            extra,
            policy: _,
            body,
        } = self;
        Response {
            status,
            kind,
            extra,
            policy,
            body,
        }
    }

    /// Returns its status.
    pub fn status(&self) -> Status
        ensures { result ≡ self.now.status }
    {
        self.status
    }

    /// Whether its body is completely written.
    pub fn is_complete(&self) -> bool {
        matches!(self.body, ResponseContent::Whole(_))
    }

    /// Writes one more part of its body, if it isn't complete. It takes at most some milliseconds.
    pub fn write_some(self, alloc: Global) -> Result<Response, AllocError>
        ensures { IfOk result (λ answer. answer ≡ self) }
    {
        let Response {
            status,
            kind,
            extra,
            policy,
            body,
        } = self;
        let body = match body {
            ResponseContent::Whole(media) => ResponseContent::Whole(media),
            ResponseContent::List(text) => ResponseContent::from_playlist(alloc, text)?,
            ResponseContent::Certificate(text) => ResponseContent::from_certificate(text)?,
        };
        Ok(Response::from_content(status, kind, extra, body).with_policy(policy))
    }
}

/// Returns the response as it is sent, part by part; to HEAD without its body. The body is sent in place: only the head, the small
/// slices that are sent together, and the rest of a partly written text are allocated.
pub fn into_send_buffer(
    alloc: Global,
    answer: Response,
    closing: bool,
    to_head: bool,
) -> Result<SendBuffer<ResponseBody>, AllocError>
    ensures { IfOk result (λ output. output ≡ answer_text answer closing to_head) }
{
    let head = ResponseParts {
        status: answer.status,
        kind: answer.kind,
        extra: answer.extra,
        policy: answer.policy,
        closing,
    };
    let body = answer.body.finish(alloc)?;
    make_response(alloc, &head, body, to_head)
}
