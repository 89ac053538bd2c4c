//! Laws of bodies and of streams of requests. Each function has no body: its contract holds of every text.

ghost use Rattle.std.specs.Prelude.{◌≡◌};
ghost use Rattle.hls_http.specs.Laws.{BadFieldsStay, BadHeadsStay, BodiesAreUnique, BodiesMatchGrammar, BodiesStay, BrokenBodiesNeverEnd, BrokenBodiesStay, HeadsAreUnique, HeadsStay, LargeHeadsStay, OpenBodiesNeverEnd, RequestsAreUnique, RequestsStay, RunsJoin, RunsSplit, RunsStay, ContentCoversSize, StreamsAreUnique, StreamsJoin, StreamsStay};
ghost use Rattle.hls_http.specs.Limits.{discard_limit, field_limit, head_limit, length_digits, range_limit};

use crate::limits::{MOST_DISCARDED, MOST_FIELDS, MOST_HEAD, MOST_LENGTH_DIGITS, MOST_RANGE};

/// The limits in the code are those of the definitions.
pub fn limits_are_defined()
    ensures heads { (MOST_HEAD ≡ head_limit) × (MOST_FIELDS ≡ field_limit) }
    ensures bodies { (MOST_DISCARDED ≡ discard_limit) × (MOST_LENGTH_DIGITS ≡ length_digits) }
    ensures ranges { MOST_RANGE ≡ range_limit }
{}

/// The texts that the machine takes step by step, to a body's end, are exactly the bodies of the standard's grammar.
#[tactic(auto, using(crate::proofs::BodyLaws::body_by_steps))]
pub fn bodies_match_grammar()
    ensures { BodiesMatchGrammar }
{}

/// A text begins with at most one body, one head and one request, and a stream has one list of requests, however it is read.
pub fn requests_are_unique()
    ensures bodies { BodiesAreUnique }
    ensures heads { HeadsAreUnique }
    ensures requests { RequestsAreUnique }
    ensures streams { StreamsAreUnique }
{}

/// What a text begins with stays the same whatever follows: a head, a part of a body or all of it, a request, and a sequence of
/// requests.
#[tactic(auto, using(crate::proofs::StayLaws::fronts_stay))]
pub fn prefixes_are_stable()
    ensures heads { HeadsStay }
    ensures runs { RunsStay }
    ensures bodies { BodiesStay }
    ensures requests { RequestsStay }
    ensures streams { StreamsStay }
{}

/// What is refused is refused whatever follows: bytes that can't become a head, a head that exceeds the limits, a head whose Host or
/// framing is bad, and a body that breaks the grammar.
pub fn refusals_are_stable()
    ensures heads { BadHeadsStay }
    ensures sizes { LargeHeadsStay }
    ensures fields { BadFieldsStay }
    ensures bodies { BrokenBodiesStay }
{}

/// Consecutive parts of a body are a part of it, and so are consecutive requests; each prefix of a part of a body is a part of it.
#[tactic(auto, using(crate::proofs::StayLaws::fronts_join))]
pub fn prefixes_compose()
    ensures runs { RunsJoin }
    ensures streams { StreamsJoin }
    ensures split { RunsSplit }
{}

/// A body that breaks the grammar never ends, whatever follows, and neither does one within which the text ends. A body has at least
/// as many bytes as were taken of it and its next size line announces, so one that announces too many is too large.
pub fn broken_bodies_never_end()
    ensures broken { BrokenBodiesNeverEnd }
    ensures within { OpenBodiesNeverEnd }
    ensures sizes { ContentCoversSize }
{}
