//! The HTTP API of a server of a channel: its paths and their methods, its queries, and its responses, made from the channel's state and
//! its jobs, and how they are sent.
//!
//! The definitions are in `specs/`: [`Routes`](../specs/Routes.antt) parses a path, [`Responses`](../specs/Responses.antt) defines
//! the reply for a state, [`Ingest`](../specs/Ingest.antt) what the parts of a body lead to, [`Acts`](../specs/Acts.antt) what a
//! keeper is asked and its effect, [`Exchanges`](../specs/Exchanges.antt) a request and its reply,
//! [`ConnectionStates`](../specs/ConnectionStates.antt) the history of a connection, and [`Sessions`](../specs/Sessions.antt) a
//! session. Media are sent from the recording itself, and a job's from its own snapshot.
#![tactic(auto)]

pub mod catchup_params;
pub mod catchup_query;
pub mod encoder_readings;
pub mod fault;
pub mod gap_limit;
pub mod ingest;
mod job_responses;
pub mod laws;
mod media_responses;
mod metrics;
pub mod parse_route;
mod player_responses;
mod playlist_cache;
mod playlist_responses;
mod programme_cache;
mod programme_responses;
mod query;
mod response;
mod response_body;
mod response_content;
pub mod route;
pub mod route_path;
mod since_responses;
mod status;
mod text_responses;

pub use job_responses::{
    added_response, file_response, job_response, query_response, removed_response,
};
pub use media_responses::media_response;
pub use metrics::{MetricsMemory, metrics_response};
pub use player_responses::{SegmentSpan, init_response, segment_response};
pub use playlist_cache::PlaylistCache;
pub use playlist_responses::{
    live_master_response, live_playlist_response, path_master_response, recent_playlist_response,
    run_response,
};
pub use programme_cache::ProgrammeCache;
pub use programme_responses::{
    ProgrammeStart, found_plan_response, invalid_programme_response, start_programme,
};
pub use query::{make_request, read_programme_query, read_query, resolve_query};
pub use response::{Response, into_send_buffer};
pub use response_body::ResponseBody;
pub use since_responses::since_response;
pub use status::status_response;
pub use text_responses::{
    fault_response, finish_response, ingest_refused_response, ingested_response,
    method_not_allowed_response,
};
