//! The kinds of requests that are counted.

use crate::log_lines::AccessLine;
use hls_api::route::Route;
use hls_metrics::{RouteKind, request_kind};

/// Returns the kind of a route.
fn route_kind(route: Option<Route>) -> RouteKind {
    match route {
        None => RouteKind::Other,
        Some(Route::Ingest(_)) => RouteKind::Ingest,
        Some(Route::Finish(_)) => RouteKind::Finish,
        Some(Route::LiveMaster | Route::LiveList(_)) => RouteKind::Live,
        Some(Route::Media(_)) => RouteKind::Media,
        Some(Route::CatchUp) => RouteKind::CatchUp,
        Some(Route::Programme(..)) => RouteKind::Programme,
        Some(Route::Job(_) | Route::JobFile(..)) => RouteKind::Job,
        Some(Route::Status | Route::Metrics | Route::Run) => RouteKind::Status,
        Some(Route::PathMaster | Route::PathList(_) | Route::RecentList(..) | Route::Since(..)) => {
            RouteKind::Playlist
        }
        Some(Route::InitSection(..) | Route::Segment(..)) => RouteKind::Segment,
    }
}

/// Returns the number of a request's kind, by its route and its status.
pub fn kind_of_request(access_line: &AccessLine) -> usize {
    request_kind(route_kind(access_line.route), access_line.status as u64)
}
