//! Common places, at which every rendition can be cut, and the tables of them that programmes are cut from. The program searches with
//! `PlaceCursor`; `common`, `programme`, `allowed` and `cost` work on whole lists and tables, for users of this crate alone.
#![tactic(auto)]

mod closing_place;
mod cursor;
mod decision;
mod place;
mod positions;
mod rendition_source;
mod rendition_sources;
mod search;
mod standalone;

pub use cursor::{PlaceAdvance, PlaceCursor};
pub use hls_check_tables::{PlaceTable, Spot, Spots};
pub use hls_places_laws::{Place, ProgrammeFault, SearchPosition};
pub use place::{is_kept, pair_allowed, time_of};
pub use rendition_source::RenditionSource;
pub use standalone::{allowed, common, cost, programme};
