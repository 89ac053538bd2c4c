//! Rates of encoders' bodies: meters that say for how long no body is read, whose turn is next then, and places for
//! units that are received but incomplete.
//!
//! A [`Meter`] is a token bucket. What is taken is owed, and time pays it at the rate. While no more than the burst is owed, more may be
//! taken. Times are milliseconds of one clock, which the caller reads. No function of this crate allocates.
//!
//! A rendition has a [`Lane`]: two meters, the places, and a [`TurnQueue`] of the bodies that wait. Each body has a [`BodyShare`] of it. Ask
//! [`Lane::holds`] before a body has a turn, and call [`Lane::take_turn`] after it, and [`Lane::leave`] once the body is over. A
//! [`SharedLane`] is one that threads share.
#![tactic(auto)]

mod lane;
mod lane_limits;
mod laws;
mod meter;
mod place;
mod places;
mod rate;
mod share;
mod shared_lane;
mod turn_queue;

pub use lane::Lane;
pub use lane_limits::LaneLimits;
pub use laws::rate_bounds_what_is_taken;
pub use meter::Meter;
pub use place::{Place, UnitSize, unit_size};
pub use places::Places;
pub use rate::Rate;
pub use share::{BodyShare, BodyTurn};
pub use shared_lane::SharedLane;
pub use turn_queue::TurnQueue;
