//! Computes optimal plans: the places of a table to cut at, so that no other plan costs less, with prices that prove it; or the set that
//! proves that no plan exists.
#![tactic(auto)]

mod planned;
mod planner;
mod price_table;
mod reach;

pub use planned::{Planned, certificate};
pub use planner::{plan, plan_counted};
