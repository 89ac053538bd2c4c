//! Tables of places, plans and certificates: their types, their definitions, and the two laws by which a good certificate is a proof.
#![tactic(auto)]

mod allowed;
mod cert_fault;
mod certificate;
mod certificate_table;
mod cost_rule;
mod goal;
mod laws;
mod orders;
mod place_table;
mod spot;
mod spots;
mod verdict;

pub use allowed::{pair_allowed, pair_cost, spot_allowed};
pub use cert_fault::CertFault;
pub use certificate::{Certificate, Claim};
pub use certificate_table::{CertificateTable, PLACE_LIMIT, RENDITION_LIMIT};
pub use cost_rule::CostRule;
pub use goal::{CHARGE_LIMIT, Goal, PREFERRED_LIMIT, TARGET_LIMIT};
pub use laws::{good_cut_is_least, good_none_has_no_plan};
pub use orders::first_unsorted;
pub use place_table::PlaceTable;
pub use spot::Spot;
pub use spots::Spots;
pub use verdict::Verdict;
