//! The checker of certificates, and the canonical text of a certificate: a writer, and a reader that parses it or reports the first
//! wrong line.
//!
//! The checker's only input is the certificate; if it accepts, that proves that the plan is optimal, or that there is none.
#![tactic(auto)]

mod certificate_head;
mod checker;
mod laws;
mod line;
mod next_line;
mod parallel;
mod place;
mod plans;
mod prices;
mod reader;
mod rows;
mod steps;
pub mod text_laws;
mod writer;
mod wrong_line;
mod wrong_lines;

pub use checker::{check, check_rows};
pub use hls_check_tables::{
    CertFault, Certificate, CertificateTable, Claim, CostRule, Goal, Spot, Spots, Verdict,
    good_cut_is_least, good_none_has_no_plan,
};
pub use laws::check_result_is_unique;
pub use reader::read;
pub use writer::{push_claim, push_head, push_places, write};
pub use wrong_lines::first_wrong_line;
