//! The stream cut: a stream of boxes (ISO/IEC 14496-12 4.2) that arrives in pieces of any length is divided into init sections and
//! units, independently of the piece boundaries.
//!
//! The definitions are in `specs/`, over the whole text: [`Boxes`](../specs/Boxes.antt) reads one box, [`Parts`](../specs/Parts.antt)
//! cuts a text into parts and a remainder, and [`Grammar`](../specs/Grammar.antt) is a second definition of a part, as a grammar. The
//! functions of [`laws`] have no body: their contracts hold of every text. [`UnitReader`](reader::UnitReader) reads the stream.
#![tactic(auto)]

pub mod box_effect;
pub mod box_header;
mod complete_part;
pub mod fault;
mod feed;
pub mod kinds;
pub mod laws;
pub mod numbers;
pub mod part;
mod pending_part;
mod read_box_effect;
pub mod reader;

pub use fault::BoxFault;
pub use part::Part;
pub use reader::UnitReader;
