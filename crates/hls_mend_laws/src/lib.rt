//! Mending: what becomes of a unit whose start isn't the end of its rendition, and the definitions of the units that mending writes.
//!
//! The definitions are in `specs/`. [`Fragments`](../specs/Fragments.antt) writes a unit of one track fragment, and
//! [`FragmentsRead`](../specs/FragmentsRead.antt) reads one; [`Retimed`](../specs/Retimed.antt), [`Cuts`](../specs/Cuts.antt) and
//! [`Fillers`](../specs/Fillers.antt) are the units that mending makes of it. [`Treatments`](../specs/Treatments.antt) decides what becomes
//! of each unit, and [`Jumps`](../specs/Jumps.antt) tells one wrong clock from all renditions jumping. The functions of [`laws`] have no
//! body: their contracts are the laws.
#![tactic(auto)]

pub mod filler;
pub mod laws;
pub mod limits;
pub mod presence;
pub mod row_format;
pub mod sample;
pub mod settings;
pub mod treatment;
