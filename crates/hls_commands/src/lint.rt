//! The command `lint`: reads a media playlist's text, and writes a summary.

mod printing;
pub mod run;
