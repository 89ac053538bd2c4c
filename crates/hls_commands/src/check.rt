//! The command `check`: reads a certificate's text, and writes the answer to it.

pub mod printing;
pub mod run;
