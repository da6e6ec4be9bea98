//! The certificates of a script, and their text.
//!
//! [`ScriptCertificates::of`] makes them. [`ScriptCertificates::print_to`] prints them to an output, and
//! [`ScriptCertificates::to_bytes`] returns their text.
#![tactic(auto)]

mod certificates;

pub use certificates::ScriptCertificates;
