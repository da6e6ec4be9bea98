//! The text of certificates: a certificate for each section of a script, line by line.
//!
//! `Certificate::read` reads a text in version 1 or 2, or reports the first line that breaks a rule. `CertificateReader`
//! reads one certificate after the other.
//! `Certificate::print_to` prints certificates in version 2, in which equal neighbouring rows of labels have one line,
//! and `Certificate::print` returns that text. In each version a list of certificates has one text, and each text has
//! at most one list.

mod fault;
mod fields;
mod lines;
mod numbers;
mod printer;
mod program;
mod reader;
mod theorems;

pub use fault::CertFault;
pub use reader::CertificateReader;
pub use theorems::{printed_texts, read_texts, valid_certificates_print};
