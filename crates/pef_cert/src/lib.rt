//! Certificates that a relocation program has no more halfwords than any other that makes the same fixups.
//!
//! [`check`] decides whether a [`Certificate`] is valid for some fixups. [`Certificate::read`] and
//! [`Certificate::print_to`] read and print the text of certificates: a certificate for each section of a script.
//! [`CertificateReader`] reads one after the other. [`Certificate::print`] returns the text. A [`PackedCertificate`] takes
//! less memory, and can only be printed.
#![tactic(auto)]

mod additions;
mod certificate;
mod checking;
mod claim;
mod classes;
mod extension;
mod feasible;
mod fixups;
mod imports;
mod packed;
mod registers;
mod runs;
mod sets;
mod singles;
mod skips;
mod sweep;
mod text;
mod theorems;

pub use certificate::Certificate;
pub use checking::check;
pub use classes::{change, class_of, has_class};
pub use extension::{REACH, SKIP_REACH, moved_value};
pub use fixups::{WORD, adds_at, after_first, after_import, program_length};
pub use packed::PackedCertificate;
pub use pef_labels::{KeptRows, LabelRows, LabelRun, LabelRuns};
pub use registers::{are_rising, uses_section};
pub use text::{CertFault, CertificateReader, printed_texts, read_texts, valid_certificates_print};
pub use theorems::{
    extension_of_labels, extensions_fall, labels_are_near, valid_programs_are_least,
};
