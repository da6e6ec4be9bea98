//! The vocabulary of PEF containers: what the codes of kinds, shares, classes, options and special sections
//! mean (Mac OS Runtime Architectures, "PEF Structure"; `PEFBinaryFormat.h`).
//!
//! Views keep the fields as containers have them. Only this crate says what they mean.
#![tactic(auto)]

mod entry;
mod export;
mod import;
pub mod layout;
mod library;
mod named;
mod place;
mod section;
mod symbol;
mod theorems;

pub use entry::{EntryPoint, is_entry_section};
pub use export::{ExportFields, ExportValue, ExportView, is_export_section};
pub use import::{ImportFields, ImportView, Imported};
pub use library::LibraryFields;
pub use named::Named;
pub use place::{Part, Place};
pub use section::{SectionKind, Share};
pub use symbol::{LibraryOptions, SymbolClass};
pub use theorems::codes_agree;
