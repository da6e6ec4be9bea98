//! Containers, also those that may be damaged. Each call reads them anew from their bytes.

mod container;
mod expand;
mod findings;
mod fixups;
mod loader;
mod partial;
mod partial_rows;
mod place;
mod rows;
mod told;

pub use container::{pef_header, pef_section, pef_section_name};
pub use expand::pef_expand;
pub use findings::{pef_findings, pef_more_notes};
pub use fixups::{pef_fixups, pef_partial_fixups};
pub use loader::pef_loader;
pub use partial::{
    pef_partial_header, pef_partial_loader, pef_partial_section, pef_partial_section_name,
};
pub use partial_rows::{
    pef_partial_exports, pef_partial_imports, pef_partial_libraries, pef_partial_relocations,
};
pub use place::pef_container_place;
pub use rows::{
    pef_export_named, pef_exports, pef_import_named, pef_imports, pef_libraries, pef_relocations,
};
