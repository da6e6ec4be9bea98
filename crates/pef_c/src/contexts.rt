//! Contexts: fragments that are prepared in memory.

mod connections;
mod context;
mod exports;
mod fragments;
mod handle;
mod lacking;
mod location;
mod missing;
mod new_sections;
mod next_fragment;
mod options;
mod prepare_at;
mod refusal_names;
mod stub;

pub use connections::{pef_export_address, pef_import_target, pef_new_fragments, pef_released_by};
pub use context::{
    pef_add, pef_add_new, pef_close, pef_free, pef_open, pef_prepare, pef_prepare_with_place,
    pef_remove, pef_reserve, pef_unreserve,
};
pub use exports::{
    pef_fragment_export, pef_fragment_export_named, pef_fragment_exports, pef_fragment_import_named,
};
pub use fragments::{
    pef_fragment_bytes, pef_fragment_entries, pef_fragment_name, pef_fragment_section,
    pef_fragment_sections, pef_fragment_symbol, pef_fragments, pef_init_order, pef_is_present,
};
pub use handle::PefContext;
pub use lacking::pef_lacking;
pub use location::pef_at;
pub use missing::{pef_missing, pef_missing_with_place};
pub use new_sections::{pef_new_sections, pef_new_sections_with_place};
pub use next_fragment::pef_next_fragment;
pub use options::{PefOptions, pef_open_with, pef_version};
pub use prepare_at::pef_prepare_at;
pub use stub::{PefStubOptions, pef_stub};
