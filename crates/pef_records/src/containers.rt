//! What the readers of containers give, as C sees it.

mod container;
mod fixups;
mod loader;
mod partial_rows;
mod rows;

pub use container::{header_given, section_given};
pub use loader::loader_given;
