//! The sections of one container in memory: where they lie, what they are filled with, and how they are relocated.
//!
//! [`place_sections`] places the instantiated sections of a container, [`fill_sections`] fills them with their images,
//! [`relocate_sections`] relocates them, and [`give_back`] releases them. [`find_entries`] gives the addresses of the
//! entry points. Which fragment has the container, and where its imports lead, isn't known here: the addresses of their
//! targets are passed.
//!
//! A section's image, and the effect of relocation on it, are those of the format (Mac OS Runtime
//! Architectures, "PEF Structure"). Where sections lie is this project's own.
#![tactic(auto)]

mod addresses;
mod entries;
mod image_fault;
mod images;
mod places;
mod relocation;

pub use addresses::{section_address, section_addresses};
pub use entries::{Entries, find_entries};
pub use image_fault::ImageFault;
pub use images::fill_sections;
pub use places::{PlaceRule, Unplaced, give_back, place_sections};
pub use relocation::{HeaderFault, relocate_sections};
