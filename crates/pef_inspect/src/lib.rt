//! Everything that can be known of a container, also of one that is damaged: its parts as far as they can be read, and all
//! errors and oddities, each at its place.
//!
//! [`find_errors`] and [`find_notes`] hand each finding to a sink, in order, and allocate nothing. [`find_more_notes`]
//! returns the notes that need memory. How much of a container they verify is bounded by [`Limits`]. The calls that end in
//! `within` take these, and [`left_after`] returns what is left of them for the next container of a file.
#![tactic(auto)]

mod checked;
mod detail;
mod errors;
mod extents;
mod finding;
mod images;
mod left;
mod limits;
mod loader_parts;
mod more;
mod needs;
mod note;
mod notes;
mod parts;
mod programs;
mod rows;
mod runs;
mod sink;
mod tables;
mod text;
mod theorems;
mod twice;
mod zeros;

pub use detail::Detail;
pub use errors::{find_errors, find_errors_within};
pub use finding::{Cause, Finding};
pub use left::left_after;
pub use limits::{Limits, MAX_PACKED_BYTES, MAX_PROGRAM_BYTES, MAX_STEPS, MAX_WORDS};
pub use more::{find_more_notes, find_more_notes_within};
pub use needs::{needed, needed_by};
pub use note::Note;
pub use notes::{find_notes, find_notes_within};
pub use parts::Parts;
pub use programs::programs_shown;
pub use sink::Findings;
pub use theorems::{
    each_broken_rule_has_its_error, errors_and_notes_are_apart, first_error_is_reported,
    first_error_within_is_reported, no_errors_are_sound, no_errors_within_are_sound,
    sound_containers_have_no_errors,
};
