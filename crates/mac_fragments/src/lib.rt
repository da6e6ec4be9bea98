//! Which fragments a file of the Mac has, and which of several fragments a name means.
//!
//! [`file_fragments`] returns the fragments of a file and its companion: the members of its table of fragments, or the containers
//! that it has without one. Of fragments with names, [`chosen`] returns those that a preparation uses: the root, and one for each
//! other name. Containers are slices of the files. Nothing of them is copied.
#![tactic(auto)]

mod candidate;
mod choice;
mod fault;
mod fragment;
mod lists;
mod members;
mod rank;
mod theorems;
mod unnamed;

pub use candidate::Candidate;
pub use choice::chosen;
pub use fault::FragmentsFault;
pub use fragment::FileFragment;
pub use lists::file_fragments;
pub use theorems::{chosen_fragments, names_are_as_extracted, places_are_as_extracted};
