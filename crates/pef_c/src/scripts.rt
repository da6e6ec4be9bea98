//! Link scripts.

mod distances;
mod link;
mod place;
mod reading;

pub use distances::pef_distances;
pub use link::pef_link;
pub use place::pef_script_place;
