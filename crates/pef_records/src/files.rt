//! Files of the classic Mac OS, as C sees them: forks, resources and members of tables of fragments, and their errors.

mod errors;
mod file;
mod members;
mod resources;
mod structs;

pub use errors::{fork_number, fragment_number, member_number, resource_number};
pub use file::{forks_given, kind_code};
pub use members::{fill_members, fill_places};
pub use resources::{fill_resources, map_given, resource_given};
pub use structs::{PefFinder, PefForks, PefMember, PefPart, PefResource, PefResourceMap};
