//! Files of the classic Mac OS: forks, resources, tables of fragments, and the containers in them.

mod file;
mod members;
mod resources;

pub use file::{
    pef_file_container, pef_file_kind, pef_fork_container, pef_forks, pef_numbered_container,
};
pub use members::{pef_find_containers, pef_members};
pub use resources::{pef_find_resource, pef_resource_map, pef_resources};
