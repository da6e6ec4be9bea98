//! The records of the library for C, below its calls: the structs of `include/pef.h` and what they hold of a container or of a
//! file, how the caller's array gets the rows of a table, and the numbers that calls return.
#![tactic(auto)]

mod answers;
mod containers;
mod files;
mod fill;
mod place;
mod structs;

pub use answers::{
    BAD_OPTIONS, NAME_TAKEN, NOT_OPEN, NOT_THERE, OUT_OF_MEMORY, ROOM_TOO_SMALL, copy_answer,
    copy_out, given, line_number, list_number, loader_number, pack_number, view_number,
};
pub use containers::{header_given, loader_given, section_given};
pub use files::{
    PefFinder, PefForks, PefMember, PefPart, PefResource, PefResourceMap, fill_members,
    fill_places, fill_resources, fork_number, forks_given, fragment_number, kind_code, map_given,
    member_number, resource_given, resource_number,
};
pub use fill::{Rows, Table, fill_rows, fill_table};
pub use place::place_or_nowhere;
pub use structs::{
    PefEntries, PefExport, PefFinding, PefFixup, PefFoundContainer, PefFragmentExport,
    PefFragmentSection, PefHeader, PefImport, PefLacking, PefLibrary, PefLoader, PefLocation,
    PefMissing, PefNames, PefNewSection, PefPlace, PefRelocation, PefRowRange, PefSection,
    PefTarget,
};
