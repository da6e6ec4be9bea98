//! Which fragments a file of the classic Mac OS has, and where: the members of a resource `cfrg`, and the containers that
//! a search finds.
//!
//! The table is that of Apple's `CodeFragments.h` and of *Inside Macintosh: PowerPC System Software*, "Code Fragment
//! Manager". All bytes are slices of what is read. Nothing is copied and nothing is allocated.
#![tactic(auto)]

mod contents;
mod fault;
mod file_kind;
mod forks;
mod fragments;
mod layout;
mod member;
mod member_lookup_fault;
mod num_version;
mod reading;
mod search;
mod table;

pub use contents::{Contents, readable};
pub use fault::MemberFault;
pub use file_kind::FileKind;
pub use forks::Forks;
pub use fragments::{
    container_in_forks, container_in_pair, fragment_table, named_container, numbered_container,
    read_resources,
};
pub use member::{Locator, Member, MemberHeader, Usage};
pub use member_lookup_fault::MemberLookupFault;
pub use num_version::{NumVersion, Stage};
pub use search::Containers;
pub use table::{FragmentTable, Members};
