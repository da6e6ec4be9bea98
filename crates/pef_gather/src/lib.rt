//! From the bytes of files to the fragments that a preparation is made of, and to their store.
//!
//! [`gather`] returns the fragments of some files, by the names that they go by: the root first, and one for each other name.
//! [`fragments_in`] returns all of them. [`store_with`] returns the store of these and of stubs of the libraries that they lack.
#![tactic(auto)]

mod choosing;
mod fault;
mod files;
mod names;
mod search;
mod stores;

pub use choosing::gather;
pub use fault::GatherFault;
pub use files::{Found, GivenFile};
pub use search::fragments_in;
pub use stores::store_with;
