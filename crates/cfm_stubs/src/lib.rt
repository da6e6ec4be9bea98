//! Stubs: containers of libraries that are missing.
//!
//! [`stubs`] returns a stub of each library that the fragments of a [`Store`](cfm_store::Store) lack, and [`stub`] that of one
//! library. A stub exports exactly the symbols that the fragments import from the library. What the symbols are is said by
//! [`StubValues`].
//!
//! Its parts can be had alone: [`library_symbols`] returns what some fragments import from a library, [`library_versions`] returns
//! versions that fit each of them, and [`number`] gives each symbol a number of its own.
#![tactic(auto)]

mod fault;
mod library;
mod made;
mod making;
mod memory;
mod missing;
mod numbers;
mod several;
mod symbols;
mod theorems;
mod values;
mod versions;

pub use fault::StubFault;
pub use library::Lacking;
pub use made::Stub;
pub use making::stub;
pub use missing::{lacking, loaders_of};
pub use numbers::number;
pub use several::stubs;
pub use symbols::{Symbols, library_symbols};
pub use theorems::{
    added_stubs, linked_stubs, made_stubs, numbers_are_exact, numbers_go_on, stubbed_preparations,
    stubbed_stores, symbols_are_exact, versions_fit_each,
};
pub use values::StubValues;
pub use versions::library_versions;
