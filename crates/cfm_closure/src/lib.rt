//! The closure of a fragment: which fragments it needs, the targets of their imports, and the order in which
//! initialization routines run.
//!
//! The rules are those of Mac OS Runtime Architectures, "Code Fragment Manager". A [`Store`] has fragments by
//! name, and a name means the first fragment with that name. A fragment names libraries and imports their
//! symbols, and the closure of a fragment is the fragment with all that it needs, if versions fit. Names and
//! bytes are borrowed, and nothing of a container is copied.
#![tactic(auto)]

mod binding;
mod bindings;
mod build;
mod cache;
mod cached_store;
mod closures;
mod export_names;
mod fault;
mod fragment;
mod hops;
mod import_table;
mod init_order;
mod libraries;
mod missing;
mod notes;
mod removal;
mod resolve;
mod search;
mod symbols;
mod targets;
pub mod theorems;
mod versions;
mod walk;

pub use build::closure;
pub use cached_store::CachedStore;
pub use cfm_store::{MAX_PAIRS, Store, StoreFault};
pub use closures::Closure;
pub use fault::BindFault;
pub use missing::MissingLibrary;
pub use targets::Target;
pub use versions::{Definition, Fit, Implementation, versions_fit};
