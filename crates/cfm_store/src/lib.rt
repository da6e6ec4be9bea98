//! Which fragment has a name, and which export of a fragment.
//!
//! A [`Store`] has fragments by name: pairs of a name and the bytes of a container. A name means the first fragment
//! with that name. [`NamedExports`] has the exports of a loader section by name, and a [`PlaceTable`] what is known of
//! the fragment in each place of a store. Names and bytes are borrowed, and no container is read here.
#![tactic(auto)]

mod name_index;
mod named_exports;
mod place_table;
mod store;
mod store_fault;

pub use named_exports::NamedExports;
pub use place_table::PlaceTable;
pub use store::{MAX_PAIRS, Store, note_place};
pub use store_fault::StoreFault;
