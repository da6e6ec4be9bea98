//! The answers of the commands of `pef`, and how an answer is written: the errors, each with the line that ends the
//! run, and the status.
//!
//! Only this module puts the line of an error in words. The numbers and names are those of the crates that find it.

mod fault;
mod outcome;
mod reply;

pub use fault::print_name_end;
pub use outcome::Outcome;
pub use reply::{Reply, Usage, deliver};
