//! Tables of rows of numbers, and windows of the newest rows that keep the least number at each place.

mod close;
mod looks;
mod table;
mod window;

pub use close::CloseRows;
pub use looks::Looks;
pub use table::{Table, zeros};
pub use window::Window;
