//! The text of link scripts: its lines, read into the script that they describe.
//!
//! `Script::read` takes the text. If it refuses the text, the [`ScriptFault`] has the number of the line.

mod contents;
mod declarations;
mod earlier;
mod exports;
mod fault;
mod form;
mod kinds;
mod limits;
mod marks;
mod near;
mod numbers;
mod oddity;
mod places;
mod reader;
mod script;
mod sections;
mod tables;
mod theorems;
mod words;

pub use earlier::{form_in, kind_in};
pub use fault::{LineFault, ScriptFault};
pub use form::{Form, Names, WordKind};
pub use oddity::{Oddity, oddity_of};
pub use places::{Word, line_at, line_in, word_range};
pub use theorems::{places_are_inside, scripts_hold};
