//! What is printed of one row of a container, of an error or a note, and of a file's frame: a line of text, and an object of JSON.
#![tactic(auto)]

mod any_row;
mod codes;
mod dates;
mod finding;
mod frames;
mod lines;
mod objects;
mod optional;
mod parts;
mod programs;
mod rows;
mod strings;
mod theorems;
mod tokens;
mod unicode;
mod versions;

pub use any_row::{Row, print_row, print_row_object};
pub use codes::{class_member, kind_text, share_text};
pub use finding::{file_offset, print_finding, print_finding_object};
pub use frames::{
    Counts, print_counts, print_error_end, print_file_error, print_file_line, print_file_object,
    print_unread_line, print_unread_object,
};
pub use lines::{
    print_entry, print_export, print_header, print_import, print_library, print_loader,
    print_relocation, print_section,
};
pub use objects::{
    print_entry_object, print_export_object, print_header_object, print_import_object,
    print_library_object, print_loader_object, print_section_object, print_separator,
};
pub use optional::{at_digits, at_or_dash, at_word, number_or_null, text_if, truth};
pub use programs::{print_instr_line, print_instr_object, print_relocation_object};
pub use rows::{
    EntryRow, ExportRow, FindingRow, HeaderRow, ImportRow, InstrRow, LibraryRow, LoaderRow,
    MAX_NAME_LENGTH, ProgramRow, RelocationRow, SectionRow,
};
pub use strings::character_of;
pub use theorems::names_are_printed;
pub use tokens::{Token, name_column, name_mark, print_tokens};
