//! Texts about containers and files: listings, and the reports of `pef inspect --json`.

mod found;
mod list;
mod parts;
mod report;
mod text_handle;
mod unread;

pub use found::{pef_first_container, pef_next_container};
pub use list::{pef_list, pef_list_free, pef_list_next, pef_list_open};
pub use parts::{
    pef_report_open_end, pef_report_open_excerpt, pef_report_open_found, pef_report_open_head,
    pef_report_open_rows,
};
pub use report::{pef_report_free, pef_report_next, pef_report_open, pef_report_open_container};
pub use text_handle::PefText;
