//! A report in memory.
ghost use Rattle.std.specs.Prelude.{◌≡◌, IfOk, option_map};
ghost use Rattle.pef_rows.specs.declared.frames.Counts.{Counts as CountsAre};
ghost use Rattle.mac_rows.specs.Views.{data_file_seen};
ghost use Rattle.mac_report.specs.Reports.{IsReport};

use crate::file::FileReport;
use pef_ports::{Page, StreamFault, Text, flush};
use std::alloc::Allocator;

impl<'a> FileReport<'a> {
    /// Returns the bytes of the report.
    ///
    /// # Errors
    ///
    /// There is no memory for these bytes. If there is none to look into the file or a container, the report says so.
    pub fn to_bytes<A: Allocator + Copy>(self, alloc: A) -> Result<Vec<u8, A>, StreamFault>
        ensures { IfOk result (λ text. (counts : CountsAre) × IsReport self.entry.form self.entry.path.now self.entry.bytes.now (option_map data_file_seen self.entry.data_file) text.items counts) }
    {
        let mut text = Text::new(Vec::new(alloc));
        let mut page = Page::new();
        self.print(alloc, &mut text, &mut page)?;
        flush(&mut text, &mut page)?;
        Ok(text.into_bytes())
    }
}
