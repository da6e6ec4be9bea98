//! What a relocation program adds to which words, as C sees it.
ghost use Rattle.std.specs.Prelude.{◌≡◌};
ghost use Rattle.pef_reloc.specs.Traces.{addition_seen};
ghost use Rattle.pef_records.specs.Containers.Fixups.{fixup_row, fixup_shown};

use crate::fill::Rows;
use crate::structs::PefFixup;
use pef_reloc::{Addition, Fixups, Source};

/// A section or an import is added.
const SECTION: u32 = 1;

const IMPORT: u32 = 2;

impl<'a> Rows<PefFixup> for Fixups<'a> {
    ghost use Rattle.std.specs.Prelude.{map};
    ghost use Rattle.pef_reloc.specs.Left.{fixups_left};
    ghost use Rattle.pef_records.specs.Containers.Fixups.{FixupRow, fixup_row, fixup_shown};

    ghost Held = { FixupRow };

    ghost shown = { fixup_shown };

    ghost left = { λ r. map fixup_row (fixups_left r) };

    fn take_row(&mut self) -> Option<PefFixup> {
        match self.next() {
            Some(addition) => Some(fixup_given(addition)),
            None => None,
        }
    }
}

/// Returns an addition as C sees it.
fn fixup_given(addition: Addition) -> PefFixup
    ensures { fixup_shown result ≡ fixup_row (addition_seen addition) }
{
    match addition.source {
        Source::Section(section) => PefFixup {
            offset: addition.offset,
            number: u64::from(section),
            kind: SECTION,
        },
        Source::Import(import) => PefFixup {
            offset: addition.offset,
            number: import,
            kind: IMPORT,
        },
    }
}
