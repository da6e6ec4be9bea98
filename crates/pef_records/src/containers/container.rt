//! The headers of a container and of a section, as C sees them.
ghost use Rattle.std.specs.Prelude.{◌≡◌};
ghost use Rattle.pef_records.specs.Containers.Container.{header_given, section_given};

use crate::structs::{PefHeader, PefSection};
use pef_views::{Header, SectionHeader};

/// Returns a container header as C sees it.
pub fn header_given(header: Header) -> PefHeader
    ensures { result ≡ header_given header }
{
    PefHeader {
        date_time_stamp: header.date_time_stamp,
        old_def_version: header.old_def_version,
        old_imp_version: header.old_imp_version,
        current_version: header.current_version,
        section_count: header.section_count,
        instantiated_section_count: header.instantiated_section_count,
        architecture: header.architecture,
    }
}

/// Returns a section's header as C sees it.
pub fn section_given(header: SectionHeader) -> PefSection
    ensures { result ≡ section_given header }
{
    PefSection {
        default_address: header.default_address,
        total_size: header.total_size,
        unpacked_size: header.unpacked_size,
        packed_size: header.packed_size,
        container_offset: header.container_offset,
        kind: header.section_kind,
        share: header.share_kind,
        alignment: header.alignment,
    }
}
