//! The header of a loader section, as C sees it.
ghost use Rattle.std.specs.Prelude.{◌≡◌};
ghost use Rattle.pef_records.specs.Containers.Loaders.{loader_given};

use crate::structs::PefLoader;
use pef_loader::LoaderHeader;

/// Returns a loader header as C sees it.
pub fn loader_given(header: LoaderHeader) -> PefLoader
    ensures { result ≡ loader_given header }
{
    PefLoader {
        main_section: header.main_section,
        main_offset: header.main_offset,
        init_section: header.init_section,
        init_offset: header.init_offset,
        term_section: header.term_section,
        term_offset: header.term_offset,
        library_count: header.library_count,
        import_count: header.import_count,
        relocation_count: header.reloc_count,
        export_count: header.export_count,
    }
}
