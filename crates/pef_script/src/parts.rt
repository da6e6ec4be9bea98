ghost use Rattle.std.specs.Prelude.{◌≤◌, vec_len};
ghost use Rattle.indexmap.specs.IndexMap.{index_map_len};
ghost use Rattle.pef_reloc.specs.Limits.{most_imports, most_sections};
ghost use Rattle.pef_script.specs.Limits.{most_libraries};

use indexmap::IndexMap;
use pef_format::{LibraryOptions, SectionKind, Share, SymbolClass};
use pef_names::NameKey;
use pef_reloc::Fixup;
use std::marker::Model;

/// The versions of a container.
#[derive(Clone, Copy, Debug, PartialEq, Eq)]
pub struct Versions {
    pub current: u32,
    pub old_def: u32,
    pub old_imp: u32,
}

/// A section, without its image and its fixups.
#[derive(Clone, Copy, Debug, PartialEq, Eq)]
pub struct SectionHeader<'a> {
    pub name: &'a [u8],
    /// One of the kinds that may be instantiated. The image of pattern-initialized data is packed when it
    /// is written.
    pub kind: SectionKind,
    pub share: Share,
    /// The alignment, as an exponent of two: at most 12.
    pub align: u8,
    /// How many bytes the section has: at most 16,777,216.
    pub total: u32,
}

/// What a script says about a library, apart from its name.
#[derive(Clone, Copy)]
pub struct LibraryData {
    pub current: u32,
    pub old_imp: u32,
    pub options: LibraryOptions,
}

/// What a script says about an import, apart from its name.
#[derive(Clone, Copy)]
pub struct ImportData {
    pub class: SymbolClass,
    pub weak: bool,
    /// The number of its library.
    pub library: u32,
}

/// What a script says about an export, apart from its name.
#[derive(Clone, Copy)]
pub struct ExportData {
    pub class: SymbolClass,
    /// The number of its section, or -2 for an absolute value, or -3 for an import that is passed on.
    pub section: i32,
    /// Its offset in the section, or its value, or the number of the import.
    pub value: u32,
}

/// A section with the bytes that it begins with and its fixups in address order.
#[derive(Drop)]
pub struct Section<'a> {
    pub header: SectionHeader<'a>,
    pub image: Vec<u8>,
    pub fixups: Vec<Fixup>,
}

impl<'a> Model for Section<'a> {
    ghost use Rattle.pef_script.specs.Script.{DescribedSection};
    ghost use Rattle.pef_script.specs.Views.{header_in};

    ghost Value = { DescribedSection };

    ghost view = { λ s. record {
      header = header_in s.header;
      image = s.image.items;
      fixups = s.fixups.items;
    } };
}

/// The parts of a script. Libraries, imports and exports are numbered in the order of their declarations.
#[derive(Drop)]
pub struct Parts<'a> {
    pub versions: Versions,
    pub libraries: IndexMap<NameKey<'a>, LibraryData>,
    pub imports: IndexMap<NameKey<'a>, ImportData>,
    pub sections: Vec<Section<'a>>,
    pub exports: IndexMap<NameKey<'a>, ExportData>,
    pub main: Option<(u32, u32)>,
    pub init: Option<(u32, u32)>,
    pub term: Option<(u32, u32)>,
    ghost few_libraries: { index_map_len libraries ≤ most_libraries },
    ghost few_imports: { index_map_len imports ≤ most_imports },
    ghost few_sections: { vec_len sections ≤ most_sections },
}
