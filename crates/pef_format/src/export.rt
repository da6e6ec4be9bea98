ghost use Rattle.std.specs.Prelude.{◌≡◌};
ghost use Rattle.pef_format.specs.Exports.{is_export_section, value_of};

use crate::layout::{ABSOLUTE_EXPORT, REEXPORTED_IMPORT};
use crate::named::Named;
use crate::symbol::SymbolClass;

/// What an exported symbol is.
#[derive(Clone, Copy, Debug, PartialEq, Eq)]
pub enum ExportValue {
    /// The address of a section plus an offset.
    InSection { section: u32, offset: u32 },
    /// A number.
    Absolute(u32),
    /// The same as an import of the container.
    Reexport { import: u32 },
}

impl ExportValue {
    /// Returns what the fields of an exported symbol mean (sectionIndex and symbolValue of
    /// PEFExportedSymbol). Every other negative section, which readers refuse, is taken as -3.
    pub fn from_fields(section: i32, value: u32) -> ExportValue
        ensures { result ≡ value_of section value }
    {
        match section {
            ABSOLUTE_EXPORT => ExportValue::Absolute(value),
            section if section < 0 => ExportValue::Reexport { import: value },
            section => ExportValue::InSection {
                section: section.cast_unsigned(),
                offset: value,
            },
        }
    }
}

/// Returns whether the format gives a section number to exports: that of a section, -2 or -3.
pub fn is_export_section(section: i32) -> bool
    ensures { result ≡ is_export_section section }
{
    section >= 0 || matches!(section, ABSOLUTE_EXPORT | REEXPORTED_IMPORT)
}

/// The fields of an exported symbol (PEFExportedSymbol), without its name.
#[derive(Clone, Copy, Debug, PartialEq, Eq)]
pub struct ExportFields {
    /// The low four bits of the class byte.
    pub class: u8,
    /// The section that the value is an offset in, or [`ABSOLUTE_EXPORT`], or
    /// [`REEXPORTED_IMPORT`]: then the value is an import's index.
    pub section: i32,
    pub value: u32,
}

impl ExportFields {
    ghost use Rattle.pef_format.specs.Symbols.{class_of};

    /// Returns what the symbol means.
    pub fn value(self) -> ExportValue
        ensures { result ≡ value_of self.section self.value }
    {
        ExportValue::from_fields(self.section, self.value)
    }

    /// Returns what the symbol is an address of.
    pub fn class(self) -> SymbolClass
        ensures { result ≡ class_of self.class }
    {
        SymbolClass::from_code(self.class)
    }
}

/// An exported symbol with its name.
pub type ExportView<'a> = Named<ExportFields, &'a [u8]>;
