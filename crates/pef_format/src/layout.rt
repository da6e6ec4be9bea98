//! Numbers of the format that readers and the writer share: sizes and offsets in bytes, tags and codes. The
//! names in brackets are those of `PEFBinaryFormat.h`.

/// The container header's length (PEFContainerHeader).
pub const CONTAINER_HEADER_SIZE: usize = 40;

/// The length of one section header (PEFSectionHeader). The first follows the container header, and the
/// section name table follows the last.
pub const SECTION_HEADER_SIZE: usize = 28;

/// The loader header's length (PEFLoaderInfoHeader).
pub const LOADER_HEADER_SIZE: usize = 56;

/// The length of an imported library (PEFImportedLibrary). The first follows the loader header.
pub const LIBRARY_SIZE: usize = 24;

/// The length of an imported symbol (PEFImportedSymbol). The first follows the libraries.
pub const IMPORT_SIZE: usize = 4;

/// The length of a relocation header (PEFLoaderRelocationHeader). The first follows the imported symbols.
pub const RELOCATION_HEADER_SIZE: usize = 12;

/// The length of a relocation halfword (PEFRelocChunk).
pub const HALFWORD_SIZE: usize = 2;

/// The length of a slot of the export hash table (PEFExportedSymbolHashSlot).
pub const SLOT_SIZE: usize = 4;

/// The length of a key of the export hash table (PEFExportedSymbolKey). The first follows the slots.
pub const KEY_SIZE: usize = 4;

/// The length of an exported symbol (PEFExportedSymbol). The first follows the keys.
pub const EXPORT_SIZE: usize = 10;

/// The first tag, `Joy!` (kPEFTag1).
pub const TAG_1: u32 = 0x4A6F_7921;

/// The second tag, `peff` (kPEFTag2).
pub const TAG_2: u32 = 0x7065_6666;

/// The architecture of PowerPC containers, `pwpc` (kPowerPCCFragArch).
pub const POWERPC: u32 = 0x7077_7063;

/// The only version of the format (kPEFVersion).
pub const FORMAT_VERSION: u32 = 1;

/// The name offset of a section without a name.
pub const NO_NAME: i32 = -1;

/// The greatest alignment of an instantiated section, as an exponent of two.
pub const MAX_ALIGNMENT: u8 = 31;

/// The first word of a symbol has its class byte from this bit on, and the offset of its name below.
pub const CLASS_SHIFT: u32 = 24;

/// A slot word has the number of its keys from this bit on, and the index of the first of them below
/// (kPEFHashSlotSymCountShift).
pub const SLOT_COUNT_SHIFT: u32 = 18;

/// A key has the length of the name from this bit on, and the hash below (kPEFHashLengthShift).
pub const KEY_LENGTH_SHIFT: u32 = 16;

/// The length of the longest name that a key can have.
pub const MAX_NAME_LENGTH: usize = 65_535;

/// The most slots of an export hash table that can be read, as an exponent of two.
pub const MAX_HASH_TABLE_POWER: u32 = 30;

/// The class of a symbol is its class byte modulo this.
pub const CLASS_COUNT: u8 = 16;

/// The bit of an import's class byte that says that the symbol may be missing (kPEFWeakImportSymMask).
pub const WEAK_IMPORT: u8 = 0x80;

// Kinds of sections.

/// Executable code that isn't written to (kPEFCodeSection).
pub const CODE_SECTION: u8 = 0;

/// Data whose image is in the container as it is (kPEFUnpackedDataSection).
pub const UNPACKED_DATA_SECTION: u8 = 1;

/// Data whose image is packed (kPEFPatternDataSection).
pub const PATTERN_DATA_SECTION: u8 = 2;

/// Data that isn't written to (kPEFConstantSection).
pub const CONSTANT_SECTION: u8 = 3;

/// Imports, exports and relocations (kPEFLoaderSection).
pub const LOADER_SECTION: u8 = 4;

/// For debuggers (kPEFDebugSection).
pub const DEBUG_SECTION: u8 = 5;

/// Code that is written to (kPEFExecDataSection).
pub const EXECUTABLE_DATA_SECTION: u8 = 6;

/// For exceptions (kPEFExceptionSection).
pub const EXCEPTION_SECTION: u8 = 7;

/// For tracebacks (kPEFTracebackSection).
pub const TRACEBACK_SECTION: u8 = 8;

// How sections are shared.

/// One instance for each process (kPEFProcessShare).
pub const PROCESS_SHARE: u8 = 1;

/// One instance for all processes (kPEFGlobalShare).
pub const GLOBAL_SHARE: u8 = 4;

/// One instance for all processes, and only privileged code may write to it (kPEFProtectedShare).
pub const PROTECTED_SHARE: u8 = 5;

// Classes of symbols.

/// An address of code (kPEFCodeSymbol).
pub const CODE_SYMBOL: u8 = 0;

/// An address of data (kPEFDataSymbol).
pub const DATA_SYMBOL: u8 = 1;

/// A transition vector: the addresses of a routine and of its table of contents (kPEFTVectSymbol).
pub const TRANSITION_VECTOR_SYMBOL: u8 = 2;

/// A place in the table of contents (kPEFTOCSymbol).
pub const TOC_SYMBOL: u8 = 3;

/// Glue that a linker inserted (kPEFGlueSymbol).
pub const GLUE_SYMBOL: u8 = 4;

// Bits of a library's options.

/// The library is initialized before the fragment (kPEFInitLibBeforeMask).
pub const INIT_BEFORE: u8 = 0x80;

/// The library may be missing (kPEFWeakImportLibMask).
pub const WEAK_LIBRARY: u8 = 0x40;

// Numbers in place of a section.

/// The section of an entry point that doesn't exist.
pub const NO_SECTION: i32 = -1;

/// The section of an export whose value is absolute (kPEFAbsoluteExport).
pub const ABSOLUTE_EXPORT: i32 = -2;

/// The section of an export that passes on the import whose index is its value (kPEFReexportedImport).
pub const REEXPORTED_IMPORT: i32 = -3;

// Offsets in the container header (PEFContainerHeader).

/// The first tag (tag1).
pub const TAG_1_AT: usize = 0;

/// The second tag (tag2).
pub const TAG_2_AT: usize = 4;

/// The architecture (architecture).
pub const ARCHITECTURE_AT: usize = 8;

/// The version of the format (formatVersion).
pub const FORMAT_VERSION_AT: usize = 12;

/// The time stamp (dateTimeStamp).
pub const DATE_TIME_STAMP_AT: usize = 16;

/// The oldest definition version that the fragment supports (oldDefVersion).
pub const OLD_DEF_VERSION_AT: usize = 20;

/// The oldest implementation version that the fragment supports (oldImpVersion).
pub const OLD_IMP_VERSION_AT: usize = 24;

/// The version of the fragment (currentVersion).
pub const CURRENT_VERSION_AT: usize = 28;

/// The number of sections (sectionCount).
pub const SECTION_COUNT_AT: usize = 32;

/// The number of instantiated sections, which come first (instSectionCount).
pub const INSTANTIATED_SECTION_COUNT_AT: usize = 34;

/// The reserved word (reservedA).
pub const CONTAINER_RESERVED_AT: usize = 36;

// Offsets in a section header (PEFSectionHeader).

/// The offset of the name (nameOffset).
pub const NAME_OFFSET_AT: usize = 0;

/// The preferred address (defaultAddress).
pub const DEFAULT_ADDRESS_AT: usize = 4;

/// The size in memory (totalSize).
pub const TOTAL_SIZE_AT: usize = 8;

/// The size of the image (unpackedSize).
pub const UNPACKED_SIZE_AT: usize = 12;

/// The length of the raw bytes (packedSize).
pub const PACKED_SIZE_AT: usize = 16;

/// The offset of the raw bytes (containerOffset).
pub const CONTAINER_OFFSET_AT: usize = 20;

/// The kind (sectionKind).
pub const SECTION_KIND_AT: usize = 24;

/// How the section is shared (shareKind).
pub const SHARE_KIND_AT: usize = 25;

/// The alignment, as an exponent of two (alignment).
pub const ALIGNMENT_AT: usize = 26;

/// The reserved byte (reservedA).
pub const SECTION_RESERVED_AT: usize = 27;

// Offsets in the loader header (PEFLoaderInfoHeader).

/// The section of the main entry point (mainSection).
pub const MAIN_SECTION_AT: usize = 0;

/// The offset of the main entry point (mainOffset).
pub const MAIN_OFFSET_AT: usize = 4;

/// The section of the initialization routine (initSection).
pub const INIT_SECTION_AT: usize = 8;

/// The offset of the initialization routine (initOffset).
pub const INIT_OFFSET_AT: usize = 12;

/// The section of the termination routine (termSection).
pub const TERM_SECTION_AT: usize = 16;

/// The offset of the termination routine (termOffset).
pub const TERM_OFFSET_AT: usize = 20;

/// The number of imported libraries (importedLibraryCount).
pub const IMPORTED_LIBRARY_COUNT_AT: usize = 24;

/// The number of imported symbols (totalImportedSymbolCount).
pub const TOTAL_IMPORTED_SYMBOL_COUNT_AT: usize = 28;

/// The number of relocation headers (relocSectionCount).
pub const RELOC_SECTION_COUNT_AT: usize = 32;

/// The offset of the relocation programs (relocInstrOffset).
pub const RELOC_INSTR_OFFSET_AT: usize = 36;

/// The offset of the string table (loaderStringsOffset).
pub const LOADER_STRINGS_OFFSET_AT: usize = 40;

/// The offset of the export hash table (exportHashOffset).
pub const EXPORT_HASH_OFFSET_AT: usize = 44;

/// The number of slots, as an exponent of two (exportHashTablePower).
pub const EXPORT_HASH_TABLE_POWER_AT: usize = 48;

/// The number of exported symbols (exportedSymbolCount).
pub const EXPORTED_SYMBOL_COUNT_AT: usize = 52;

// Offsets in an imported library (PEFImportedLibrary).

/// The offset of the name (nameOffset).
pub const LIBRARY_NAME_OFFSET_AT: usize = 0;

/// The oldest implementation version that the fragment takes (oldImpVersion).
pub const LIBRARY_OLD_IMP_VERSION_AT: usize = 4;

/// The version that the fragment was linked with (currentVersion).
pub const LIBRARY_CURRENT_VERSION_AT: usize = 8;

/// The number of its imported symbols (importedSymbolCount).
pub const IMPORTED_SYMBOL_COUNT_AT: usize = 12;

/// The index of the first of them (firstImportedSymbol).
pub const FIRST_IMPORTED_SYMBOL_AT: usize = 16;

/// The options (options).
pub const LIBRARY_OPTIONS_AT: usize = 20;

/// The reserved byte and the reserved halfword after it (reservedA, reservedB).
pub const LIBRARY_RESERVED_AT: usize = 21;

// Offsets in a relocation header (PEFLoaderRelocationHeader).

/// The section to be relocated (sectionIndex).
pub const SECTION_INDEX_AT: usize = 0;

/// The reserved halfword (reservedA).
pub const RELOCATION_RESERVED_AT: usize = 2;

/// The number of halfwords of the program (relocCount).
pub const RELOC_COUNT_AT: usize = 4;

/// The offset of the first of them among all programs (firstRelocOffset).
pub const FIRST_RELOC_OFFSET_AT: usize = 8;

// Offsets in an exported symbol (PEFExportedSymbol).

/// The class and the offset of the name (classAndName).
pub const EXPORT_CLASS_AND_NAME_AT: usize = 0;

/// The value (symbolValue).
pub const EXPORT_VALUE_AT: usize = 4;

/// The section, or a number in its place (sectionIndex).
pub const EXPORT_SECTION_AT: usize = 8;
