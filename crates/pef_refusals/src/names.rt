//! Names of errors and notes. tools/declarations writes this file from docs/errors.table.
ghost use Rattle.std.specs.Prelude.{◌≡◌, option_map};
ghost use Rattle.pef_refusals.specs.Names.{closure_name, container_name, library_name, loader_name, mac_name, name_of, note_name, packed_name, port_name, relocation_name, script_name};

/// Returns the name of the error or the note with this number, if there is one.
pub fn name(number: u32) -> Option<&'static str>
    ensures { option_map (λ text. text.now) result ≡ name_of number }
{
    match number {
        0..=10 => container_name(number),
        11..=20 => loader_name(number),
        21..=30 => packed_name(number),
        31..=40 => relocation_name(number),
        41..=50 => script_name(number),
        51..=70 => closure_name(number),
        71..=75 | 99..=100 => port_name(number),
        76..=98 => mac_name(number),
        101..=199 => note_name(number),
        _ => library_name(number),
    }
}

/// Returns the name of an error of a container.
#[tactic(auto, unfolding(crate::specs::Names::container_name))]
fn container_name(number: u32) -> Option<&'static str>
    ensures { option_map (λ text. text.now) result ≡ container_name number }
{
    match number {
        1 => Some("TooShort"),
        2 => Some("BadTag"),
        3 => Some("BadArchitecture"),
        4 => Some("BadFormatVersion"),
        5 => Some("BadSectionCounts"),
        6 => Some("SectionOutside"),
        7 => Some("BadSectionKind"),
        8 => Some("BadSizes"),
        9 => Some("BadAlignment"),
        10 => Some("NoLoader"),
        _ => None,
    }
}

/// Returns the name of an error of a loader section.
#[tactic(auto, unfolding(crate::specs::Names::loader_name))]
fn loader_name(number: u32) -> Option<&'static str>
    ensures { option_map (λ text. text.now) result ≡ loader_name number }
{
    match number {
        11 => Some("LoaderShort"),
        12 => Some("BadTableOffset"),
        13 => Some("BadName"),
        14 => Some("BadLibraryRange"),
        15 => Some("OrphanImport"),
        16 => Some("BadEntry"),
        17 => Some("BadRelocSection"),
        18 => Some("RelocOutside"),
        19 => Some("BadExportTable"),
        20 => Some("BadExportSection"),
        _ => None,
    }
}

/// Returns the name of an error of packed data.
#[tactic(auto, unfolding(crate::specs::Names::packed_name))]
fn packed_name(number: u32) -> Option<&'static str>
    ensures { option_map (λ text. text.now) result ≡ packed_name number }
{
    match number {
        21 => Some("Truncated"),
        22 => Some("BadOpcode"),
        23 => Some("CountTooLarge"),
        24 => Some("TooLong"),
        25 => Some("TooShort"),
        _ => None,
    }
}

/// Returns the name of an error of a relocation program.
#[tactic(auto, unfolding(crate::specs::Names::relocation_name))]
fn relocation_name(number: u32) -> Option<&'static str>
    ensures { option_map (λ text. text.now) result ≡ relocation_name number }
{
    match number {
        31 => Some("BadOpcode"),
        32 => Some("CutInstruction"),
        33 => Some("RepeatTooFar"),
        34 => Some("RepeatCuts"),
        35 => Some("NestedRepeat"),
        36 => Some("TooManySteps"),
        37 => Some("WordOutside"),
        38 => Some("ImportOutside"),
        39 => Some("SectionOutside"),
        _ => None,
    }
}

/// Returns the name of an error of a script.
#[tactic(auto, unfolding(crate::specs::Names::script_name))]
fn script_name(number: u32) -> Option<&'static str>
    ensures { option_map (λ text. text.now) result ≡ script_name number }
{
    match number {
        41 => Some("BadLine"),
        42 => Some("BadNumber"),
        43 => Some("UnknownName"),
        44 => Some("RepeatedName"),
        45 => Some("OutOfOrder"),
        46 => Some("Overlap"),
        47 => Some("OutsideSection"),
        48 => Some("TooMany"),
        49 => Some("BadKind"),
        _ => None,
    }
}

/// Returns the name of an error of certificates, closures, placement or connections.
#[tactic(auto, unfolding(crate::specs::Names::closure_name))]
fn closure_name(number: u32) -> Option<&'static str>
    ensures { option_map (λ text. text.now) result ≡ closure_name number }
{
    match number {
        51 => Some("BadCertificate"),
        52 => Some("SectionsDiffer"),
        60 => Some("RootMissing"),
        61 => Some("LibraryMissing"),
        62 => Some("SymbolMissing"),
        63 => Some("ImplementationTooOld"),
        64 => Some("ImplementationTooNew"),
        65 => Some("ReexportLoop"),
        66 => Some("InitLoop"),
        67 => Some("NoRoom"),
        68 => Some("BadConnection"),
        69 => Some("TooManyConnections"),
        70 => Some("TooManyStepsInAll"),
        _ => None,
    }
}

/// Returns the name of an error of files, inputs or memory.
#[tactic(auto, unfolding(crate::specs::Names::port_name))]
fn port_name(number: u32) -> Option<&'static str>
    ensures { option_map (λ text. text.now) result ≡ port_name number }
{
    match number {
        71 => Some("FileUnreadable"),
        72 => Some("FileUnwritable"),
        73 => Some("InputUnreadable"),
        74 => Some("InputTooLong"),
        75 => Some("TooManyBytes"),
        99 => Some("OutOfMemory"),
        _ => None,
    }
}

/// Returns the name of an error of a file of the classic Mac OS.
#[tactic(auto, unfolding(crate::specs::Names::mac_name))]
fn mac_name(number: u32) -> Option<&'static str>
    ensures { option_map (λ text. text.now) result ≡ mac_name number }
{
    match number {
        76 => Some("DataForkCut"),
        77 => Some("ResourceForkCut"),
        78 => Some("CommentCut"),
        80 => Some("NoContainer"),
        81 => Some("BadMacBinaryCrc"),
        82 => Some("AppleHeaderCut"),
        83 => Some("BadAppleVersion"),
        84 => Some("AppleEntryCut"),
        85 => Some("AppleEntryOutside"),
        86 => Some("AppleEntryShort"),
        87 => Some("ResourceMapOutside"),
        88 => Some("BadTypeList"),
        89 => Some("ResourceTypeCut"),
        90 => Some("TooManyReferences"),
        91 => Some("ReferenceCut"),
        92 => Some("ResourceNameCut"),
        93 => Some("ResourceDataOutside"),
        94 => Some("FragmentTableCut"),
        95 => Some("BadFragmentTable"),
        96 => Some("MemberCut"),
        97 => Some("MemberNameCut"),
        98 => Some("FragmentOutside"),
        _ => None,
    }
}

/// Returns the name of a note.
#[tactic(auto, unfolding(crate::specs::Names::note_name))]
fn note_name(number: u32) -> Option<&'static str>
    ensures { option_map (λ text. text.now) result ≡ note_name number }
{
    match number {
        101 => Some("ReservedNotZero"),
        102 => Some("UnknownKind"),
        103 => Some("UnknownShare"),
        104 => Some("VersionBelowOldest"),
        105 => Some("EntryOutside"),
        106 => Some("ExportOutside"),
        107 => Some("WordOutsideImage"),
        108 => Some("IrregularExports"),
        109 => Some("TrailingBytes"),
        110 => Some("ProgramsUnverified"),
        111 => Some("ImagesUnverified"),
        112 => Some("Overlap"),
        113 => Some("UnownedBytes"),
        114 => Some("WordRelocatedTwice"),
        115 => Some("ContainersUnverified"),
        116 => Some("SectionsOutOfOrder"),
        117 => Some("BytesAfterForks"),
        118 => Some("FragmentShort"),
        119 => Some("DataForkElsewhere"),
        120 => Some("NotUnpacked"),
        121 => Some("NameOutside"),
        122 => Some("FragmentArchitecture"),
        123 => Some("FragmentUsage"),
        124 => Some("TextDamage"),
        125 => Some("ZeroRows"),
        _ => None,
    }
}

/// Returns the name of an answer that only this library gives.
#[tactic(auto, unfolding(crate::specs::Names::library_name))]
fn library_name(number: u32) -> Option<&'static str>
    ensures { option_map (λ text. text.now) result ≡ library_name number }
{
    match number {
        200 => Some("RoomTooSmall"),
        201 => Some("NotThere"),
        202 => Some("NotOpen"),
        203 => Some("AddedTooLate"),
        204 => Some("StoreFull"),
        205 => Some("BadGranule"),
        206 => Some("BadOptions"),
        207 => Some("StillPresent"),
        208 => Some("StillNamed"),
        209 => Some("NameTaken"),
        210 => Some("WrongAddressCount"),
        211 => Some("TooManySymbols"),
        212 => Some("LongName"),
        213 => Some("TooManyNameBytes"),
        214 => Some("PastLastNumber"),
        215 => Some("UnspellableName"),
        216 => Some("TooManyBytes"),
        _ => None,
    }
}
