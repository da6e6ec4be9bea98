use pef_loader::{EntryKind, Loader, LoaderFault, NamedRow};
use pef_views::Container;
use std::process::Abort;
use test_data::changes::with_words;
use test_data::containers::VECTORS_BYTES as GO;

/// Returns the fault of a container's loader section, or `None` if it is read.
fn loader_fault(rt: &impl Abort, bytes: &[u8]) -> Option<LoaderFault> {
    let container = Container::read(bytes).expect(rt, "a container");
    match Loader::read(&container) {
        Ok(_) => None,
        Err(fault) => Some(fault),
    }
}

/// A word at some place, and the fault. The loader header is at 160, the relocation header at 216, the
/// slot at 232, the key at 236 and the export at 240.
const WORKED: &[(usize, u32, LoaderFault)] = &[
    (112, 0, LoaderFault::LoaderShort),
    (184, 0xFFFF_FFFF, LoaderFault::BadTableOffset),
    (
        200,
        0xFFFF_FFFF,
        LoaderFault::BadName {
            of: NamedRow::Export(0),
        },
    ),
    (
        160,
        2,
        LoaderFault::BadEntry {
            entry: EntryKind::Main,
        },
    ),
    (216, 0x0002_0000, LoaderFault::BadRelocSection { header: 0 }),
    (220, 0xFFFF_FFFF, LoaderFault::RelocOutside { header: 0 }),
    (224, 0xFFFF_FFFF, LoaderFault::RelocOutside { header: 0 }),
    (208, 31, LoaderFault::BadExportTable),
    (212, 2, LoaderFault::BadExportTable),
    (246, 0xFFFF, LoaderFault::BadExportSection { export: 0 }),
    (246, 0xFFFC, LoaderFault::BadExportSection { export: 0 }),
    (246, 0xFFFD, LoaderFault::BadExportSection { export: 0 }),
];

#[test]
fn worked(rt: HostRuntime) {
    for (at, word, want) in WORKED {
        let bytes = with_words(rt.alloc(), &GO, &[(*at, *word)]).expect(&rt, "a changed container");
        assert!(rt; loader_fault(&rt, &bytes) == Some(*want), "{word} at {at}");
    }
}

/// Words at some places. The export `go` has the number 0 all the same: with another hash word, and with a slot without keys.
const NAMED: &[&[(usize, u32)]] = &[&[], &[(236, 0x0002_00A2)], &[(232, 0)]];

/// Returns the number of the export `go`.
fn export_of_go(rt: &impl Abort, bytes: &[u8]) -> Option<usize> {
    let container = Container::read(bytes).expect(rt, "a container");
    let loader = Loader::read(&container).expect(rt, "a loader section");
    loader.export_named(b"go")
}

#[test]
fn export_named(rt: HostRuntime) {
    for words in NAMED {
        let bytes = with_words(rt.alloc(), &GO, words).expect(&rt, "a changed container");
        assert!(rt; export_of_go(&rt, &bytes) == Some(0), "{words:?}");
    }
}
