use cfm_closure::{BindFault, StoreFault};
use cfm_memory::{GranuleFault, MemoryFault};
use cfm_prepare::{AddFault, CloseFault, FragmentFault, PrepareFault, RemoveFault};
use pef_cert::CertFault;
use pef_format::{Part, Place};
use pef_hash::HashFault;
use pef_listing::ListFault;
use pef_loader::LoaderFault;
use pef_pidata::PackFault;
use pef_plan::PlanFault;
use pef_ports::InputFault;
use pef_reloc::RelocFault;
use pef_script::{LineFault, ScriptFault, Word};
use pef_views::ViewFault;
use pef_write::LinkFault;
use std::alloc::Global;
use std::fmt;
use std::process::Abort;

/// A place. No text has it.
const PLACE: Place = Place {
    part: Part::Header,
    row: 0,
    field: 0,
    offset: None,
};

const INIT_LOOP: BindFault<'static> = BindFault::InitLoop {
    fragment: b"A",
    place: PLACE,
};

const NO_ROOM: FragmentFault<'static> = FragmentFault::NoRoom {
    fragment: b"A",
    place: PLACE,
};

/// A refusal of a script. It has its line.
const BAD_KIND: ScriptFault = ScriptFault::Refused {
    fault: LineFault::BadKind { word: 2 },
    line: 4_294_967_296,
    word: Word {
        number: 0,
        from: 0,
        to: 0,
    },
    earlier: Some(1),
};

/// Tests the text of a refusal. A width doesn't change it.
fn test_text<F: fmt::Display>(rt: &impl Abort, alloc: Global, fault: &F, name: &str) {
    let plain = format!(in alloc; "{fault}").expect(rt, "memory");
    assert!(rt; plain.as_str() == name, "{name}");
    let wide = format!(in alloc; "{fault:*>30}").expect(rt, "memory");
    assert!(rt; wide.as_str() == name, "{name}");
}

#[test]
fn names_of_readers(rt: HostRuntime) {
    let alloc = rt.alloc();
    test_text(&rt, alloc, &ViewFault::BadSizes { section: 3 }, "BadSizes");
    test_text(&rt, alloc, &LoaderFault::LoaderShort, "LoaderShort");
    test_text(&rt, alloc, &PackFault::TooLong { at: 0 }, "TooLong");
    test_text(&rt, alloc, &RelocFault::RepeatCuts { at: 0 }, "RepeatCuts");
    test_text(&rt, alloc, &ListFault::View(ViewFault::BadTag), "BadTag");
    test_text(&rt, alloc, &InputFault::TooLong, "InputTooLong");
}

#[test]
fn names_of_scripts_and_certificates(rt: HostRuntime) {
    let alloc = rt.alloc();
    test_text(&rt, alloc, &LineFault::Overlap { word: 1 }, "Overlap");
    test_text(&rt, alloc, &BAD_KIND, "BadKind line 4294967296");
    let certificate = CertFault::BadCertificate { line: 12 };
    test_text(&rt, alloc, &certificate, "BadCertificate line 12");
    test_text(&rt, alloc, &LinkFault::OutOfMemory, "OutOfMemory");
    test_text(&rt, alloc, &PlanFault::OutOfMemory, "OutOfMemory");
    test_text(&rt, alloc, &HashFault::OutOfMemory, "OutOfMemory");
}

#[test]
fn names_of_fragments(rt: HostRuntime) {
    let alloc = rt.alloc();
    test_text(&rt, alloc, &INIT_LOOP, "InitLoop");
    test_text(&rt, alloc, &MemoryFault::NoRoom, "NoRoom");
    test_text(&rt, alloc, &GranuleFault::BadGranule, "BadGranule");
    test_text(&rt, alloc, &NO_ROOM, "NoRoom");
    test_text(&rt, alloc, &PrepareFault::Bind(INIT_LOOP), "InitLoop");
    test_text(&rt, alloc, &StoreFault::OutOfMemory, "OutOfMemory");
    test_text(&rt, alloc, &AddFault::AddedTooLate, "AddedTooLate");
    test_text(&rt, alloc, &RemoveFault::StillNamed, "StillNamed");
    test_text(&rt, alloc, &CloseFault::BadConnection, "BadConnection");
}
