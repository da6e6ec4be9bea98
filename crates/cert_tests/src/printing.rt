use crate::texts::{
    IMPORTS, IMPORTS_RANGES, TWO_SECTIONS, TWO_SECTIONS_RANGES, WORDS, WORDS_RANGES,
};
use pef_cert::Certificate;
use std::alloc::Global;
use std::process::Abort;

/// Texts of version 1, and their printed form after they are read.
const TEXTS: &[(&str, &str)] = &[
    (TWO_SECTIONS, TWO_SECTIONS_RANGES),
    (WORDS, WORDS_RANGES),
    (IMPORTS, IMPORTS_RANGES),
];

/// Returns the printed form of a text after it is read.
fn read_and_printed(rt: &impl Abort, alloc: Global, text: &str) -> Vec<u8> {
    let certificates = Certificate::read(alloc, text.as_bytes()).expect(rt, "certificates");
    Certificate::print(alloc, &certificates).expect(rt, "a text")
}

#[test]
fn printed_again(rt: HostRuntime) {
    for row in TEXTS {
        let (text, want) = *row;
        let printed = read_and_printed(&rt, rt.alloc(), text);
        assert!(rt; printed.as_slice() == want.as_bytes(), "{text}");
    }
}
