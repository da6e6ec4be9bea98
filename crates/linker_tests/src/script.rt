use pef_script::Script;
use std::alloc::Global;
use std::fmt::Write;
use std::process::Abort;

/// The number and the line of a refusal, or `None` if the text is read.
type Refusal = Option<(u32, usize)>;

/// Returns the refusal of a text.
fn refusal(alloc: Global, text: &[u8]) -> Refusal {
    match Script::read(alloc, text) {
        Ok(_) => None,
        Err(fault) => Some((fault.number(), fault.line().unwrap_or(0))),
    }
}

/// Texts, and the refusal of their last line.
const WORKED: &[(&str, Refusal)] = &[
    (
        "section d data process 4 8\nfix d 0 section d\nfix d 2 section d",
        Some((46, 3)),
    ),
    (
        "section d data process 4 8\nfix d 0 section d\nfix d 5 section d",
        Some((47, 3)),
    ),
    (
        "section d data process 4 8\nfix d 4 section d\nfix d 0 section d",
        None,
    ),
    ("section d odd process 4 8", Some((49, 1))),
    ("section d data process 4 16777217", Some((42, 1))),
    ("fix d 0 section d", Some((43, 1))),
    ("section d", Some((41, 1))),
    (
        "section d data process 4 8\nsection d data process 4 8",
        Some((44, 2)),
    ),
    (
        "section d data process 4 16\nfix d 8 section d\nfix d 5 section d",
        Some((46, 3)),
    ),
    (
        "section d data process 4 16\nfix d 8 section d\ntvector d 4 d d",
        Some((46, 3)),
    ),
    (
        "section d data process 4 16\nfix d 8 section d\ntvector d 0 d d",
        None,
    ),
    ("section d data process 4 8\r", Some((41, 1))),
    (" section d data process 4 8", Some((41, 1))),
    ("section d  data process 4 8", Some((41, 1))),
];

#[test]
fn worked(rt: HostRuntime) {
    for row in WORKED {
        let (text, wanted) = *row;
        assert!(rt; refusal(rt.alloc(), text.as_bytes()) == wanted, "{text}");
    }
}

/// Returns a text with this many sections of four bytes.
fn sections(rt: &impl Abort, alloc: Global, count: u32) -> String {
    let mut text = String::new(alloc);
    for number in 0..count {
        writeln!(text, "section s{number} data process 4 4").expect(rt, "memory");
    }
    text
}

#[test]
fn most_sections(rt: HostRuntime) {
    for (count, wanted) in [(16, None), (17, Some((48, 17)))] {
        let text = sections(&rt, rt.alloc(), count);
        assert!(rt; refusal(rt.alloc(), text.as_bytes()) == wanted, "{count}");
    }
}

/// Returns a text with this many fixups side by side.
fn fixups(rt: &impl Abort, alloc: Global, count: u32) -> String {
    let mut text = String::new(alloc);
    text.push_str("section s data process 0 262148\n")
        .expect(rt, "memory");
    for number in 0..count {
        let offset = number.wrapping_mul(4);
        writeln!(text, "fix s {offset} section s").expect(rt, "memory");
    }
    text
}

#[test]
fn most_fixups(rt: HostRuntime) {
    for (count, wanted) in [(65_536, None), (65_537, Some((48, 65_538)))] {
        let text = fixups(&rt, rt.alloc(), count);
        assert!(rt; refusal(rt.alloc(), text.as_bytes()) == wanted, "{count}");
    }
}
