use pef_loader::Names;
use pef_ports::{Page, Sink, StreamFault, flush};
use pef_report::Inspection;
use std::alloc::Global;
use test_data::containers::VECTORS_LEAST;

/// An output that keeps its bytes.
#[derive(Drop)]
struct Paper {
    bytes: Vec<u8>,
    failures: u64,
    failed: bool,
}

impl Sink for Paper {
    ghost use Rattle.std.specs.Prelude.{Some};

    ghost stream = { λ paper. record { bytes = Some paper.bytes.items; failures = paper.failures; failed = paper.failed } };

    fn write(&mut self, bytes: &[u8]) -> Result<usize, StreamFault> {
        if self.bytes.extend_from_slice(bytes).is_err() {
            self.failures = self.failures.saturating_add(1);
            self.failed = true;
            return Err(StreamFault);
        }
        self.failed = false;
        Ok(bytes.len())
    }
}

/// Returns the text of an inspection, or its object.
fn printed(alloc: Global, inspection: &Inspection<'_, Global>, as_object: bool) -> Option<Vec<u8>> {
    let mut paper = Paper {
        bytes: Vec::new(alloc),
        failures: 0,
        failed: false,
    };
    let mut page = Page::new();
    if as_object {
        inspection.print_object(&mut paper, &mut page).ok()?;
    } else {
        inspection.print(&mut paper, &mut page).ok()?;
    }
    flush(&mut paper, &mut page).ok()?;
    let Paper { bytes, .. } = paper;
    Some(bytes)
}

/// What is printed of 39 bytes, 16 bytes into a file. They have no header, so no command takes them for a container.
const SHORT_TEXT: &str = "error 1 TooShort container at 00000010\n\
verdict cut needs 40 has 39 sections damaged imports damaged exports damaged relocations damaged\n";

const SHORT_OBJECT: &str =
    "{\"offset\":16,\"header\":null,\"sections\":[],\"loader\":null,\"libraries\":[],\"imports\":[],\
     \"relocations\":[],\"exports\":[],\"entries\":{\"main\":null,\"init\":null,\"term\":null},\
     \"errors\":[{\"number\":1,\"name\":\"TooShort\",\"part\":\"header\",\"row\":0,\"field\":null,\
     \"offset\":16}],\"notes\":[],\"verdict\":{\"state\":\"cut\",\"needs\":40,\"has\":39,\
     \"sections\":\"damaged\",\"imports\":\"damaged\",\"exports\":\"damaged\",\"relocations\":\"damaged\",\
     \"as_text\":false}}";

#[test]
fn bytes_without_a_header_are_printed(rt: HostRuntime) {
    let alloc = rt.alloc();
    let bytes = VECTORS_LEAST.get(..39).expect(&rt, "39 bytes");
    let inspection = Inspection::read(alloc, 16, bytes).expect(&rt, "memory");
    assert!(rt; inspection.error_count() == 1 && inspection.note_count() == 0);
    let text = printed(alloc, &inspection, false).expect(&rt, "memory");
    let object = printed(alloc, &inspection, true).expect(&rt, "memory");
    assert!(rt; text.as_slice() == SHORT_TEXT.as_bytes());
    assert!(rt; object.as_slice() == SHORT_OBJECT.as_bytes());
}

/// Bytes, the offset of a name, how many bytes of it are asked for, and what it is: its bytes, and whether they are all.
type NameRow = (&'static [u8], usize, usize, Option<(&'static [u8], bool)>);

const NAME_ROWS: &[NameRow] = &[
    (b"abc\0", 0, 3, Some((b"abc", true))),
    (b"abc\0", 0, 2, Some((b"ab", false))),
    (b"abc\0", 0, 0, Some((b"", false))),
    (b"abc\0", 2, usize::MAX, Some((b"c", true))),
    (b"abc\0", 3, 0, Some((b"", true))),
    (b"abc\0", 4, 3, None),
    (b"abc\0", 5, 3, None),
    (b"a\0bc", 0, 9, Some((b"a", true))),
    (b"a\0bc", 2, 1, None),
    (b"abc\0", usize::MAX, 3, None),
    (b"", 0, 3, None),
];

#[test]
fn names_are_looked_at_in_part(rt: HostRuntime) {
    for (bytes, from, most, want) in NAME_ROWS {
        let found = match Names::new(bytes).name(*from, *most) {
            Some(name) => Some((name.bytes, name.whole)),
            None => None,
        };
        assert!(rt; found == *want);
    }
}
