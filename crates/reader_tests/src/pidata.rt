use pef_pidata::{expand, pack};
use std::alloc::Global;
use std::process::Abort;

/// Packed bytes, and the image that they spell.
type Image<'a> = (&'a [u8], &'a [u8]);

const IMAGES: &[Image<'static>] = &[
    (
        &[0x62, 0x01, 0x02, 0xAA, 0xBB, 0x01, 0x02],
        &[0xAA, 0xBB, 0x01, 0xAA, 0xBB, 0x02, 0xAA, 0xBB],
    ),
    (&[0x82, 0x01, 0x02, 0x05, 0x06], &[0, 0, 5, 0, 0, 6, 0, 0]),
    (&[0x41, 0x02, 0x7F], &[0x7F; 3]),
    (&[0x00, 0x81, 0x00], &[0; 128]),
    (&[0xA0], &[]),
];

fn test_image(rt: &impl Abort, packed: &[u8], out: &mut [u8], want: &[u8]) {
    assert!(rt; expand(packed, out) == Ok(()), "{packed:?}");
    assert!(rt; &*out == want, "{packed:?}");
}

#[test]
fn expand_to_an_image(rt: HostRuntime) {
    for row in IMAGES {
        let (packed, want) = *row;
        let mut buffer = [0xEE; 128];
        assert!(rt; want.len() <= 128);
        test_image(&rt, packed, &mut buffer[..want.len()], want);
    }
}

/// Packed bytes, the image's length, the refusal's number, and its offset in the packed bytes.
const REFUSED: &[(&[u8], usize, u32, usize)] = &[
    (&[], 8, 25, 0),
    (&[0x62], 8, 21, 0),
    (&[0x62, 0x01], 8, 21, 0),
    (&[0x62, 0x01, 0x02], 8, 21, 0),
    (&[0x62, 0x01, 0x02, 0xAA], 8, 21, 0),
    (&[0x62, 0x01, 0x02, 0xAA, 0xBB], 8, 21, 0),
    (&[0x62, 0x01, 0x02, 0xAA, 0xBB, 0x01], 8, 21, 0),
    (&[0xA0], 1, 22, 0),
    (&[0x20, 0xFF, 0xFF, 0xFF, 0xFF, 0x7F], 1, 23, 0),
    (&[0x20, 0x8F, 0xFF, 0xFF, 0xFF, 0x7F], 1, 24, 0),
    (&[0x22, 0x01, 0x02], 1, 24, 0),
    (&[0x22, 0x01], 2, 21, 0),
    (&[0x21, 0x05], 2, 25, 2),
];

/// Returns the number and the offset of the refusal of packed bytes, or `None` if they expand.
fn refusal(packed: &[u8], out: &mut [u8]) -> Option<(u32, Option<usize>)> {
    match expand(packed, out) {
        Ok(()) => None,
        Err(fault) => Some((fault.number(), fault.offset())),
    }
}

#[test]
fn expand_refused(rt: HostRuntime) {
    for row in REFUSED {
        let (packed, len, number, offset) = *row;
        let mut buffer = [0xEE; 8];
        assert!(rt; len <= 8);
        let found = refusal(packed, &mut buffer[..len]);
        assert!(rt; found == Some((number, Some(offset))), "{packed:?}");
    }
}

/// Packed bytes, and the image that they were packed from.
const PACKED: &[Image<'static>] = &[
    (&[], &[]),
    (&[0x03, 0x25, 1, 2, 0, 0, 3], &[0, 0, 0, 1, 2, 0, 0, 3]),
    (&[0x22, 0, 0], &[0, 0]),
    (&[0x00, 0x81, 0x00], &[0; 128]),
];

/// Packs an image, and expands what was packed.
fn test_packed(rt: &impl Abort, alloc: Global, image: &[u8], want: &[u8]) {
    assert!(rt; image.len() <= 16_777_216);
    let packed = pack(alloc, image).expect(rt, "packed bytes");
    assert!(rt; packed.as_slice() == want, "{want:?}");
    let mut out = vec![in alloc; 0xEE; image.len()].expect(rt, "memory");
    test_image(rt, &packed, &mut out, image);
}

#[test]
fn pack_images(rt: HostRuntime) {
    for row in PACKED {
        let (packed, image) = *row;
        test_packed(&rt, rt.alloc(), image, packed);
    }
}

/// A count of 31 is in the first byte, and one of 32 after it.
#[test]
fn pack_blocks(rt: HostRuntime) {
    let block = [0xFF; 32];
    let mut packed = [0xFF; 34];
    packed[1] = 0x3F;
    test_packed(&rt, rt.alloc(), &block[..31], &packed[1..33]);
    packed[0] = 0x20;
    packed[1] = 0x20;
    test_packed(&rt, rt.alloc(), &block, &packed);
}
