use cfm_members::{MemberLookupFault, container_in_pair};
use mac_forks::ForkFault;

/// The first bytes of AppleDouble, without the rest of the header.
const CUT_HEADER: &[u8] = b"\x00\x05\x16\x07\x00\x03";

/// Programs don't look for a fragment in such a file beside another one.
#[test]
fn cut_header(rt: HostRuntime) {
    match container_in_pair(b"", CUT_HEADER, b"Calc") {
        Ok(_) => panic!(rt; "found"),
        Err(fault) => assert!(rt; fault == MemberLookupFault::Fork(ForkFault::AppleHeaderCut)),
    }
}
