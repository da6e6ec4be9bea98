//! The numbers and offsets of errors of files of the classic Mac OS.
ghost use Rattle.std.specs.Prelude.{◌≡◌, ◌==◌, false};
ghost use Rattle.mac_forks.specs.Faults as fork;
ghost use Rattle.mac_resources.specs.Faults as resource;
ghost use Rattle.cfm_members.specs.Faults as member;
ghost use Rattle.cfm_members.specs.MemberLookupFaults.{member_lookup_fault_number};
ghost use Rattle.pef_records.specs.Files.Parts.{offset_or_none};

use crate::place::NO_OFFSET;
use cfm_members::{MemberFault, MemberLookupFault};
use mac_forks::ForkFault;
use mac_resources::ResourceFault;

/// Returns the number of a fork's error.
pub fn fork_number(fault: ForkFault) -> u32
    ensures value { result ≡ fork.fault_number fault }
    ensures some { (result == 0) ≡ false }
{
    fault.number()
}

/// Returns the number of a resource's error.
pub fn resource_number(fault: ResourceFault) -> u32
    ensures value { result ≡ resource.fault_number fault }
    ensures some { (result == 0) ≡ false }
{
    fault.number()
}

/// Returns the number of a member's error.
pub fn member_number(fault: MemberFault) -> u32
    ensures value { result ≡ member.fault_number fault }
    ensures some { (result == 0) ≡ false }
{
    fault.number()
}

/// Returns the number of a fragment's error.
pub fn fragment_number(fault: MemberLookupFault) -> u32
    ensures value { result ≡ member_lookup_fault_number fault }
    ensures some { (result == 0) ≡ false }
{
    fault.number()
}

/// Returns an offset as C has it.
pub(crate) fn offset_or_none(offset: Option<usize>) -> usize
    ensures { result ≡ offset_or_none offset }
{
    match offset {
        Some(offset) => offset,
        None => NO_OFFSET,
    }
}
