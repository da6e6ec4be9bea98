ghost use Rattle.std.specs.Prelude.{◌≡◌};
ghost use Rattle.cfm_members.specs.MemberLookupFaults.{member_lookup_fault_name, member_lookup_fault_number};

use crate::fault::MemberFault;
use mac_forks::ForkFault;
use mac_resources::ResourceFault;
use std::fmt;
use thiserror::Error;

/// Why the container of a fragment isn't found in a file. The text is the name of the error.
#[derive(Clone, Copy, Debug, PartialEq, Eq, Error)]
pub enum MemberLookupFault {
    /// A fork of the file can't be read.
    Fork(ForkFault),
    /// The resource fork can't be read, or a resource of it.
    Resource(ResourceFault),
    /// The table of fragments can't be read, or the container of a member.
    Member(MemberFault),
    /// The file has no table of fragments, or no fragment has the name, or its container isn't in the file.
    NoContainer,
}

impl MemberLookupFault {
    /// Returns the number of the error, from 80 to 98.
    pub fn number(&self) -> u32
        ensures { result ≡ member_lookup_fault_number self.now }
    {
        match self {
            MemberLookupFault::Fork(fault) => fault.number(),
            MemberLookupFault::Resource(fault) => fault.number(),
            MemberLookupFault::Member(fault) => fault.number(),
            MemberLookupFault::NoContainer => 80,
        }
    }

    /// Returns the name of the error, which is its text.
    pub fn name(&self) -> &'static str
        ensures { result.now ≡ member_lookup_fault_name self.now }
    {
        match self {
            MemberLookupFault::Fork(fault) => fault.name(),
            MemberLookupFault::Resource(fault) => fault.name(),
            MemberLookupFault::Member(fault) => fault.name(),
            MemberLookupFault::NoContainer => "NoContainer",
        }
    }
}

impl fmt::Display for MemberLookupFault {
    ghost use Rattle.std.specs.Prelude.{Some};
    ghost use Rattle.cfm_members.specs.MemberLookupFaults.{member_lookup_fault_name};

    ghost output = { λ fault. Some (member_lookup_fault_name fault) };

    fn fmt<W: fmt::Write>(&self, f: &mut fmt::Formatter<W>) -> fmt::Result {
        f.write_str(self.name())
    }
}
