ghost use Rattle.std.specs.Prelude.{◌≡◌};
ghost use Rattle.cfm_members.specs.Faults.{fault_name, fault_number, fault_offset};

use crate::layout::{MEMBER_COUNT_AT, TABLE_VERSION_AT};
use std::fmt;
use thiserror::Error;

/// What is wrong with a table of fragments, with the number of the member, from 0, and the offset in the table of the field
/// that is wrong. The text is the name of the error.
#[derive(Clone, Copy, Debug, PartialEq, Eq, Error)]
pub enum MemberFault {
    /// The table's header passes the end.
    FragmentTableCut,

    /// The table's version isn't 1.
    BadFragmentTable,

    /// A member's fields pass the end, or its size does, or its size is too small for its fields. If the fields pass the
    /// end, no member follows.
    MemberCut { member: u16, offset: usize },

    /// A member's name passes the member's end.
    MemberNameCut { member: u16, offset: usize },

    /// A member's container passes the end of the data fork.
    FragmentOutside { member: u16, offset: usize },
}

impl MemberFault {
    /// Returns the number of the error, from 94 to 98. No error of another crate has it.
    pub fn number(&self) -> u32
        ensures { result ≡ fault_number self.now }
    {
        match self {
            MemberFault::FragmentTableCut => 94,
            MemberFault::BadFragmentTable => 95,
            MemberFault::MemberCut { .. } => 96,
            MemberFault::MemberNameCut { .. } => 97,
            MemberFault::FragmentOutside { .. } => 98,
        }
    }

    /// Returns the offset in the table of the field that the error is about. For a header that passes the end it is the
    /// number of members, which isn't there. If the size of a member doesn't lead to the next one, that one is at the end.
    pub fn offset(&self) -> usize
        ensures { result ≡ fault_offset self.now }
    {
        match self {
            MemberFault::FragmentTableCut => MEMBER_COUNT_AT,
            MemberFault::BadFragmentTable => TABLE_VERSION_AT,
            MemberFault::MemberCut { offset, .. }
            | MemberFault::MemberNameCut { offset, .. }
            | MemberFault::FragmentOutside { offset, .. } => *offset,
        }
    }

    /// Returns the name of the error, which is its text.
    pub fn name(&self) -> &'static str
        ensures { result.now ≡ fault_name self.now }
    {
        match self {
            MemberFault::FragmentTableCut => "FragmentTableCut",
            MemberFault::BadFragmentTable => "BadFragmentTable",
            MemberFault::MemberCut { .. } => "MemberCut",
            MemberFault::MemberNameCut { .. } => "MemberNameCut",
            MemberFault::FragmentOutside { .. } => "FragmentOutside",
        }
    }
}

impl fmt::Display for MemberFault {
    ghost use Rattle.std.specs.Prelude.{Some};
    ghost use Rattle.cfm_members.specs.Faults.{fault_name};

    ghost output = { λ fault. Some (fault_name fault) };

    fn fmt<W: fmt::Write>(&self, f: &mut fmt::Formatter<W>) -> fmt::Result {
        f.write_str(self.name())
    }
}
