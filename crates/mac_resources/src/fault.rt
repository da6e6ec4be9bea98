ghost use Rattle.std.specs.Prelude.{◌≡◌};
ghost use Rattle.mac_resources.specs.Faults.{fault_name, fault_number, fault_offset};

use crate::layout::MAP_OFFSET_AT;
use std::fmt;
use thiserror::Error;

/// What is wrong with a resource fork, with the numbers of the type's row and of the reference in its list, from 0, and
/// the offset in the fork of the field that is wrong. The text is the name of the error.
#[derive(Clone, Copy, Debug, PartialEq, Eq, Error)]
pub enum ResourceFault {
    /// The header, or the map's fields, pass the end.
    ResourceMapOutside,

    /// The type list begins past the end of the map.
    BadTypeList {
        offset: usize,
    },

    /// A type's row passes the end of the map.
    ResourceTypeCut {
        type_row: u16,
        offset: usize,
    },

    /// A type has more resources than the map, without the types before it, has bytes for.
    TooManyReferences {
        type_row: u16,
        offset: usize,
    },

    /// A reference passes the end of the map.
    ReferenceCut {
        type_row: u16,
        row: u16,
        offset: usize,
    },

    /// A resource's name passes the end of the map.
    ResourceNameCut {
        type_row: u16,
        row: u16,
        offset: usize,
    },

    /// A resource's bytes pass the end of the data.
    ResourceDataOutside {
        type_row: u16,
        row: u16,
        offset: usize,
    },
}

impl ResourceFault {
    /// Returns the number of the error, from 87 to 93. No error of another crate has it.
    pub fn number(&self) -> u32
        ensures { result ≡ fault_number self.now }
    {
        match self {
            ResourceFault::ResourceMapOutside => 87,
            ResourceFault::BadTypeList { .. } => 88,
            ResourceFault::ResourceTypeCut { .. } => 89,
            ResourceFault::TooManyReferences { .. } => 90,
            ResourceFault::ReferenceCut { .. } => 91,
            ResourceFault::ResourceNameCut { .. } => 92,
            ResourceFault::ResourceDataOutside { .. } => 93,
        }
    }

    /// Returns the offset in the fork of the field that the error is about. For a map outside it is the header's field
    /// for it, which may pass the end too.
    pub fn offset(&self) -> usize
        ensures { result ≡ fault_offset self.now }
    {
        match self {
            ResourceFault::ResourceMapOutside => MAP_OFFSET_AT,
            ResourceFault::BadTypeList { offset }
            | ResourceFault::ResourceTypeCut { offset, .. }
            | ResourceFault::TooManyReferences { offset, .. }
            | ResourceFault::ReferenceCut { offset, .. }
            | ResourceFault::ResourceNameCut { offset, .. }
            | ResourceFault::ResourceDataOutside { offset, .. } => *offset,
        }
    }

    /// Returns the name of the error, which is its text.
    pub fn name(&self) -> &'static str
        ensures { result.now ≡ fault_name self.now }
    {
        match self {
            ResourceFault::ResourceMapOutside => "ResourceMapOutside",
            ResourceFault::BadTypeList { .. } => "BadTypeList",
            ResourceFault::ResourceTypeCut { .. } => "ResourceTypeCut",
            ResourceFault::TooManyReferences { .. } => "TooManyReferences",
            ResourceFault::ReferenceCut { .. } => "ReferenceCut",
            ResourceFault::ResourceNameCut { .. } => "ResourceNameCut",
            ResourceFault::ResourceDataOutside { .. } => "ResourceDataOutside",
        }
    }
}

impl fmt::Display for ResourceFault {
    ghost use Rattle.std.specs.Prelude.{Some};
    ghost use Rattle.mac_resources.specs.Faults.{fault_name};

    ghost output = { λ fault. Some (fault_name fault) };

    fn fmt<W: fmt::Write>(&self, f: &mut fmt::Formatter<W>) -> fmt::Result {
        f.write_str(self.name())
    }
}
