ghost use Rattle.std.specs.Prelude.{◌≡◌, ◌<◌, ◌^◌, option_map};
ghost use Rattle.std.specs.Option.{option_copied};
ghost use Rattle.pef_words.specs.Refusals.{result_map};
ghost use Rattle.mac_forks.specs.Views.{part_seen};
ghost use Rattle.mac_resources.specs.Resources.{
  contents_in,
  field_in,
  first_with,
  length_and_bytes,
  list_here,
  list_with,
  name_in,
  pascal,
  reference_from,
  resource_here,
  resource_in,
  resource_of,
  resource_with,
  with_reference,
};
ghost use Rattle.mac_resources.specs.Views.{fork_seen, name_seen, resource_seen};

use crate::fault::ResourceFault;
use crate::fork::ResourceFork;
use crate::layout::{ATTRIBUTES_AT, LENGTH_SIZE, NAME_OFFSET_AT, NO_NAME, REFERENCE_SIZE};
use crate::reference::{Reference, ResourceType, read_reference};
use mac_forks::ForkBytes;
use pef_words::Cut;

/// A resource, its place in the map, its name and its bytes.
#[derive(Clone, Copy, Debug)]
pub struct Resource<'a> {
    /// The type: four characters, as a number.
    pub type_code: u32,
    /// The row of the type, from 0.
    pub type_row: u16,
    /// The row of the reference in the type's list, from 0.
    pub row: u16,
    pub reference: Reference,
    /// `None` if there is no name.
    pub name: Option<Result<&'a [u8], ResourceFault>>,
    /// The bytes, with their offset in the fork.
    pub contents: Result<ForkBytes<'a>, ResourceFault>,
}

/// A type and the number of its row.
#[derive(Clone, Copy, Debug)]
pub(crate) struct ReferenceList {
    pub type_row: u16,
    pub kind: ResourceType,
}

impl<'a> ResourceFork<'a> {
    /// Returns a resource by the row of its type and its row in the type's list, or its error. `None` if there is no such
    /// row.
    #[tactic(auto, unfolding(crate::specs::Resources::resource_of))]
    pub fn resource(self, type_row: u16, row: u16) -> Option<Result<Resource<'a>, ResourceFault>>
        ensures { option_map (result_map resource_seen) result ≡ resource_of (fork_seen self.entry) type_row row }
    {
        if type_row >= self.type_count {
            return None;
        }
        let kind = match self.type_at(type_row) {
            Ok(kind) => kind,
            Err(fault) => return Some(Err(fault)),
        };
        if row >= kind.count() {
            return None;
        }
        Some(self.resource_at(ReferenceList { type_row, kind }, row))
    }

    /// Returns the resource with a type and an id: the first one with this id of the first type with this code. Rows that
    /// pass the end of the map are none.
    pub fn find(self, type_code: u32, id: i16) -> Option<Resource<'a>>
        ensures { option_map resource_seen result ≡ resource_with (fork_seen self.entry) type_code id }
    {
        let list = self.first_list(type_code)?;
        self.first_resource(list, id)
    }

    /// Returns the first type with a code.
    fn first_list(self, type_code: u32) -> Option<ReferenceList>
        ensures { result ≡ list_with (fork_seen self.entry) type_code }
    {
        for row in 0..self.type_count {
            match self.list_if(type_code, row) {
                Some(list) => return Some(list),
                None => {}
            }
        }
        None
    }

    /// Returns the type in a row if it has a code.
    fn list_if(self, type_code: u32, row: u16) -> Option<ReferenceList>
        ensures { result ≡ list_here (fork_seen self.entry) type_code row }
    {
        match self.type_at(row) {
            Ok(kind) => {
                if kind.code == type_code {
                    Some(ReferenceList {
                        type_row: row,
                        kind,
                    })
                } else {
                    None
                }
            }
            Err(_) => None,
        }
    }

    /// Returns the first resource of a list with an id.
    fn first_resource(self, list: ReferenceList, id: i16) -> Option<Resource<'a>>
        ensures { option_map resource_seen result ≡ first_with (fork_seen self.entry) list id }
    {
        for row in 0..list.kind.count() {
            match self.resource_if(list, id, row) {
                Some(resource) => return Some(resource),
                None => {}
            }
        }
        None
    }

    /// Returns the resource in a row of a list if it has an id.
    fn resource_if(self, list: ReferenceList, id: i16, row: u16) -> Option<Resource<'a>>
        ensures { option_map resource_seen result ≡ resource_here (fork_seen self.entry) list id row }
    {
        let reference = read_reference(self.map, self.reference_place(list, row))?;
        if reference.id != id {
            return None;
        }
        Some(self.with_reference(list, row, reference))
    }

    /// Reads the resource in a row of a list.
    pub(crate) fn resource_at(
        self,
        list: ReferenceList,
        row: u16,
    ) -> Result<Resource<'a>, ResourceFault>
        ensures { result_map resource_seen result ≡ resource_in (fork_seen self.entry) list row }
    {
        let at = self.reference_place(list, row);
        let reference = read_reference(self.map, at).ok_or(ResourceFault::ReferenceCut {
            type_row: list.type_row,
            row,
            offset: self.header.map_offset as usize + at,
        })?;
        Ok(self.with_reference(list, row, reference))
    }

    /// Returns the resource of a reference.
    fn with_reference(self, list: ReferenceList, row: u16, reference: Reference) -> Resource<'a>
        ensures { resource_seen result ≡ with_reference (fork_seen self.entry) list row reference }
    {
        Resource {
            type_code: list.kind.code,
            type_row: list.type_row,
            row,
            reference,
            name: self.name(list, row, reference),
            contents: self.contents(list, row, reference),
        }
    }

    /// Returns the name of a resource, or its error. `None` if there is no name.
    fn name(
        self,
        list: ReferenceList,
        row: u16,
        reference: Reference,
    ) -> Option<Result<&'a [u8], ResourceFault>>
        ensures { option_map name_seen result ≡ name_in (fork_seen self.entry) list row reference }
    {
        if reference.name_offset == NO_NAME {
            return None;
        }
        let at = usize::from(self.fields.name_list) + usize::from(reference.name_offset);
        match pascal(self.map, at) {
            Some(name) => Some(Ok(name)),
            None => Some(Err(ResourceFault::ResourceNameCut {
                type_row: list.type_row,
                row,
                offset: self.field_place(list, row, NAME_OFFSET_AT),
            })),
        }
    }

    /// Returns the bytes of a resource.
    fn contents(
        self,
        list: ReferenceList,
        row: u16,
        reference: Reference,
    ) -> Result<ForkBytes<'a>, ResourceFault>
        requires { reference.data_offset < 2 ^ 32 }
        ensures { result_map part_seen result ≡ contents_in (fork_seen self.entry) list row reference }
    {
        let at = reference.data_offset as usize;
        match length_and_bytes(self.area, at) {
            Some(bytes) => Ok(ForkBytes {
                offset: self.header.data_offset as usize + at + LENGTH_SIZE,
                bytes,
            }),
            None => Err(ResourceFault::ResourceDataOutside {
                type_row: list.type_row,
                row,
                offset: self.field_place(list, row, ATTRIBUTES_AT),
            }),
        }
    }

    /// Returns where the reference in a row of a list begins in the map.
    fn reference_place(self, list: ReferenceList, row: u16) -> usize
        ensures value { result ≡ reference_from (fork_seen self.entry) list row }
        ensures small { result < 2 ^ 20 }
    {
        usize::from(self.fields.type_list)
            + usize::from(list.kind.list_offset)
            + REFERENCE_SIZE * usize::from(row)
    }

    /// Returns where a field of the reference in a row of a list is in the fork.
    fn field_place(self, list: ReferenceList, row: u16, field: usize) -> usize
        requires { field < 12 }
        ensures { result ≡ field_in (fork_seen self.entry) list row field }
    {
        self.header.map_offset as usize + self.reference_place(list, row) + field
    }
}

/// Returns the bytes after a byte that is their number, or `None` if they pass the end.
#[tactic(auto, unfolding(crate::specs::Resources::pascal))]
fn pascal<'a>(map: Cut<'a>, at: usize) -> Option<&'a [u8]>
    requires { at < 2 ^ 40 }
    ensures { option_copied result ≡ pascal map.entry.bytes.now at }
{
    let len = map.u8_at(at)?;
    Some(map.part(at + 1, usize::from(len))?.bytes())
}

/// Returns the bytes after four bytes that are their number, or `None` if they pass the end.
#[tactic(auto, unfolding(crate::specs::Resources::length_and_bytes))]
fn length_and_bytes<'a>(area: Cut<'a>, at: usize) -> Option<&'a [u8]>
    requires { at < 2 ^ 40 }
    ensures { option_copied result ≡ length_and_bytes area.entry.bytes.now at }
{
    let len = area.u32_at(at)?;
    Some(area.part(at + LENGTH_SIZE, len as usize)?.bytes())
}
