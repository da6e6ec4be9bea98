ghost use Rattle.std.specs.Prelude.{◌≡◌, ◌+◌, ◌/◌, ◌<◌, ◌≤◌, ◌^◌, length, take, drop, option_map};
ghost use Rattle.pef_words.specs.Refusals.{result_map};
ghost use Rattle.mac_resources.specs.Fork.{
  clipped,
  fork_of,
  has_form,
  header_of,
  is_apart,
  is_cut,
  is_consistent,
  map_is_cut,
  map_of,
  type_from,
  type_in,
  type_of,
};
ghost use Rattle.mac_resources.specs.Resources.{all_resources, resource_with};
ghost use Rattle.mac_resources.specs.Views.{fork_seen, left, resource_seen};

use crate::fault::ResourceFault;
use crate::layout::{
    DATA_LENGTH_AT, DATA_OFFSET_AT, FILE_NUMBER_AT, HEADER_SIZE, LEAST_MAP_SIZE, MAP_ATTRIBUTES_AT,
    MAP_FIELDS_SIZE, MAP_HANDLE_AT, MAP_LENGTH_AT, MAP_OFFSET_AT, NAME_LIST_AT, TYPE_LIST_AT,
    TYPE_SIZE, TYPES_AT,
};
use crate::reference::{ResourceType, read_type};
use crate::resource::Resource;
use crate::resources::Resources;
use pef_words::Cut;

/// The header of a resource fork, field by field. Offsets are from the fork's first byte.
#[derive(Clone, Copy, Debug, PartialEq, Eq)]
pub struct ResourceHeader {
    pub data_offset: u32,
    pub map_offset: u32,
    pub data_length: u32,
    pub map_length: u32,
}

/// The fields of a map. It begins with a copy of the header, which isn't tested.
#[derive(Clone, Copy, Debug, PartialEq, Eq)]
pub struct ResourceMap {
    pub copy: ResourceHeader,
    pub handle: u32,
    pub file_number: u16,
    pub attributes: u16,
    /// Where the type list begins, from the start of the map.
    pub type_list: u16,
    /// Where the name list begins, from the start of the map.
    pub name_list: u16,
}

/// A resource fork. Its types and resources are read when they are asked for.
#[derive(Clone, Copy, Debug)]
pub struct ResourceFork<'a> {
    pub(crate) cut: Cut<'a>,
    pub(crate) header: ResourceHeader,
    /// The map, as far as it is in the fork.
    pub(crate) map: Cut<'a>,
    pub(crate) fields: ResourceMap,
    /// The data, as far as they are in the fork.
    pub(crate) area: Cut<'a>,
    pub(crate) type_count: u16,
}

impl<'a> ResourceFork<'a> {
    /// Reads the header and the map of a resource fork.
    ///
    /// # Errors
    ///
    /// The header or the map's fields pass the end, or else the type list begins past the end of the map.
    #[tactic(auto, unfolding(crate::specs::Fork::fork_of))]
    pub fn read(bytes: &'a [u8]) -> Result<ResourceFork<'a>, ResourceFault>
        ensures { result_map fork_seen result ≡ fork_of bytes.entry.now }
    {
        let cut = Cut::new(bytes);
        let header = read_header(cut).ok_or(ResourceFault::ResourceMapOutside)?;
        let map = clipped(cut, header.map_offset, header.map_length);
        let fields = read_map(map).ok_or(ResourceFault::ResourceMapOutside)?;
        let last = map
            .u16_at(usize::from(fields.type_list))
            .ok_or(ResourceFault::BadTypeList {
                offset: header.map_offset as usize + TYPE_LIST_AT,
            })?;
        Ok(ResourceFork {
            cut,
            header,
            map,
            fields,
            area: clipped(cut, header.data_offset, header.data_length),
            type_count: last.wrapping_add(1),
        })
    }

    /// Returns whether some bytes can be a resource fork: data and map lie in them, after the header and apart from each
    /// other, and the type list lies in the map after its fields.
    #[tactic(auto, unfolding(crate::specs::Fork::is_consistent))]
    pub fn is_consistent(bytes: &[u8]) -> bool
        ensures { result ≡ is_consistent bytes.now }
    {
        match ResourceFork::read(bytes) {
            Ok(fork) => fork.fields.type_list >= MAP_FIELDS_SIZE
                && is_apart(fork.header, bytes.len()),
            Err(_) => false,
        }
    }

    /// Returns whether some bytes can be a resource fork, or the first bytes of one: then the map follows the data, and passes the end.
    #[tactic(auto, unfolding(crate::specs::Fork::has_form))]
    pub fn has_form(bytes: &[u8]) -> bool
        ensures { result ≡ has_form bytes.now }
    {
        if ResourceFork::is_consistent(bytes) {
            return true;
        }
        match read_header(Cut::new(bytes)) {
            Some(header) => is_cut(header, bytes.len()),
            None => false,
        }
    }

    /// Returns the header.
    pub fn header(self) -> ResourceHeader
        ensures { result ≡ (fork_seen self.entry).header }
    {
        self.header
    }

    /// Returns the fields of the map.
    pub fn map(self) -> ResourceMap
        ensures { result ≡ (fork_seen self.entry).fields }
    {
        self.fields
    }

    /// Returns the error of a map that passes the end of the fork. The part inside is still read.
    pub fn fault(self) -> Option<ResourceFault>
        ensures { result ≡ map_is_cut (fork_seen self.entry) }
    {
        let end = self.header.map_offset as usize + self.header.map_length as usize;
        if end > self.cut.len() {
            return Some(ResourceFault::ResourceMapOutside);
        }
        None
    }

    /// Returns how many types there are.
    pub fn type_count(self) -> u16
        ensures { result ≡ (fork_seen self.entry).type_count }
    {
        self.type_count
    }

    /// Returns the row of a type, or its error. `None` past the last one.
    pub fn resource_type(self, row: u16) -> Option<Result<ResourceType, ResourceFault>>
        ensures { result ≡ type_of (fork_seen self.entry) row }
    {
        if row >= self.type_count {
            return None;
        }
        Some(self.type_at(row))
    }

    /// Reads the row of a type.
    pub(crate) fn type_at(self, row: u16) -> Result<ResourceType, ResourceFault>
        ensures { result ≡ type_in (fork_seen self.entry) row }
    {
        let at = self.type_place(row);
        read_type(self.map, at).ok_or(ResourceFault::ResourceTypeCut {
            type_row: row,
            offset: self.header.map_offset as usize + at,
        })
    }

    /// Returns where the row of a type begins in the map.
    pub(crate) fn type_place(self, row: u16) -> usize
        ensures value { result ≡ type_from (fork_seen self.entry) row }
        ensures small { result < 2 ^ 20 }
    {
        usize::from(self.fields.type_list) + TYPES_AT + TYPE_SIZE * usize::from(row)
    }

    /// Returns an iterator over all resources, type by type, and their errors.
    ///
    /// A list of references ends with the first one that passes the end of the map, and so does the list of types. All
    /// lists together have no more references than the map has bytes for. A list that would pass this is an error, and
    /// the next one follows.
    #[tactic(auto, using(crate::proofs::FewLemmas::all_few))]
    pub fn resources(self) -> Resources<'a>
        ensures rows { left result ≡ all_resources (fork_seen self.entry) }
        ensures few { length (left result) ≤ (fork_seen self.entry).type_count + length (fork_seen self.entry).map / 12 }
    {
        Resources::new(self)
    }
}

/// Reads a header, or returns `None` if it passes the end.
#[tactic(auto, unfolding(crate::specs::Fork::header_of))]
fn read_header(cut: Cut<'_>) -> Option<ResourceHeader>
    ensures { result ≡ header_of cut.entry.bytes.now }
{
    Some(ResourceHeader {
        data_offset: cut.u32_at(DATA_OFFSET_AT)?,
        map_offset: cut.u32_at(MAP_OFFSET_AT)?,
        data_length: cut.u32_at(DATA_LENGTH_AT)?,
        map_length: cut.u32_at(MAP_LENGTH_AT)?,
    })
}

/// Reads the fields of a map, or returns `None` if they pass its end.
#[tactic(auto, unfolding(crate::specs::Fork::map_of))]
fn read_map(map: Cut<'_>) -> Option<ResourceMap>
    ensures { result ≡ map_of map.entry.bytes.now }
{
    Some(ResourceMap {
        copy: read_header(map)?,
        handle: map.u32_at(MAP_HANDLE_AT)?,
        file_number: map.u16_at(FILE_NUMBER_AT)?,
        attributes: map.u16_at(MAP_ATTRIBUTES_AT)?,
        type_list: map.u16_at(TYPE_LIST_AT)?,
        name_list: map.u16_at(NAME_LIST_AT)?,
    })
}

/// Returns the `len` bytes from `offset`, as far as they are there.
fn clipped<'a>(cut: Cut<'a>, offset: u32, len: u32) -> Cut<'a>
    ensures { result.bytes.now ≡ clipped cut.entry.bytes.now offset len }
{
    let from = cut.len().min(offset as usize);
    let (_, rest) = cut.bytes().split_at(from);
    let (part, _) = rest.split_at(rest.len().min(len as usize));
    Cut::new(part)
}

/// Returns whether the map follows the data and passes the end of a fork of this length.
fn is_cut(header: ResourceHeader, len: usize) -> bool
    ensures { result ≡ is_cut header len }
{
    let data_end = header.data_offset as usize + header.data_length as usize;
    let map_end = header.map_offset as usize + header.map_length as usize;
    header.data_offset >= HEADER_SIZE
        && data_end == header.map_offset as usize
        && header.map_length >= LEAST_MAP_SIZE
        && len < map_end
}

/// Returns whether data and map lie in a fork of `len` bytes, after the header and apart from each other.
fn is_apart(header: ResourceHeader, len: usize) -> bool
    ensures { result ≡ is_apart header len }
{
    let data_end = header.data_offset as usize + header.data_length as usize;
    let map_end = header.map_offset as usize + header.map_length as usize;
    header.data_offset >= HEADER_SIZE
        && header.map_offset >= HEADER_SIZE
        && data_end <= len
        && map_end <= len
        && (data_end <= header.map_offset as usize || map_end <= header.data_offset as usize)
}
