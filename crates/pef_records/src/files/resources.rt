//! The map of a resource fork and its resources, as C sees them.
ghost use Rattle.std.specs.Prelude.{◌≡◌, [], Ok, Err, Some, map, option_map};
ghost use Rattle.pef_words.specs.Refusals.{result_map};
ghost use Rattle.mac_forks.specs.Views.{part_seen};
ghost use Rattle.mac_resources.specs.Views.{fork_seen, left, name_seen, resource_seen, row_seen};
ghost use Rattle.pef_records.specs.Buffers.{FillsRows};
ghost use Rattle.pef_records.specs.Files.Rows.{held_contents, held_name, held_seen, map_error, map_error_offset, map_row, resource_row, resource_shown, row_of, type_row_of};

use crate::answers::NOT_THERE;
use crate::files::errors::resource_number;
use crate::files::structs::{PefResource, PefResourceMap};
use crate::fill::{Rows, fill_rows};
use crate::place::NO_OFFSET;
use mac_forks::ForkBytes;
use mac_resources::{Resource, ResourceFault, ResourceFork, Resources};

/// Fills the first places with the resources from number `from` on, and returns how many they are.
pub fn fill_resources<'a>(rows: Resources<'a>, from: usize, places: &mut [PefResource<'a>]) -> usize
    ensures { FillsRows resource_row (left rows.entry) from (map resource_shown places.old) (map resource_shown places.new) result }
{
    let mut rest = rows;
    fill_rows(&mut rest, from, places)
}

impl<'a> Rows<PefResource<'a>> for Resources<'a> {
    ghost use Rattle.std.specs.Prelude.{map};
    ghost use Rattle.mac_resources.specs.Views.{left};
    ghost use Rattle.pef_records.specs.Files.Rows.{ResourceRow, resource_row, resource_shown};

    ghost Held = { ResourceRow };

    ghost shown = { resource_shown };

    ghost left = { λ r. map resource_row (left r) };

    fn take_row(&mut self) -> Option<PefResource<'a>> {
        match self.next() {
            Some(row) => Some(row_given(row)),
            None => None,
        }
    }
}

/// Returns a map as C sees it.
pub fn map_given(fork: ResourceFork<'_>) -> PefResourceMap
    ensures { result ≡ map_row (fork_seen fork.entry) }
{
    let header = fork.header();
    PefResourceMap {
        error_offset: map_error_offset(fork.fault()),
        error: map_error(fork.fault()),
        data_offset: header.data_offset,
        map_offset: header.map_offset,
        data_length: header.data_length,
        map_length: header.map_length,
        attributes: fork.map().attributes,
        type_count: fork.type_count(),
    }
}

/// Returns the number of the error of a map, or 0.
fn map_error(fault: Option<ResourceFault>) -> u32
    ensures { result ≡ map_error fault }
{
    match fault {
        Some(fault) => resource_number(fault),
        None => 0,
    }
}

/// Returns the offset of the error of a map.
fn map_error_offset(fault: Option<ResourceFault>) -> usize
    ensures { result ≡ map_error_offset fault }
{
    match fault {
        Some(fault) => fault.offset(),
        None => NO_OFFSET,
    }
}

/// Returns a row as C sees it.
fn row_given<'a>(row: Result<Resource<'a>, ResourceFault>) -> PefResource<'a>
    ensures { resource_shown result ≡ resource_row (row_seen row.entry) }
{
    match row {
        Ok(resource) => resource_given(&resource),
        Err(fault) => fault_given(fault),
    }
}

/// Returns a resource as C sees it.
pub fn resource_given<'a>(resource: &Resource<'a>) -> PefResource<'a>
    ensures { resource_shown result ≡ resource_row (Ok (resource_seen resource.now)) }
{
    let name = name_held(resource.name);
    let contents = contents_held(resource.contents);
    PefResource {
        name: name.bytes,
        bytes: contents.bytes,
        offset: contents.offset,
        error_offset: contents.error_offset,
        name_error_offset: name.error_offset,
        error: contents.error,
        name_error: name.error,
        type_code: resource.type_code,
        id: resource.reference.id,
        type_row: resource.type_row,
        row: resource.row,
        attributes: resource.reference.attributes,
    }
}

/// Returns the error of a row as C sees it.
fn fault_given<'a>(fault: ResourceFault) -> PefResource<'a>
    ensures { resource_shown result ≡ resource_row (Err fault) }
{
    PefResource {
        name: &[],
        bytes: &[],
        offset: 0,
        error_offset: fault.offset(),
        name_error_offset: NO_OFFSET,
        error: resource_number(fault),
        name_error: NOT_THERE,
        type_code: 0,
        id: 0,
        type_row: type_row_of(fault),
        row: row_of(fault),
        attributes: 0,
    }
}

/// Some bytes and their offset, or their error and its offset.
#[derive(Clone, Copy, Debug)]
pub(crate) struct HeldBytes<'a> {
    bytes: &'a [u8],
    offset: usize,
    error: u32,
    error_offset: usize,
}

/// Returns the name of a resource.
fn name_held<'a>(name: Option<Result<&'a [u8], ResourceFault>>) -> HeldBytes<'a>
    ensures { held_seen result ≡ held_name (option_map name_seen name.entry) }
{
    match name {
        Some(name) => name_or_error(name),
        None => nothing_held(NOT_THERE, NO_OFFSET),
    }
}

/// Returns the name that a resource has, or its error.
fn name_or_error<'a>(name: Result<&'a [u8], ResourceFault>) -> HeldBytes<'a>
    ensures { held_seen result ≡ held_name (Some (name_seen name.entry)) }
{
    match name {
        Ok(name) => HeldBytes {
            bytes: name,
            offset: 0,
            error: 0,
            error_offset: NO_OFFSET,
        },
        Err(fault) => nothing_held(resource_number(fault), fault.offset()),
    }
}

/// Returns the bytes of a resource.
fn contents_held<'a>(contents: Result<ForkBytes<'a>, ResourceFault>) -> HeldBytes<'a>
    ensures { held_seen result ≡ held_contents (result_map part_seen contents.entry) }
{
    match contents {
        Ok(part) => HeldBytes {
            bytes: part.bytes,
            offset: part.offset,
            error: 0,
            error_offset: NO_OFFSET,
        },
        Err(fault) => nothing_held(resource_number(fault), fault.offset()),
    }
}

/// Returns an error in place of bytes.
fn nothing_held<'a>(error: u32, error_offset: usize) -> HeldBytes<'a>
    ensures { held_seen result ≡ record { bytes = []; offset = 0; error = error; error_offset = error_offset } }
{
    HeldBytes {
        bytes: &[],
        offset: 0,
        error,
        error_offset,
    }
}

/// Returns the row of the type that an error is about.
fn type_row_of(fault: ResourceFault) -> u16
    ensures { result ≡ type_row_of fault }
{
    match fault {
        ResourceFault::ResourceMapOutside | ResourceFault::BadTypeList { .. } => 0,
        ResourceFault::ResourceTypeCut { type_row, .. }
        | ResourceFault::TooManyReferences { type_row, .. }
        | ResourceFault::ReferenceCut { type_row, .. }
        | ResourceFault::ResourceNameCut { type_row, .. }
        | ResourceFault::ResourceDataOutside { type_row, .. } => type_row,
    }
}

/// Returns the row of the reference that an error is about, or 0.
fn row_of(fault: ResourceFault) -> u16
    ensures { result ≡ row_of fault }
{
    match fault {
        ResourceFault::ResourceMapOutside
        | ResourceFault::BadTypeList { .. }
        | ResourceFault::ResourceTypeCut { .. }
        | ResourceFault::TooManyReferences { .. } => 0,
        ResourceFault::ReferenceCut { row, .. }
        | ResourceFault::ResourceNameCut { row, .. }
        | ResourceFault::ResourceDataOutside { row, .. } => row,
    }
}
