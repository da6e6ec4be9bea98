ghost use Rattle.std.specs.Prelude.{◌≡◌, ◌<◌, ◌^◌};
ghost use Rattle.mac_resources.specs.References.{is_compressed, list_count, reference_read, type_read};

use crate::layout::{
    ATTRIBUTES_AT, CODE_AT, ID_AT, LAST_AT, NAME_OFFSET_AT, REFERENCE_HANDLE_AT, REFERENCE_LIST_AT,
};
use pef_words::Cut;

/// The row of a type, field by field.
#[derive(Clone, Copy, Debug, PartialEq, Eq)]
pub struct ResourceType {
    /// Four characters, as a number.
    pub code: u32,
    /// The number of resources less one. FFFF (hexadecimal) says that there is none.
    pub last: u16,
    /// Where the references begin, from the start of the type list.
    pub list_offset: u16,
}

impl ResourceType {
    /// Returns how many resources the type has.
    pub fn count(self) -> u16
        ensures { result ≡ list_count self }
    {
        self.last.wrapping_add(1)
    }
}

/// A reference, field by field: what the map says of a resource.
#[derive(Clone, Copy, Debug, PartialEq, Eq)]
pub struct Reference {
    pub id: i16,
    /// Where the name begins in the name list, or FFFF (hexadecimal) for none.
    pub name_offset: u16,
    pub attributes: u8,
    /// Where the length of the bytes begins in the data: 24 bits.
    pub data_offset: u32,
    pub handle: u32,
}

impl Reference {
    /// Returns whether the resource's bytes are compressed. Then they aren't those of the resource.
    pub fn is_compressed(self) -> bool
        ensures { result ≡ is_compressed self }
    {
        self.attributes % 2 == 1
    }
}

/// Reads the row of a type, or returns `None` if it passes the end of the map.
#[tactic(auto, unfolding(crate::specs::References::type_read))]
pub(crate) fn read_type(map: Cut<'_>, at: usize) -> Option<ResourceType>
    requires { at < 2 ^ 40 }
    ensures { result ≡ type_read map.entry.bytes.now at }
{
    Some(ResourceType {
        code: map.u32_at(at + CODE_AT)?,
        last: map.u16_at(at + LAST_AT)?,
        list_offset: map.u16_at(at + REFERENCE_LIST_AT)?,
    })
}

/// Reads a reference, or returns `None` if it passes the end of the map.
#[tactic(auto, unfolding(crate::specs::References::reference_read))]
pub(crate) fn read_reference(map: Cut<'_>, at: usize) -> Option<Reference>
    requires { at < 2 ^ 40 }
    ensures { result ≡ reference_read map.entry.bytes.now at }
{
    let id = map.i16_at(at + ID_AT)?;
    let name_offset = map.u16_at(at + NAME_OFFSET_AT)?;
    let word = map.u32_at(at + ATTRIBUTES_AT)?;
    let handle = map.u32_at(at + REFERENCE_HANDLE_AT)?;
    Some(Reference {
        id,
        name_offset,
        attributes: (word >> 24) as u8,
        data_offset: word % (1 << 24),
        handle,
    })
}
