ghost use Rattle.std.specs.Prelude.{◌≡◌, ◌++◌, OnOk};
ghost use Rattle.pef_write.specs.Fields.{field_bytes, spelled};

use byteorder::{BigEndian, ByteOrder};
use std::alloc::AllocError;

/// A number as a container has it: big-endian, in one, two or four bytes.
#[derive(Clone, Copy)]
pub(crate) enum Field {
    Byte(u8),
    Half(u16),
    Word(u32),
}

impl Field {
    /// Appends the field's bytes.
    fn put(self, out: &mut Vec<u8>) -> Result<(), AllocError>
        ensures { OnOk result (out.new.items ≡ out.old.items ++ field_bytes self) }
    {
        match self {
            Field::Byte(number) => out.extend_from_slice(&[number]),
            Field::Half(number) => {
                let mut bytes = [0; 2];
                BigEndian::write_u16(&mut bytes, number);
                out.extend_from_slice(&bytes)
            }
            Field::Word(number) => {
                let mut bytes = [0; 4];
                BigEndian::write_u32(&mut bytes, number);
                out.extend_from_slice(&bytes)
            }
        }
    }
}

/// Appends the bytes of `fields`, one after the other.
#[tactic(auto, unfolding(crate::specs::Fields::spelled))]
pub(crate) fn put_fields(out: &mut Vec<u8>, fields: &[Field]) -> Result<(), AllocError>
    ensures { OnOk result (out.new.items ≡ out.old.items ++ spelled fields.now) }
{
    for field in fields {
        field.put(out)?;
    }
    Ok(())
}
