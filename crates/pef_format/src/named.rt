/// A row of a table with its name. The name is the bytes, `None` if no name is there, or the offset at which it begins, as the
/// reader of the row has it.
#[derive(Clone, Copy, Debug, PartialEq, Eq)]
pub struct Named<Fields, Name> {
    pub fields: Fields,
    pub name: Name,
}
