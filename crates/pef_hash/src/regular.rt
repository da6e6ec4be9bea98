ghost use Rattle.pef_hash.specs.Regular.{BuiltHasNoOther, BuiltHasOwn, BuiltIsRegular, RegularEndsInside};

/// A law: the table that is written for some names is regular: its keys are in order of slot, each
/// slot delimits exactly its keys, and each key is the hash word of its name. In the table of
/// distinct names each has its own key, and no other name has one.
pub fn built_tables_are_regular()
    ensures regular { BuiltIsRegular }
    ensures own { BuiltHasOwn }
    ensures other { BuiltHasNoOther }
{}

/// A law: if a slot of a regular table counts keys, they are keys of the table.
pub fn regular_slots_end_inside()
    ensures { RegularEndsInside }
{}
