//! Texts of certificates in version 1, and the same certificates in version 2.

/// The certificates of a script with two sections, of which the second has two transition vectors.
pub const TWO_SECTIONS: &str = "\
pefcert 1
section 0
fixups 0
length 0
program -
registers *
at 0 0
section 1
fixups 4
length 1
program 4601
registers 0 1 *
at 0 2 1 2 3 2 3 3 2 3
at 1 3 2 3 2 3 3 3 3 3
at 2 2 1 2 2 2 2 2 2 2
at 3 1 1 1 1 1 1 1 1 1
at 4 0 0 0 0 0 0 0 0 0
end
";

pub const TWO_SECTIONS_RANGES: &str = "\
pefcert 2
section 0
fixups 0
length 0
program -
registers *
at 0 0 0
section 1
fixups 4
length 1
program 4601
registers 0 1 *
at 0 0 2 1 2 3 2 3 3 2 3
at 1 1 3 2 3 2 3 3 3 3 3
at 2 2 2 1 2 2 2 2 2 2 2
at 3 3 1 1 1 1 1 1 1 1 1
at 4 4 0 0 0 0 0 0 0 0 0
end
";

/// Words of a section that isn't in a register: the first two rows are equal.
pub const WORDS: &str = "\
pefcert 1
section 2
fixups 3
length 2
program 6402 4202
registers 2 *
at 0 1 1 1 2
at 1 1 1 1 2
at 2 1 1 1 1
at 3 0 0 0 0
end
";

pub const WORDS_RANGES: &str = "\
pefcert 2
section 2
fixups 3
length 2
program 6402 4202
registers 2 *
at 0 1 1 1 1 2
at 2 2 1 1 1 1
at 3 3 0 0 0 0
end
";

/// Words that each have a halfword of their own, with a label that is too great.
pub const TOO_HIGH: &str = "\
pefcert 1
section 2
fixups 3
length 3
program 6602 6602 6602
registers 2 *
at 0 1 1 1 3
at 1 1 1 1 2
at 2 1 1 1 1
at 3 0 0 0 0
end
";

/// Two imports in turn.
pub const IMPORTS: &str = "\
pefcert 1
section 0
fixups 2
length 1
program 4A01
registers *
at 0 1
at 1 1
at 2 0
end
";

pub const IMPORTS_RANGES: &str = "\
pefcert 2
section 0
fixups 2
length 1
program 4A01
registers *
at 0 1 1
at 2 2 0
end
";
