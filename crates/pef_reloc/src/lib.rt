//! Relocation programs of PEF containers: their instructions, and their effect on a section.
//!
//! Source: Mac OS Runtime Architectures, "PEF Structure", the sections on relocation instructions, and
//! `PEFBinaryFormat.h`.
#![tactic(auto)]

mod addition;
mod counting;
mod decode;
mod encoding;
mod executed;
mod fault;
mod fixup;
mod fixups;
mod instr;
mod machine;
mod meaning;
mod opcode;
mod program;
mod recent;
mod registers;
mod relocate;
mod run;
mod stop;
mod theorems;
mod verifying;
mod words;

pub use addition::{Addition, Source};
pub use encoding::{Spelling, encode};
pub use fault::RelocFault;
pub use fixup::{
    Base, Fixup, MAX_FIXUPS, MAX_IMPORTS, MAX_SECTIONS, OFFSET_LIMIT, WORD, fixups_fit,
};
pub use fixups::Fixups;
pub use instr::{Instr, Repeat};
pub use meaning::{InstrNumbers, instr_numbers, kind_name};
pub use program::{Instrs, Program};
pub use recent::MAX_STEPS;
pub use relocate::apply;
pub use stop::Stop;
pub use theorems::{
    acts_in_turn, additions_inside, readable_programs, refusals_have_places, spelled_programs,
};
pub use verifying::{Sizes, verify};
