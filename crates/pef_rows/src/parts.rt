//! Parts of the lines and objects of libraries, imports and exports. A container can have thousands of these, and a part that
//! has a type of its own is printed faster than a [`Token`](crate::Token), whose kind is looked up for each one.
use crate::tokens::{print_at, print_label_column, print_label_member, print_no_name};
use crate::versions::print_version;
use pef_loader::CutName;
use pef_ports::{Page, Printed, Sink, StreamFault, send};

/// An offset in a file.
#[derive(Clone, Copy)]
pub(crate) struct Offset(pub u64);

impl Printed for Offset {
    ghost use Rattle.pef_rows.specs.Tokens.{at_text};

    ghost text = { λ part. at_text part.0 };

    #[inline(always)]
    fn print<W: Sink>(&self, out: &mut W, page: &mut Page) -> Result<(), StreamFault> {
        print_at(out, page, self.0)
    }
}

/// The name of a row as far as it is printed, or `?` for one that can't be read.
#[derive(Clone, Copy)]
pub(crate) struct NameOrMark<'a>(pub Option<CutName<'a>>);

impl<'a> Printed for NameOrMark<'a> {
    ghost use Rattle.std.specs.Prelude.{option_map};
    ghost use Rattle.pef_loader.specs.PartialViews.{cut_seen};
    ghost use Rattle.pef_rows.specs.Lines.{name_or_mark};

    ghost text = { λ part. name_or_mark (option_map cut_seen part.0) };

    #[inline(always)]
    fn print<W: Sink>(&self, out: &mut W, page: &mut Page) -> Result<(), StreamFault> {
        match self.0 {
            Some(name) => print_label_column(out, page, name.bytes),
            None => send(out, page, b"?"),
        }
    }
}

/// The name of a row as a member of a JSON object, as far as it is printed, or `null` for one that can't be read.
#[derive(Clone, Copy)]
pub(crate) struct CutNameMember<'a>(pub Option<CutName<'a>>);

impl<'a> Printed for CutNameMember<'a> {
    ghost use Rattle.std.specs.Prelude.{codes, option_map};
    ghost use Rattle.pef_loader.specs.PartialViews.{cut_seen};
    ghost use Rattle.pef_rows.specs.Tokens.{row_member};

    ghost text = { λ part. row_member (codes "name") (option_map cut_seen part.0) };

    #[inline(always)]
    fn print<W: Sink>(&self, out: &mut W, page: &mut Page) -> Result<(), StreamFault> {
        match self.0 {
            Some(name) => print_label_member(out, page, b"name", name),
            None => print_no_name(out, page, b"name"),
        }
    }
}

/// A version as people write it.
#[derive(Clone, Copy)]
pub(crate) struct Version(pub u32);

impl Printed for Version {
    ghost use Rattle.pef_rows.specs.Versions.{version_text};

    ghost text = { λ part. version_text part.0 };

    #[inline(always)]
    fn print<W: Sink>(&self, out: &mut W, page: &mut Page) -> Result<(), StreamFault> {
        print_version(out, page, self.0)
    }
}
