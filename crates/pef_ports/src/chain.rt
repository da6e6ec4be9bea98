ghost use Rattle.std.specs.Prelude.{ℕ, List, [], ◌∷◌, ◌++◌, decimal};
ghost use Rattle.pef_ports.specs.Names.{name_text};
ghost use Rattle.pef_ports.specs.Sent.{Sends};
ghost use Rattle.pef_ports.specs.Text.{hex_text, word_text};

use crate::name::print_name;
use crate::page::{Page, send};
use crate::pieces::{print_byte, print_number, print_word};
use crate::ports::{Sink, StreamFault};

/// What is printed as a text.
///
/// A line of such parts is the text that [`print_pieces`](crate::print_pieces) prints. The parts are statically typed, so lines
/// that come by the thousand take half the time.
pub trait Printed {
    /// The text.
    ghost text: { Self → List ℕ };

    /// Prints the text.
    fn print<W: Sink>(&self, out: &mut W, page: &mut Page) -> Result<(), StreamFault>
        ensures { Sends result (W.stream out.old) (W.stream out.new) page.old.items page.new.items (text self.now) };
}

/// A text, printed unchanged.
#[derive(Clone, Copy)]
pub struct Verbatim<'a>(pub &'a [u8]);

impl<'a> Printed for Verbatim<'a> {
    ghost text = { λ part. part.0.now };

    #[inline(always)]
    fn print<W: Sink>(&self, out: &mut W, page: &mut Page) -> Result<(), StreamFault> {
        send(out, page, self.0)
    }
}

/// A name. Bytes that could break a line are escaped.
#[derive(Clone, Copy)]
pub struct Escaped<'a>(pub &'a [u8]);

impl<'a> Printed for Escaped<'a> {
    ghost text = { λ part. name_text part.0.now };

    #[inline(always)]
    fn print<W: Sink>(&self, out: &mut W, page: &mut Page) -> Result<(), StreamFault> {
        print_name(out, page, self.0)
    }
}

/// A number in decimal.
#[derive(Clone, Copy)]
pub struct Decimal(pub u64);

impl Printed for Decimal {
    ghost text = { λ part. decimal part.0 };

    #[inline(always)]
    fn print<W: Sink>(&self, out: &mut W, page: &mut Page) -> Result<(), StreamFault> {
        print_number(out, page, self.0)
    }
}

/// A number of 32 bits in eight hex digits.
#[derive(Clone, Copy)]
pub struct Hex(pub u32);

impl Printed for Hex {
    ghost text = { λ part. word_text part.0 };

    #[inline(always)]
    fn print<W: Sink>(&self, out: &mut W, page: &mut Page) -> Result<(), StreamFault> {
        print_word(out, page, self.0)
    }
}

/// A number of 8 bits in two hex digits.
#[derive(Clone, Copy)]
pub struct HexByte(pub u8);

impl Printed for HexByte {
    ghost text = { λ part. hex_text (part.0 ∷ []) };

    #[inline(always)]
    fn print<W: Sink>(&self, out: &mut W, page: &mut Page) -> Result<(), StreamFault> {
        print_byte(out, page, self.0)
    }
}

/// One part after another.
#[derive(Clone, Copy)]
pub struct Joined<A, B>(pub A, pub B);

impl<A: Printed, B: Printed> Printed for Joined<A, B> {
    ghost text = { λ parts. A.text parts.0 ++ B.text parts.1 };

    #[inline(always)]
    fn print<W: Sink>(&self, out: &mut W, page: &mut Page) -> Result<(), StreamFault> {
        self.0.print(out, page)?;
        self.1.print(out, page)
    }
}
