//! What is printed of stubs and their symbols.
ghost use Rattle.std.specs.Prelude.{◌≡◌, ◌++◌, true};
ghost use Rattle.pef_format.specs.Exports.{export_seen};
ghost use Rattle.pef_ports.specs.Sent.{Sends};
ghost use Rattle.pef_rows.specs.Objects.{separator};
ghost use Rattle.cfm_rows.specs.Symbols.{line_if, number_of, stub_front, stub_lines, stub_object, symbol_lines, symbol_object, symbol_objects};

use crate::entries::address_or_null;
use crate::lines::{print_stub_line, print_symbol_line};
use cfm_stubs::Stub;
use pef_format::{ExportValue, ExportView};
use pef_ports::{Page, Sink, StreamFault, send};
use pef_rows::{Token, class_member, print_separator, print_tokens};

/// Prints the lines of a stub: the name of its library, and its symbols that are numbers.
#[tactic(auto, unfolding(crate::specs::Symbols::stub_lines))]
pub fn print_stub_lines<W: Sink>(
    out: &mut W,
    page: &mut Page,
    stub: &Stub<'_>,
) -> Result<(), StreamFault>
    ensures { Sends result (W.stream out.old) (W.stream out.new) page.old.items page.new.items (stub_lines stub.now) }
{
    print_stub_line(out, page, stub.name())?;
    print_symbol_lines(out, page, stub)
}

/// Prints the lines of the symbols of a stub that are numbers, in their order.
pub fn print_symbol_lines<W: Sink>(
    out: &mut W,
    page: &mut Page,
    stub: &Stub<'_>,
) -> Result<(), StreamFault>
    ensures { Sends result (W.stream out.old) (W.stream out.new) page.old.items page.new.items (symbol_lines stub.now.exports) }
{
    for k in 0..stub.len() {
        let Some(symbol) = stub.export(k) else {
            unreachable!()
        };
        print_line_if(out, page, number_of(symbol), symbol.name)?;
    }
    Ok(())
}

/// Prints the line of a symbol, if it has a number.
fn print_line_if<W: Sink>(
    out: &mut W,
    page: &mut Page,
    number: Option<u32>,
    name: &[u8],
) -> Result<(), StreamFault>
    ensures { Sends result (W.stream out.old) (W.stream out.new) page.old.items page.new.items (line_if number name.now) }
{
    match number {
        Some(address) => print_symbol_line(out, page, address, name),
        None => send(out, page, b""),
    }
}

/// Returns the number of a symbol, if it isn't a place in memory.
fn number_of(symbol: ExportView<'_>) -> Option<u32>
    ensures { result ≡ number_of (export_seen symbol.entry) }
{
    match symbol.fields.value() {
        ExportValue::Absolute(number) => Some(number),
        ExportValue::InSection { .. } | ExportValue::Reexport { .. } => None,
    }
}

/// Prints a stub as an object of JSON, on a line of its own.
#[tactic(auto, unfolding(crate::specs::Symbols::stub_object))]
pub fn print_stub_object<W: Sink>(
    out: &mut W,
    page: &mut Page,
    stub: &Stub<'_>,
) -> Result<(), StreamFault>
    ensures { Sends result (W.stream out.old) (W.stream out.new) page.old.items page.new.items (stub_object stub.now) }
{
    print_front(out, page, stub.name())?;
    print_symbol_objects(out, page, stub)?;
    send(out, page, b"]}\n")
}

/// Prints the name of a stub.
#[tactic(auto, unfolding(crate::specs::Symbols::stub_front))]
fn print_front<W: Sink>(out: &mut W, page: &mut Page, name: &[u8]) -> Result<(), StreamFault>
    ensures { Sends result (W.stream out.old) (W.stream out.new) page.old.items page.new.items (stub_front name.now) }
{
    print_tokens(
        out,
        page,
        &[
            Token::Text(b"{"),
            Token::NameMember(b"stub", Some(name)),
            Token::Text(b",\"symbols\":["),
        ],
    )
}

/// Prints the symbols of a stub as objects, with commas between them.
fn print_symbol_objects<W: Sink>(
    out: &mut W,
    page: &mut Page,
    stub: &Stub<'_>,
) -> Result<(), StreamFault>
    ensures { Sends result (W.stream out.old) (W.stream out.new) page.old.items page.new.items (symbol_objects true stub.now.exports) }
{
    let mut is_first = true;
    for k in 0..stub.len() {
        let Some(symbol) = stub.export(k) else {
            unreachable!()
        };
        print_element(out, page, is_first, symbol)?;
        is_first = false;
    }
    Ok(())
}

/// Prints a symbol after a comma, unless it is the first.
fn print_element<W: Sink>(
    out: &mut W,
    page: &mut Page,
    is_first: bool,
    symbol: ExportView<'_>,
) -> Result<(), StreamFault>
    ensures { Sends result (W.stream out.old) (W.stream out.new) page.old.items page.new.items (separator is_first ++ symbol_object (export_seen symbol.entry)) }
{
    print_separator(out, page, is_first)?;
    print_symbol(out, page, symbol)
}

/// Prints a symbol.
#[tactic(auto, unfolding(crate::specs::Symbols::symbol_object))]
fn print_symbol<W: Sink>(
    out: &mut W,
    page: &mut Page,
    symbol: ExportView<'_>,
) -> Result<(), StreamFault>
    ensures { Sends result (W.stream out.old) (W.stream out.new) page.old.items page.new.items (symbol_object (export_seen symbol.entry)) }
{
    let fields = symbol.fields;
    print_tokens(
        out,
        page,
        &[
            Token::Text(b"{"),
            Token::NameMember(b"name", Some(symbol.name)),
            Token::Text(b",\"class\":"),
            Token::Number(u64::from(fields.class)),
            Token::Text(class_member(fields.class())),
            Token::Text(b",\"address\":"),
            address_or_null(number_of(symbol)),
            Token::Text(b"}"),
        ],
    )
}
