//! The relocated words of a prepared fragment as objects of JSON.
ghost use Rattle.std.specs.Prelude.{◌≡◌, ◌++◌, option_map, true};
ghost use Rattle.pef_loader.specs.Views.{loaded, reloc_seen};
ghost use Rattle.pef_ports.specs.Sent.{Sends};
ghost use Rattle.pef_reloc.specs.Left.{fixups_left};
ghost use Rattle.pef_reloc.specs.Traces.{addition_seen};
ghost use Rattle.pef_rows.specs.Objects.{separator};
ghost use Rattle.cfm_rows.specs.Relocations.{added_members, loader_relocations, program_words, relocation_elements, relocation_object, relocation_row, word_elements, word_object};

use pef_loader::Loader;
use pef_ports::{Page, Piece, Sink, StreamFault, print_pieces, send};
use pef_reloc::{Addition, Fixups, Program, Source};
use pef_rows::print_separator;

/// Prints the relocation headers of a fragment with the words that they relocate, with commas between them.
pub(crate) fn print_relocations<W: Sink>(
    out: &mut W,
    page: &mut Page,
    loader: Option<Loader<'_>>,
) -> Result<(), StreamFault>
    ensures { Sends result (W.stream out.old) (W.stream out.new) page.old.items page.new.items (loader_relocations (option_map loaded loader.entry)) }
{
    match loader {
        Some(loader) => print_rows(out, page, &loader),
        None => send(out, page, b""),
    }
}

/// Prints the relocation headers of a loader section.
fn print_rows<W: Sink>(out: &mut W, page: &mut Page, loader: &Loader<'_>) -> Result<(), StreamFault>
    ensures { Sends result (W.stream out.old) (W.stream out.new) page.old.items page.new.items (relocation_elements (loaded loader.now) 0 (loaded loader.now).header.reloc_count) }
{
    for k in 0..loader.relocs() {
        print_row(out, page, k == 0, loader.reloc(k))?;
    }
    Ok(())
}

/// Prints a relocation header after a comma, unless it is the first.
fn print_row<W: Sink>(
    out: &mut W,
    page: &mut Page,
    is_first: bool,
    row: Option<(u32, &[u8])>,
) -> Result<(), StreamFault>
    ensures { Sends result (W.stream out.old) (W.stream out.new) page.old.items page.new.items (relocation_row is_first (option_map reloc_seen row.entry)) }
{
    match row {
        Some((section, program)) => print_next(out, page, is_first, section, program),
        None => send(out, page, b""),
    }
}

/// Prints a relocation header that is there.
fn print_next<W: Sink>(
    out: &mut W,
    page: &mut Page,
    is_first: bool,
    section: u32,
    program: &[u8],
) -> Result<(), StreamFault>
    ensures { Sends result (W.stream out.old) (W.stream out.new) page.old.items page.new.items (separator is_first ++ relocation_object section program.now) }
{
    print_separator(out, page, is_first)?;
    print_relocation(out, page, section, program)
}

/// Prints the section that a relocation header relocates, and its words.
#[tactic(auto, unfolding(crate::specs::Relocations::relocation_object))]
fn print_relocation<W: Sink>(
    out: &mut W,
    page: &mut Page,
    section: u32,
    program: &[u8],
) -> Result<(), StreamFault>
    ensures { Sends result (W.stream out.old) (W.stream out.new) page.old.items page.new.items (relocation_object section program.now) }
{
    print_pieces(
        out,
        page,
        &[
            Piece::Text(b"{\"section\":"),
            Piece::Number(u64::from(section)),
            Piece::Text(b",\"words\":["),
        ],
    )?;
    print_program(out, page, program)?;
    send(out, page, b"]}")
}

/// Prints the words to which a program adds; none if it can't be read.
#[tactic(auto, unfolding(crate::specs::Relocations::program_words))]
fn print_program<W: Sink>(out: &mut W, page: &mut Page, bytes: &[u8]) -> Result<(), StreamFault>
    ensures { Sends result (W.stream out.old) (W.stream out.new) page.old.items page.new.items (program_words bytes.now) }
{
    match Program::read(bytes) {
        Ok(program) => print_words(out, page, program.fixups()),
        Err(_) => Ok(()),
    }
}

/// Prints words in the order in which they are added to, with commas between them.
fn print_words<W: Sink>(out: &mut W, page: &mut Page, fixups: Fixups<'_>) -> Result<(), StreamFault>
    ensures { Sends result (W.stream out.old) (W.stream out.new) page.old.items page.new.items (word_elements true (fixups_left fixups.entry)) }
{
    let mut rest = fixups;
    let mut is_first = true;
    while let Some(addition) = rest.next() {
        print_element(out, page, is_first, addition)?;
        is_first = false;
    }
    Ok(())
}

/// Prints a word after a comma, unless it is the first.
fn print_element<W: Sink>(
    out: &mut W,
    page: &mut Page,
    is_first: bool,
    addition: Addition,
) -> Result<(), StreamFault>
    ensures { Sends result (W.stream out.old) (W.stream out.new) page.old.items page.new.items (separator is_first ++ word_object (addition_seen addition)) }
{
    print_separator(out, page, is_first)?;
    print_word(out, page, addition)
}

/// Prints a word and what is added to it.
#[tactic(auto, unfolding(crate::specs::Relocations::word_object, crate::specs::Relocations::added_members))]
fn print_word<W: Sink>(out: &mut W, page: &mut Page, addition: Addition) -> Result<(), StreamFault>
    ensures { Sends result (W.stream out.old) (W.stream out.new) page.old.items page.new.items (word_object (addition_seen addition)) }
{
    let (word, number) = match addition.source {
        Source::Section(section) => (
            &b",\"kind\":\"section\",\"number\":"[..],
            u64::from(section),
        ),
        Source::Import(import) => (&b",\"kind\":\"import\",\"number\":"[..], import),
    };
    print_pieces(
        out,
        page,
        &[
            Piece::Text(b"{\"offset\":"),
            Piece::Number(addition.offset),
            Piece::Text(word),
            Piece::Number(number),
            Piece::Text(b"}"),
        ],
    )
}
