ghost use Rattle.std.specs.Prelude.{◌≡◌, IfOk};
ghost use Rattle.std.specs.Result.{result_err};
ghost use Rattle.pef_words.specs.Refusals.{result_map};
ghost use Rattle.pef_views.specs.Views.{contained};
ghost use Rattle.pef_loader.specs.Views.{loaded};
ghost use Rattle.pef_ports.specs.Sent.{Sends};
ghost use Rattle.pef_listing.specs.Listing.{entries_lines};
ghost use Rattle.pef_listing.specs.Listed.{AreReadable, listed_of, program_refusal, programs_fault};

use crate::fault::ListFault;
use crate::line_reader::LineReader;
use crate::lines::print_entry;
use pef_loader::{Loader, ProgramFault};
use pef_ports::{Page, Sink, StreamFault};
use pef_reloc::Program;
use pef_views::Container;

/// A container whose parts were all read, so that all of it can be listed.
#[derive(Clone, Copy, Debug)]
pub struct Listing<'a> {
    pub(crate) container: Container<'a>,
    pub(crate) loader: Loader<'a>,
    ghost readable: { AreReadable (loaded loader) },
}

impl<'a> Listing<'a> {
    ghost use Rattle.pef_ports.specs.Sent.{Sends};
    ghost use Rattle.pef_listing.specs.Left.{lines_left};
    ghost use Rattle.pef_listing.specs.Listing.{listing_text};
    ghost use Rattle.pef_listing.specs.Views.{parts};

    /// Reads all parts of a container.
    ///
    /// # Errors
    ///
    /// The first refusal: of the container, of its loader section, or of its relocation programs in the
    /// order of their headers.
    #[tactic(auto, unfolding(crate::specs::Listed::listed_of))]
    pub fn read(bytes: &'a [u8]) -> Result<Listing<'a>, ListFault>
        ensures { result_map parts result ≡ listed_of bytes.entry.now }
    {
        let container = match Container::read(bytes) {
            Ok(container) => container,
            Err(fault) => return Err(ListFault::View(fault)),
        };
        let loader = match Loader::read(&container) {
            Ok(loader) => loader,
            Err(fault) => {
                let place = fault.place(&container);
                return Err(ListFault::Loader { fault, place });
            }
        };
        match test_programs(&container, &loader) {
            Ok(()) => Ok(Listing { container, loader }),
            Err(program) => Err(ListFault::Reloc(program)),
        }
    }

    /// Prints all lines: what the container is, what it needs, where it is entered, how it is relocated,
    /// and what it exports.
    pub fn print<W: Sink>(&self, out: &mut W, page: &mut Page) -> Result<(), StreamFault>
        ensures { Sends result (W.stream out.old) (W.stream out.new) page.old.items page.new.items (listing_text (parts self.now).container (parts self.now).loader) }
    {
        let mut lines = self.lines();
        let mut more = true;
        'each: while more {
            more = lines.print_next(out, page)?;
        }
        Ok(())
    }

    /// Returns a reader of the lines, by which a caller prints them one after the other.
    pub fn lines(self) -> LineReader<'a>
        ensures { lines_left result ≡ listing_text (parts self.entry).container (parts self.entry).loader }
    {
        LineReader::new(self)
    }
}

/// Prints where a container is entered.
pub(crate) fn print_entries<W: Sink>(
    out: &mut W,
    page: &mut Page,
    loader: Loader<'_>,
) -> Result<(), StreamFault>
    ensures { Sends result (W.stream out.old) (W.stream out.new) page.old.items page.new.items (entries_lines (loaded loader.entry)) }
{
    let main = loader.main();
    let init = loader.init();
    let term = loader.term();
    print_entry(out, page, b"main ", main)?;
    print_entry(out, page, b"init ", init)?;
    print_entry(out, page, b"term ", term)
}

/// Tests the relocation programs, header by header, and reports the first refusal.
fn test_programs(container: &Container<'_>, loader: &Loader<'_>) -> Result<(), ProgramFault>
    ensures refused { result_err result ≡ programs_fault (contained container.now) (loaded loader.now) }
    ensures readable { IfOk result (λ _. AreReadable (loaded loader.now)) }
{
    for k in 0..loader.relocs() {
        test_program(container, loader, k as u32)?;
    }
    Ok(())
}

/// Tests the program of relocation header `k`.
fn test_program(container: &Container<'_>, loader: &Loader<'_>, k: u32) -> Result<(), ProgramFault>
    ensures { result_err result ≡ program_refusal (contained container.now) (loaded loader.now) k }
{
    let Some((section, instructions)) = loader.reloc(k as usize) else {
        return Ok(());
    };
    match Program::read(instructions) {
        Ok(_) => Ok(()),
        Err(fault) => Err(ProgramFault::new(container, k, section, fault)),
    }
}
