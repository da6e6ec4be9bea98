//! What a relocation program adds to which words. The container is read anew, and nothing is allocated.
ghost use Rattle.std.specs.Prelude.{◌≡◌};
ghost use Rattle.std.specs.Option.{option_copied};
ghost use Rattle.pef_loader.specs.Loader.{reloc_of};
ghost use Rattle.pef_loader.specs.PartialViews.{partly_loaded};
ghost use Rattle.pef_loader.specs.Views.{loaded};
ghost use Rattle.pef_reloc.specs.Unrolled.{program_fault};
ghost use Rattle.pef_c.specs.Containers.Fixups.{FixupsAnswer, HeaderAnswer, PartFixupsAnswer, PartProgramAnswer, ProgramAnswer, program_in};

use crate::containers::loader::read_tables;
use crate::containers::partial::read_part;
use pef_loader::{Loader, PartialLoader};
use pef_records::{NOT_THERE, PefFixup, fill_rows};
use pef_reloc::Program;

/// Reads the additions of a relocation header's program, from number `from` on, into the first places, and counts them.
///
/// Returns 0, or the number of the first refusal, or 201 if there is no such header.
#[unsafe(no_mangle)]
pub extern "C" fn pef_fixups(
    container: &[u8],
    header: usize,
    from: usize,
    places: &mut [PefFixup],
    count: &mut usize,
) -> u32
    ensures { FixupsAnswer container.now header from places.old places.new count.old count.new result }
{
    let loader = match read_tables(container) {
        Ok(loader) => loader,
        Err(number) => return number,
    };
    read_header(loader, header, from, places, count)
}

/// Reads the additions of a relocation header's program in a container that may be damaged, from number `from` on, into the first
/// places, and counts them.
///
/// Returns 0, or the number of the program's first error, or 1, 2 or 11 if no loader header can be read, or 201 if the program
/// isn't all there.
#[unsafe(no_mangle)]
pub extern "C" fn pef_partial_fixups(
    container: &[u8],
    header: usize,
    from: usize,
    places: &mut [PefFixup],
    count: &mut usize,
) -> u32
    ensures { PartFixupsAnswer container.now header from places.old places.new count.old count.new result }
{
    let loader = match read_part(container) {
        Ok(loader) => loader,
        Err(number) => return number,
    };
    read_part_header(&loader, header, from, places, count)
}

/// Reads the additions of a relocation header's program, if it is all there.
fn read_part_header(
    loader: &PartialLoader<'_>,
    header: usize,
    from: usize,
    places: &mut [PefFixup],
    count: &mut usize,
) -> u32
    ensures { PartProgramAnswer (program_in (partly_loaded loader.now) header) from places.old places.new count.old count.new result }
{
    match program_in(loader, header) {
        Some(instructions) => read_program(instructions, from, places, count),
        None => NOT_THERE,
    }
}

/// Returns the program of a relocation header, if it is all there.
fn program_in<'a>(loader: &PartialLoader<'a>, header: usize) -> Option<&'a [u8]>
    ensures { option_copied result ≡ program_in (partly_loaded loader.now) header }
{
    loader.relocation(header)?.program
}

/// Reads the additions of a relocation header's program.
fn read_header(
    loader: Loader<'_>,
    header: usize,
    from: usize,
    places: &mut [PefFixup],
    count: &mut usize,
) -> u32
    ensures { HeaderAnswer (reloc_of (loaded loader.entry) header) from places.old places.new count.old count.new result }
{
    match loader.reloc(header) {
        Some((_, instructions)) => read_program(instructions, from, places, count),
        None => NOT_THERE,
    }
}

/// Reads the additions of a program.
fn read_program(instructions: &[u8], from: usize, places: &mut [PefFixup], count: &mut usize) -> u32
    ensures { ProgramAnswer (program_fault instructions.now) instructions.now from places.old places.new count.old count.new result }
{
    match Program::read(instructions) {
        Ok(program) => {
            *count = fill_rows(&mut program.fixups(), from, places);
            0
        }
        Err(fault) => fault.number(),
    }
}
