//! What is known of an error beyond its line, and how the explanation says it.
ghost use Rattle.std.specs.Prelude.{◌≡◌};
ghost use Rattle.pef_ports.specs.Sent.{Sends};
ghost use Rattle.pef_faults.specs.Notes.Notes.{bind_note, fragment_note, list_note, note_of, note_text, place_note, prepare_note, reason_text, script_fault_note, unread_note, versions_text};

mod excerpt;
mod places;
mod script;

use crate::fault::Fault;
use crate::notes::places::{print_place, print_program};
use crate::notes::script::{print_script_note, script_note};
use cfm_closure::{BindFault, Definition, Implementation};
use cfm_prepare::{FragmentFault, PrepareFault};
pub use excerpt::Excerpt;
use pef_format::Place;
use pef_listing::ListFault;
use pef_ports::{FileReason, Page, Piece, Sink, StreamFault, print_pieces, send};
use pef_script::ScriptFault;
pub use script::{Reason, ScriptNote};

/// The sentences on a folder that was to be read.
const FOLDER: &[u8] =
    b"\nThe system says: it is a folder. `find FOLDER -type f -print0 | pef inspect --files0` inspects the files in a folder.\n";

/// What is known of an error beyond its line.
#[derive(Clone, Copy, Debug, PartialEq, Eq)]
pub enum Explanation {
    /// No more than the line says.
    Nothing,
    /// Where it is in a container.
    Place(Place),
    /// The instruction of a relocation program, the section that the program is for, and for an instruction that can't
    /// be applied the offset of the word in that section.
    Program {
        place: Place,
        section: u32,
        word: Option<u64>,
    },
    /// The library that a fragment names, the versions that it needs of it, and those of the library that was found.
    Versions {
        place: Place,
        needed: Definition,
        found: Implementation,
    },
    /// The line of a script.
    Script(ScriptNote),
    /// Why a file couldn't be read or written.
    File(FileReason),
    /// A folder was to be read.
    Folder,
}

/// Returns what is known of an error beyond its line.
#[tactic(auto, unfolding(crate::specs::Notes::Notes::note_of))]
pub fn note_of(fault: &Fault<'_>) -> Explanation
    ensures { result ≡ note_of fault.now }
{
    match fault {
        Fault::Script { fault, text } => script_fault_note(*fault, text),
        Fault::Listing(fault) => list_note(*fault),
        Fault::Prepare(fault) => prepare_note(fault),
        Fault::Unreadable { reason, .. } => unread_note(*reason),
        Fault::Unwritable { reason, .. } => Explanation::File(*reason),
        Fault::Certificate(_)
        | Fault::SectionsDiffer
        | Fault::Input(_)
        | Fault::Fragment(_)
        | Fault::Untold { .. }
        | Fault::StoreFull
        | Fault::Stub(_)
        | Fault::OutOfMemory => Explanation::Nothing,
    }
}

/// Returns what is known of a script that is refused.
fn script_fault_note(fault: ScriptFault, text: &[u8]) -> Explanation
    ensures { result ≡ script_fault_note fault text.now }
{
    match fault {
        ScriptFault::Refused {
            fault,
            line,
            earlier,
            ..
        } => Explanation::Script(script_note(fault, line, earlier, text)),
        ScriptFault::OutOfMemory => Explanation::Nothing,
    }
}

/// Returns what is known of a container that can't be listed.
fn list_note(fault: ListFault) -> Explanation
    ensures { result ≡ list_note fault }
{
    match fault {
        ListFault::Reloc(program) => Explanation::Program {
            place: program.place,
            section: program.section,
            word: program.fault.word(),
        },
        ListFault::View(_) | ListFault::Loader { .. } => place_note(fault.place()),
    }
}

/// Returns what is known of a fragment that isn't prepared.
fn prepare_note(fault: &PrepareFault<'_>) -> Explanation
    ensures { result ≡ prepare_note fault.now }
{
    match fault {
        PrepareFault::Bind(fault) => bind_note(fault),
        PrepareFault::Fragment(fault) => fragment_note(fault),
        PrepareFault::TooManyConnections
        | PrepareFault::RootMissing
        | PrepareFault::TooManyBytes { .. }
        | PrepareFault::TooManyStepsInAll { .. }
        | PrepareFault::OutOfMemory => Explanation::Nothing,
    }
}

/// Returns what is known of a fragment that has no closure.
fn bind_note(fault: &BindFault<'_>) -> Explanation
    ensures { result ≡ bind_note fault.now }
{
    match fault {
        BindFault::ImplementationTooOld {
            place,
            needed,
            found,
            ..
        }
        | BindFault::ImplementationTooNew {
            place,
            needed,
            found,
            ..
        } => Explanation::Versions {
            place: *place,
            needed: *needed,
            found: *found,
        },
        _ => place_note(fault.place()),
    }
}

/// Returns what is known of a new fragment of a closure that isn't prepared.
fn fragment_note(fault: &FragmentFault<'_>) -> Explanation
    ensures { result ≡ fragment_note fault.now }
{
    match fault {
        FragmentFault::Reloc {
            fault,
            section,
            place,
            ..
        } => Explanation::Program {
            place: *place,
            section: *section,
            word: fault.word(),
        },
        _ => place_note(fault.place()),
    }
}

/// Returns what is known of a file that couldn't be read.
fn unread_note(reason: FileReason) -> Explanation
    ensures { result ≡ unread_note reason }
{
    match reason {
        FileReason::Folder => Explanation::Folder,
        FileReason::Missing
        | FileReason::Forbidden
        | FileReason::Full
        | FileReason::NotUtf8
        | FileReason::TooLong
        | FileReason::Other => Explanation::File(reason),
    }
}

/// Returns the note of a place, if there is one.
fn place_note(place: Option<Place>) -> Explanation
    ensures { result ≡ place_note place }
{
    match place {
        Some(place) => Explanation::Place(place),
        None => Explanation::Nothing,
    }
}

/// Ends the line of the help, and then prints what is known.
pub fn print_note<W: Sink>(
    out: &mut W,
    page: &mut Page,
    note: &Explanation,
) -> Result<(), StreamFault>
    ensures { Sends result (W.stream out.old) (W.stream out.new) page.old.items page.new.items (note_text note.now) }
{
    match note {
        Explanation::Nothing => send(out, page, b"\n"),
        Explanation::Place(place) => {
            send(out, page, b"\n")?;
            print_place(out, page, *place)
        }
        Explanation::Program {
            place,
            section,
            word,
        } => print_program(out, page, *place, *section, *word),
        Explanation::Versions {
            place,
            needed,
            found,
        } => {
            print_versions(out, page, *needed, *found)?;
            print_place(out, page, *place)
        }
        Explanation::Script(note) => print_script_note(out, page, note),
        Explanation::File(reason) => send(out, page, reason_text(*reason)),
        Explanation::Folder => send(out, page, FOLDER),
    }
}

/// Returns the sentence on a file that couldn't be read or written: none for other reasons than these.
fn reason_text(reason: FileReason) -> &'static [u8]
    ensures { result.now ≡ reason_text reason }
{
    match reason {
        FileReason::Missing =>
            b"\nThe system says: there is no file at this path, or a link there leads to none.\n",
        FileReason::Folder => b"\nThe system says: it is a folder.\n",
        FileReason::Forbidden =>
            b"\nThe system says: it may not be read or written by this user.\n",
        FileReason::Full => b"\nThe system says: no room is left on the disk.\n",
        FileReason::NotUtf8 => b"\nThe path isn't valid UTF-8, and such a path can't be opened.\n",
        FileReason::TooLong =>
            b"\nIt is a device or a pipe, and has no end or more than 536,870,912 bytes.\n",
        FileReason::Other => b"\n",
    }
}

/// Prints the sentence on the versions that don't fit.
#[tactic(auto, unfolding(crate::specs::Notes::Notes::versions_text))]
fn print_versions<W: Sink>(
    out: &mut W,
    page: &mut Page,
    needed: Definition,
    found: Implementation,
) -> Result<(), StreamFault>
    ensures { Sends result (W.stream out.old) (W.stream out.new) page.old.items page.new.items (versions_text needed found) }
{
    print_pieces(
        out,
        page,
        &[
            Piece::Text(b"\nThe fragment was linked with version "),
            Piece::Number(u64::from(needed.current)),
            Piece::Text(b" of the library, and takes version "),
            Piece::Number(u64::from(needed.old_imp)),
            Piece::Text(b" or newer. The library has version "),
            Piece::Number(u64::from(found.current)),
            Piece::Text(b", and serves fragments that were linked with version "),
            Piece::Number(u64::from(found.old_def)),
            Piece::Text(b" or newer.\n"),
        ],
    )
}
