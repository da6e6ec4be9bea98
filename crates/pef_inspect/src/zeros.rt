//! Rows of the tables of a loader section that are zero bytes.
ghost use Rattle.std.specs.Prelude.{◌≡◌, ◌-◌, ◌++◌, OnOk};
ghost use Rattle.pef_views.specs.PartialViews.{partly};
ghost use Rattle.pef_loader.specs.PartialViews.{partly_loaded};
ghost use Rattle.pef_inspect.specs.Zeros.{are_zero, are_zero_at, exports, follows_zero, imports, is_zero_row, libraries, many_zeros, relocations, starts_zeros, zero_note, zero_notes, zero_rows, zeros_from};

use crate::finding::Finding;
use crate::note::Note;
use crate::notes::note_at;
use crate::sink::{Findings, Rows, take_rows, take_some};
use pef_format::Part;
use pef_format::layout::{EXPORT_SIZE, IMPORT_SIZE, LIBRARY_SIZE, RELOCATION_HEADER_SIZE};
use pef_loader::PartialLoader;
use pef_views::PartialContainer;
use pef_words::Cut;

/// This many zero rows of a table that follow each other are noted.
const NOTED_ROWS: u32 = 2;

/// The same of imports, which have four bytes each. The first name of a container may be that of several imports.
const NOTED_IMPORTS: u32 = 4;

/// A table of a loader section.
#[derive(Clone, Copy)]
struct Table {
    kind: Part,
    /// The size of a row.
    size: u8,
    /// How many rows there are.
    count: u32,
    /// How many zero rows that follow each other are noted.
    least: u32,
}

/// Returns whether all bytes are 0.
pub(crate) fn are_zero(bytes: &[u8]) -> bool
    ensures { result ≡ are_zero bytes.now }
{
    for byte in bytes {
        if *byte != 0 {
            return false;
        }
    }
    true
}

/// Hands the notes on zero rows of the tables of a loader section to a sink.
#[tactic(auto, unfolding(crate::specs::Zeros::zero_notes))]
pub(crate) fn find_zero_rows<S: Findings>(
    container: &PartialContainer<'_>,
    loader: &PartialLoader<'_>,
    sink: &mut S,
) -> Result<(), S::Error>
    requires { partly loader.now.container ≡ partly container.now }
    ensures { OnOk result (S.taken sink.new ≡ S.taken sink.old ++ zero_notes (partly container.now) (partly_loaded loader.now)) }
{
    find_in_table(container, loader, libraries(loader), sink)?;
    find_in_table(container, loader, imports(loader), sink)?;
    find_in_table(container, loader, relocations(loader), sink)?;
    find_in_table(container, loader, exports(loader), sink)?;
    Ok(())
}

/// Returns the table of libraries.
fn libraries(loader: &PartialLoader<'_>) -> Table
    ensures { result ≡ libraries (partly_loaded loader.now) }
{
    Table {
        kind: Part::Library,
        size: LIBRARY_SIZE as u8,
        count: loader.libraries() as u32,
        least: NOTED_ROWS,
    }
}

/// Returns the table of imports.
fn imports(loader: &PartialLoader<'_>) -> Table
    ensures { result ≡ imports (partly_loaded loader.now) }
{
    Table {
        kind: Part::Import,
        size: IMPORT_SIZE as u8,
        count: loader.imports() as u32,
        least: NOTED_IMPORTS,
    }
}

/// Returns the table of relocation headers.
fn relocations(loader: &PartialLoader<'_>) -> Table
    ensures { result ≡ relocations (partly_loaded loader.now) }
{
    Table {
        kind: Part::Relocation,
        size: RELOCATION_HEADER_SIZE as u8,
        count: loader.relocations() as u32,
        least: NOTED_ROWS,
    }
}

/// Returns the table of exports.
fn exports(loader: &PartialLoader<'_>) -> Table
    ensures { result ≡ exports (partly_loaded loader.now) }
{
    Table {
        kind: Part::Export,
        size: EXPORT_SIZE as u8,
        count: loader.exports() as u32,
        least: NOTED_ROWS,
    }
}

/// Hands the notes on zero rows of a table to a sink.
fn find_in_table<S: Findings>(
    container: &PartialContainer<'_>,
    loader: &PartialLoader<'_>,
    table: Table,
    sink: &mut S,
) -> Result<(), S::Error>
    requires { partly loader.now.container ≡ partly container.now }
    ensures { OnOk result (S.taken sink.new ≡ S.taken sink.old ++ zero_rows (partly container.now) table) }
{
    let mut rows = ZeroRows {
        container,
        loader,
        table,
    };
    take_rows(&mut rows, table.count, sink)
}

/// The rows of a table that begin some zero rows.
#[derive(Clone, Copy)]
struct ZeroRows<'c, 'a> {
    container: &'c PartialContainer<'a>,
    loader: &'c PartialLoader<'a>,
    table: Table,
    ghost one: { partly loader.now.container ≡ partly container.now },
}

impl<'c, 'a> Rows for ZeroRows<'c, 'a> {
    ghost use Rattle.std.specs.Option.{option_to_list};
    ghost use Rattle.pef_views.specs.PartialViews.{partly};
    ghost use Rattle.pef_inspect.specs.Zeros.{zero_note};

    ghost found = { λ rows i. option_to_list (zero_note (partly rows.container.now) rows.table i) };

    fn take_row<S: Findings>(&mut self, i: u32, sink: &mut S) -> Result<(), S::Error> {
        take_some(zero_note(self.container, self.loader, self.table, i), sink)
    }
}

/// Returns the note on the zero rows that begin with row `i` of a table, if there are enough of them.
fn zero_note(
    container: &PartialContainer<'_>,
    loader: &PartialLoader<'_>,
    table: Table,
    i: u32,
) -> Option<Finding>
    requires { partly loader.now.container ≡ partly container.now }
    ensures { result ≡ zero_note (partly container.now) table i }
{
    if !starts_zeros(container, loader, table, i) {
        return None;
    }
    let rows = zeros_from(container, loader, table, i);
    many_zeros(container, table, i, rows)
}

/// Returns the note on so many zero rows, if they are enough.
fn many_zeros(container: &PartialContainer<'_>, table: Table, i: u32, rows: u32) -> Option<Finding>
    ensures { result ≡ many_zeros (partly container.now) table i rows }
{
    if rows < table.least {
        return None;
    }
    let length = usize::from(table.size) * rows as usize;
    Some(note_at(container, Note::ZeroRows { length }, table.kind, i, 0))
}

/// Returns whether row `i` of a table is zero bytes, and the row before it isn't.
fn starts_zeros(
    container: &PartialContainer<'_>,
    loader: &PartialLoader<'_>,
    table: Table,
    i: u32,
) -> bool
    requires { partly loader.now.container ≡ partly container.now }
    ensures { result ≡ starts_zeros (partly container.now) table i }
{
    is_zero_row(container, loader, table, i) && !follows_zero(container, loader, table, i)
}

/// Returns whether there is a row before row `i` of a table, and it is zero bytes.
fn follows_zero(
    container: &PartialContainer<'_>,
    loader: &PartialLoader<'_>,
    table: Table,
    i: u32,
) -> bool
    requires { partly loader.now.container ≡ partly container.now }
    ensures { result ≡ follows_zero (partly container.now) table i }
{
    i > 0 && is_zero_row(container, loader, table, i - 1)
}

/// Returns how many rows of a table are zero bytes from row `i` on, up to the first that isn't.
fn zeros_from(
    container: &PartialContainer<'_>,
    loader: &PartialLoader<'_>,
    table: Table,
    i: u32,
) -> u32
    requires { partly loader.now.container ≡ partly container.now }
    ensures { result ≡ zeros_from (partly container.now) table i (table.count - i) }
{
    for j in i..table.count {
        if !is_zero_row(container, loader, table, j) {
            return j - i;
        }
    }
    table.count.saturating_sub(i)
}

/// Returns whether row `i` of a table is zero bytes.
#[tactic(auto, unfolding(crate::specs::Zeros::is_zero_row))]
fn is_zero_row(
    container: &PartialContainer<'_>,
    loader: &PartialLoader<'_>,
    table: Table,
    i: u32,
) -> bool
    requires { partly loader.now.container ≡ partly container.now }
    ensures { result ≡ is_zero_row (partly container.now) table i }
{
    match loader.place(table.kind, i, 0).offset {
        Some(at) => are_zero_at(Cut::new(container.bytes()), at, usize::from(table.size)),
        None => false,
    }
}

/// Returns whether so many bytes from an offset on are there and are 0.
fn are_zero_at(bytes: Cut<'_>, at: usize, size: usize) -> bool
    ensures { result ≡ are_zero_at bytes.entry.bytes.now at size }
{
    match bytes.part(at, size) {
        Some(part) => are_zero(part.bytes()),
        None => false,
    }
}
