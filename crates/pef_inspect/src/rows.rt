ghost use Rattle.std.specs.Prelude.{◌≡◌, ◌++◌, OnOk, map};
ghost use Rattle.pef_words.specs.Findings.{all_among};
ghost use Rattle.pef_views.specs.Partial as views;
ghost use Rattle.pef_views.specs.PartialViews.{partly};
ghost use Rattle.pef_loader.specs.Partial.{exports_findings, findings_in, imports_findings, libraries_findings, relocations_findings};
ghost use Rattle.pef_loader.specs.PartialViews.{partly_loaded};
ghost use Rattle.pef_inspect.specs.Findings.{loader_finding, view_finding};

use crate::sink::{Findings, Rows, take_rows};
use crate::tables::{take_faults, take_views};
use pef_loader::{PartialImports, PartialLoader};
use pef_views::PartialContainer;

/// The sections of a container.
#[derive(Clone, Copy)]
struct Sections<'c, 'a> {
    container: &'c PartialContainer<'a>,
}

impl<'c, 'a> Rows for Sections<'c, 'a> {
    ghost use Rattle.std.specs.Prelude.{map};
    ghost use Rattle.pef_views.specs.Partial.{section_findings};
    ghost use Rattle.pef_views.specs.PartialViews.{partly};
    ghost use Rattle.pef_inspect.specs.Findings.{view_finding};

    ghost found = { λ rows i. map view_finding (section_findings (partly rows.container.now) i) };

    fn take_row<S: Findings>(&mut self, i: u32, sink: &mut S) -> Result<(), S::Error> {
        match self.container.section_tests(i) {
            Some(tests) => take_views(&tests, sink),
            None => Ok(()),
        }
    }
}

/// Hands the errors of each section to a sink.
pub(crate) fn find_in_sections<S: Findings>(
    container: &PartialContainer<'_>,
    sink: &mut S,
) -> Result<(), S::Error>
    ensures { OnOk result (S.taken sink.new ≡ S.taken sink.old ++ all_among (λ i. map view_finding (views.section_findings (partly container.now) i)) 0 (partly container.now).header.section_count) }
{
    let count = u32::from(container.header().section_count);
    take_rows(&mut Sections { container }, count, sink)?;
    Ok(())
}

/// Hands the errors of a loader section to a sink, in order. The rows of a table are tested if the whole table is in the
/// section.
pub(crate) fn find_in_tables<S: Findings>(
    container: &PartialContainer<'_>,
    loader: &PartialLoader<'_>,
    sink: &mut S,
) -> Result<(), S::Error>
    ensures { OnOk result (S.taken sink.new ≡ S.taken sink.old ++ map (loader_finding (partly container.now)) (findings_in (partly_loaded loader.now))) }
{
    take_faults(container, &loader.table_tests(), sink)?;
    find_in_libraries(container, loader, sink)?;
    find_in_imports(container, loader, sink)?;
    take_faults(container, &loader.entry_tests(), sink)?;
    find_in_relocations(container, loader, sink)?;
    take_faults(container, &loader.export_table_tests(), sink)?;
    find_in_exports(container, loader, sink)?;
    Ok(())
}

/// The libraries of a loader section.
#[derive(Clone, Copy)]
struct Libraries<'c, 'a> {
    container: &'c PartialContainer<'a>,
    loader: &'c PartialLoader<'a>,
}

impl<'c, 'a> Rows for Libraries<'c, 'a> {
    ghost use Rattle.std.specs.Prelude.{map};
    ghost use Rattle.pef_views.specs.PartialViews.{partly};
    ghost use Rattle.pef_loader.specs.Partial.{library_findings};
    ghost use Rattle.pef_loader.specs.PartialViews.{partly_loaded};
    ghost use Rattle.pef_inspect.specs.Findings.{loader_finding};

    ghost found = { λ rows i. map (loader_finding (partly rows.container.now)) (library_findings (partly_loaded rows.loader.now) i) };

    fn take_row<S: Findings>(&mut self, i: u32, sink: &mut S) -> Result<(), S::Error> {
        match self.loader.library_tests(i) {
            Some(tests) => take_faults(self.container, &tests, sink),
            None => Ok(()),
        }
    }
}

fn find_in_libraries<S: Findings>(
    container: &PartialContainer<'_>,
    loader: &PartialLoader<'_>,
    sink: &mut S,
) -> Result<(), S::Error>
    ensures { OnOk result (S.taken sink.new ≡ S.taken sink.old ++ map (loader_finding (partly container.now)) (libraries_findings (partly_loaded loader.now))) }
{
    if !loader.has_libraries() {
        return Ok(());
    }
    let count = loader.header().library_count;
    take_rows(&mut Libraries { container, loader }, count, sink)?;
    Ok(())
}

/// The imports of a loader section.
#[derive(Drop)]
struct Imports<'c, 'a> {
    container: &'c PartialContainer<'a>,
    imports: PartialImports<'a>,
}

impl<'c, 'a> Rows for Imports<'c, 'a> {
    ghost use Rattle.std.specs.Prelude.{map};
    ghost use Rattle.pef_views.specs.PartialViews.{partly};
    ghost use Rattle.pef_loader.specs.Partial.{import_findings};
    ghost use Rattle.pef_loader.specs.PartialViews.{partly_loaded};
    ghost use Rattle.pef_inspect.specs.Findings.{loader_finding};

    ghost found = { λ rows i. map (loader_finding (partly rows.container.now)) (import_findings (partly_loaded rows.imports.loader) i) };

    fn take_row<S: Findings>(&mut self, i: u32, sink: &mut S) -> Result<(), S::Error> {
        match self.imports.tests(i) {
            Some(tests) => take_faults(self.container, &tests, sink),
            None => Ok(()),
        }
    }
}

fn find_in_imports<S: Findings>(
    container: &PartialContainer<'_>,
    loader: &PartialLoader<'_>,
    sink: &mut S,
) -> Result<(), S::Error>
    ensures { OnOk result (S.taken sink.new ≡ S.taken sink.old ++ map (loader_finding (partly container.now)) (imports_findings (partly_loaded loader.now))) }
{
    if !loader.has_imports() {
        return Ok(());
    }
    let count = loader.header().import_count;
    let mut rows = Imports {
        container,
        imports: PartialImports::new(*loader),
    };
    take_rows(&mut rows, count, sink)?;
    Ok(())
}

/// The relocation headers of a loader section.
#[derive(Clone, Copy)]
struct Relocations<'c, 'a> {
    container: &'c PartialContainer<'a>,
    loader: &'c PartialLoader<'a>,
}

impl<'c, 'a> Rows for Relocations<'c, 'a> {
    ghost use Rattle.std.specs.Prelude.{map};
    ghost use Rattle.pef_views.specs.PartialViews.{partly};
    ghost use Rattle.pef_loader.specs.Partial.{relocation_findings};
    ghost use Rattle.pef_loader.specs.PartialViews.{partly_loaded};
    ghost use Rattle.pef_inspect.specs.Findings.{loader_finding};

    ghost found = { λ rows i. map (loader_finding (partly rows.container.now)) (relocation_findings (partly_loaded rows.loader.now) i) };

    fn take_row<S: Findings>(&mut self, i: u32, sink: &mut S) -> Result<(), S::Error> {
        match self.loader.relocation_tests(i) {
            Some(tests) => take_faults(self.container, &tests, sink),
            None => Ok(()),
        }
    }
}

fn find_in_relocations<S: Findings>(
    container: &PartialContainer<'_>,
    loader: &PartialLoader<'_>,
    sink: &mut S,
) -> Result<(), S::Error>
    ensures { OnOk result (S.taken sink.new ≡ S.taken sink.old ++ map (loader_finding (partly container.now)) (relocations_findings (partly_loaded loader.now))) }
{
    if !loader.has_relocations() {
        return Ok(());
    }
    let count = loader.header().reloc_count;
    take_rows(&mut Relocations { container, loader }, count, sink)?;
    Ok(())
}

/// The exports of a loader section.
#[derive(Clone, Copy)]
struct Exported<'c, 'a> {
    container: &'c PartialContainer<'a>,
    loader: &'c PartialLoader<'a>,
}

impl<'c, 'a> Rows for Exported<'c, 'a> {
    ghost use Rattle.std.specs.Prelude.{map};
    ghost use Rattle.pef_views.specs.PartialViews.{partly};
    ghost use Rattle.pef_loader.specs.Partial.{export_findings, if_whole};
    ghost use Rattle.pef_loader.specs.Export.{has_exports};
    ghost use Rattle.pef_loader.specs.PartialViews.{partly_loaded};
    ghost use Rattle.pef_inspect.specs.Findings.{loader_finding};

    ghost found = { λ rows i. map (loader_finding (partly rows.container.now)) (if_whole (has_exports (partly_loaded rows.loader.now).bytes (partly_loaded rows.loader.now).header) (export_findings (partly_loaded rows.loader.now) i)) };

    fn take_row<S: Findings>(&mut self, i: u32, sink: &mut S) -> Result<(), S::Error> {
        if !self.loader.has_exports() {
            return Ok(());
        }
        match self.loader.export_tests(i) {
            Some(tests) => take_faults(self.container, &tests, sink),
            None => Ok(()),
        }
    }
}

fn find_in_exports<S: Findings>(
    container: &PartialContainer<'_>,
    loader: &PartialLoader<'_>,
    sink: &mut S,
) -> Result<(), S::Error>
    ensures { OnOk result (S.taken sink.new ≡ S.taken sink.old ++ map (loader_finding (partly container.now)) (exports_findings (partly_loaded loader.now))) }
{
    if !loader.has_exports() {
        return Ok(());
    }
    let count = loader.header().export_count;
    take_rows(&mut Exported { container, loader }, count, sink)?;
    Ok(())
}
