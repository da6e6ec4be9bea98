ghost use Rattle.std.specs.Prelude.{◌≡◌, Contains, IsTrue, None, Some, if◌then◌else◌, nat_lt};
ghost use Rattle.pef_loader.specs.Export.{is_there};
ghost use Rattle.pef_loader.specs.Views.{loaded};
ghost use Rattle.cfm_closure.specs.Fragments.{import_count, loader_at};
ghost use Rattle.cfm_prepare.specs.Kept.Connections.{AreOfClosure};
ghost use Rattle.cfm_prepare.specs.Lists.{IsOnce, has};
ghost use Rattle.cfm_prepare.specs.Readers.{entries_of, export_address, export_at, import_at, import_target_of, main_address, numbered_export, section_header_of, symbol_address, symbol_at, symbol_of};

use crate::fragments::Fragments;
use crate::imports::ImportTarget;
use cfm_closure::Closure;
use cfm_sections::{Entries, find_entries, section_address};
use pef_format::ExportValue;
use pef_loader::Loader;
use pef_views::SectionHeader;
use std::marker::Model;

/// An open connection.
#[derive(Drop)]
pub(crate) struct OpenConnection<'a> {
    number: u32,
    root: usize,
    closure: Closure<'a>,
    /// The fragments that its preparation placed, in the order of their initialization.
    placed: Vec<usize>,
}

impl<'a> Model for OpenConnection<'a> {
    ghost use Rattle.cfm_prepare.specs.Contexts.{Open};

    ghost Value = { Open };

    ghost use Rattle.std.specs.Prelude.{Contains};
    ghost use Rattle.cfm_prepare.specs.Kept.Connections.{AreOfClosure};
    ghost use Rattle.cfm_prepare.specs.Lists.{IsOnce};

    ghost view = { λ c. record { number = c.number; root = c.root; closed = c.closure; placed = c.placed.items } };

    ghost invariant = { λ c. Contains c.closure.order c.root × IsOnce c.closure.order × AreOfClosure c.closure };
}

impl<'a> OpenConnection<'a> {
    pub fn new(
        number: u32,
        root: usize,
        closure: Closure<'a>,
        placed: Vec<usize>,
    ) -> OpenConnection<'a>
        requires root { Contains closure.order root }
        requires once { IsOnce closure.order }
        requires init { AreOfClosure closure }
        ensures { result ≡ record { number = number; root = root; closed = closure.entry; placed = placed.items } }
    {
        OpenConnection {
            number,
            root,
            closure,
            placed,
        }
    }

    pub fn number(&self) -> u32
        ensures { result ≡ self.now.number }
    {
        self.number
    }

    pub fn root(&self) -> usize
        ensures { result ≡ self.now.root }
    {
        self.root
    }

    /// Returns the fragments that its preparation placed, in the order of their initialization.
    pub fn placed(&self) -> &[usize]
        ensures { result.now ≡ self.now.placed }
    {
        &self.placed
    }

    pub fn closure(&self) -> &Closure<'a>
        ensures closure { result.now ≡ self.now.closed }
        ensures once { IsOnce self.now.closed.order }
        ensures init { AreOfClosure self.now.closed }
    {
        &self.closure
    }

    /// Returns the address of the root's first export of a name.
    pub fn root_symbol(&self, fragments: &Fragments, name: &[u8]) -> Option<u32>
        ensures { result ≡ symbol_address fragments.now.present self.now name.now }
    {
        self.symbol_at(fragments, self.root, name)
    }

    /// Returns the address of the first export of a name, of a fragment. `None` if the closure lacks the
    /// fragment.
    pub fn symbol(&self, fragments: &Fragments, position: usize, name: &[u8]) -> Option<u32>
        ensures { result ≡ symbol_of fragments.now.present self.now position name.now }
    {
        if !has(self.closure.order(), position) {
            return None;
        }
        self.symbol_at(fragments, position, name)
    }

    /// Returns the address of the first export of a name, of a fragment that the closure has.
    #[tactic(auto, unfolding(crate::specs::Readers::symbol_at))]
    fn symbol_at(&self, fragments: &Fragments, position: usize, name: &[u8]) -> Option<u32>
        requires { Contains self.now.closed.order position }
        ensures { result ≡ symbol_at self.now.closed.pairs fragments.now.present position name.now }
    {
        let loader = self.closure.loader(position);
        let index = loader.export_named(name)?;
        let export = loader.export(index)?;
        Some(self.export_address(fragments, position, &loader, export.fields.value()))
    }

    /// Returns the address of export `number` of a fragment. `None` if the closure lacks the fragment.
    pub fn numbered_export(
        &self,
        fragments: &Fragments,
        position: usize,
        number: usize,
    ) -> Option<u32>
        ensures { result ≡ numbered_export fragments.now.present self.now position number }
    {
        if !has(self.closure.order(), position) {
            return None;
        }
        self.export_at(fragments, position, number)
    }

    /// Returns the address of export `number` of a fragment that the closure has.
    fn export_at(&self, fragments: &Fragments, position: usize, number: usize) -> Option<u32>
        requires { Contains self.now.closed.order position }
        ensures { result ≡ export_at self.now.closed.pairs fragments.now.present position number }
    {
        let loader = self.closure.loader(position);
        let export = loader.export(number)?;
        Some(self.export_address(fragments, position, &loader, export.fields.value()))
    }

    /// Returns what import `number` of a fragment means. `None` if the closure lacks the fragment.
    pub fn import_target(
        &self,
        fragments: &Fragments,
        position: usize,
        number: usize,
    ) -> Option<ImportTarget>
        ensures { result ≡ import_target_of fragments.now.present self.now position number }
    {
        if !has(self.closure.order(), position) {
            return None;
        }
        self.import_at(fragments, position, number)
    }

    /// Returns what import `number` of a fragment that the closure has means.
    fn import_at(
        &self,
        fragments: &Fragments,
        position: usize,
        number: usize,
    ) -> Option<ImportTarget>
        requires { Contains self.now.closed.order position }
        ensures { result ≡ (if nat_lt number (import_count self.now.closed.pairs position) then Some (import_at self.now.closed.pairs fragments.now.present position number) else None) }
    {
        if number >= self.closure.loader(position).imports() {
            return None;
        }
        let target = self.closure.target(position, number);
        let address = fragments.target_address(target);
        Some(ImportTarget { target, address })
    }

    /// Returns the address of an export of a fragment that the closure has.
    fn export_address(
        &self,
        fragments: &Fragments,
        position: usize,
        loader: &Loader<'_>,
        value: ExportValue,
    ) -> u32
        requires place { Contains self.now.closed.order position }
        requires loader { loader_at self.now.closed.pairs position ≡ Some (loaded loader.now) }
        requires there { IsTrue (is_there (loaded loader.now).header (loaded loader.now).sections value) }
        ensures { result ≡ export_address self.now.closed.pairs fragments.now.present position value }
    {
        match value {
            ExportValue::InSection { section, offset } => {
                let places = fragments.places(position);
                section_address(places, section).wrapping_add(offset)
            }
            ExportValue::Absolute(number) => number,
            ExportValue::Reexport { import } => {
                let target = self.closure.target(position, import as usize);
                fragments.target_address(target)
            }
        }
    }

    /// Returns the header of section `i` in the container of a fragment of the closure.
    pub fn section_header(&self, position: usize, i: usize) -> Option<SectionHeader>
        ensures { result ≡ section_header_of self.now position i }
    {
        if !has(self.closure.order(), position) {
            return None;
        }
        let section = self.closure.container(position).section(i)?;
        Some(section.header)
    }

    /// Returns the address of the root's main entry.
    pub fn main(&self, fragments: &Fragments) -> Option<u32>
        ensures { result ≡ main_address fragments.now.present self.now }
    {
        let loader = self.closure.loader(self.root);
        find_entries(&loader, fragments.places(self.root)).main
    }

    /// Returns the addresses of the entry points of a fragment of the closure.
    pub fn entries(&self, fragments: &Fragments, position: usize) -> Option<Entries>
        ensures { result ≡ entries_of fragments.now.present self.now position }
    {
        if !has(self.closure.order(), position) {
            return None;
        }
        let loader = self.closure.loader(position);
        Some(find_entries(&loader, fragments.places(position)))
    }
}

/// Returns whether a list has a number.
pub(crate) fn has(numbers: &[usize], number: usize) -> bool
    ensures { result ≡ has numbers.now number }
{
    for other in numbers {
        if *other == number {
            return true;
        }
    }
    false
}
