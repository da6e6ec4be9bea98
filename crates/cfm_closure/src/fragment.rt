ghost use Rattle.std.specs.Prelude.{◌≡◌, ◌≢◌, ◌<◌, ◌≤◌, ℕ, true, false, length, IfOk, Some};
ghost use Rattle.pef_loader.specs.Library.{Library};
ghost use Rattle.pef_loader.specs.Loader.{library_of};
ghost use Rattle.pef_loader.specs.Views.{loaded};
ghost use Rattle.pef_format.specs.declared.place.Part.TheVariants.{Import as ImportPart, Library as LibraryPart};
ghost use Rattle.cfm_closure.specs.Faults.{Answers};
ghost use Rattle.cfm_closure.specs.Fragments.{fragment_of, part_place};
ghost use Rattle.cfm_closure.specs.Kept.Entries.{HasEntry};
ghost use Rattle.cfm_closure.specs.Kept.Removal.{IsUnmarked, NamesNone};
ghost use Rattle.cfm_closure.specs.Kept.Views.{AreKept, AreRead, fragment_at};
ghost use Rattle.cfm_closure.specs.Views.{fragment_seen};

use crate::fault::BindFault;
use crate::libraries::Libraries;
use crate::removal::is_marked;
use crate::targets::Targets;
use cfm_store::{PlaceTable, Store};
use pef_format::{Part, Place};
use pef_loader::{Loader, place_in};
use pef_views::Container;

/// A fragment of a store: its name, its container and its loader section, seen in place.
#[derive(Clone, Copy, Debug)]
pub(crate) struct FragmentView<'a> {
    pub name: &'a [u8],
    pub container: Container<'a>,
    pub loader: Loader<'a>,
}

/// A fragment of a closure order.
#[derive(Drop)]
pub(crate) struct ClosedFragment<'a> {
    pub view: FragmentView<'a>,
    /// The fragments of its library entries.
    pub libraries: Libraries,
    /// The targets of its imports, as far as they are known.
    pub targets: Targets,
}

impl<'a> FragmentView<'a> {
    /// Reads the fragment in a place of a store.
    #[tactic(auto, unfolding(crate::specs::Fragments::fragment_of))]
    fn read(store: &Store<'a>, p: usize) -> Result<FragmentView<'a>, BindFault<'a>>
        requires { p < length store.now }
        ensures { Answers fragment_seen result (fragment_of store.now p) }
    {
        let (fragment, bytes) = store.at(p);
        let container = match Container::read(bytes) {
            Ok(container) => container,
            Err(fault) => return Err(BindFault::Container { fragment, fault }),
        };
        match Loader::read(&container) {
            Ok(loader) => Ok(FragmentView {
                name: fragment,
                container,
                loader,
            }),
            Err(fault) => Err(BindFault::Loader {
                fragment,
                fault,
                place: fault.place(&container),
            }),
        }
    }

    /// Returns whether it has a library entry with a name.
    pub fn names_library(&self, name: &[u8]) -> bool
        ensures yes { result ≡ true → HasEntry (loaded self.now.loader) name.now }
        ensures no { result ≡ false → (l : ℕ) (library : Library) → library_of (loaded self.now.loader) l ≡ Some library → library.name ≢ name.now }
    {
        for l in 0..self.loader.libraries() {
            if let Some(library) = self.loader.library(l) {
                if library.name == name {
                    return true;
                }
            }
        }
        false
    }

    /// Returns whether it has a library entry with the name of a fragment that is marked.
    pub fn names_marked(&self, store: &Store<'a>, marks: &[bool]) -> bool
        requires { length marks.now ≡ length store.now }
        ensures { result ≡ false → NamesNone store.now marks.now (Some (loaded self.now.loader)) }
    {
        for l in 0..self.loader.libraries() {
            if self.entry_is_marked(store, marks, l) {
                return true;
            }
        }
        false
    }

    /// Returns whether library entry `l` has the name of a fragment that is marked.
    fn entry_is_marked(&self, store: &Store<'a>, marks: &[bool], l: usize) -> bool
        requires { length marks.now ≡ length store.now }
        ensures { result ≡ false → (library : Library) → library_of (loaded self.now.loader) l ≡ Some library → IsUnmarked store.now marks.now library.name }
    {
        match self.loader.library(l) {
            Some(library) => is_marked(store, marks, library.name),
            None => false,
        }
    }

    /// Returns the place of a field of library entry `l`.
    #[tactic(auto, unfolding(crate::specs::Fragments::part_place))]
    pub fn library_place(&self, l: usize, field: usize) -> Place
        requires { l ≤ (fragment_seen self.now).loader.header.library_count }
        ensures { result ≡ part_place (fragment_seen self.now) LibraryPart l field }
    {
        prove!(l <= self.loader.libraries());
        place_in(&self.container, Part::Library, l as u32, field)
    }

    /// Returns the place of import `j`.
    #[tactic(auto, unfolding(crate::specs::Fragments::part_place))]
    pub fn import_place(&self, j: usize) -> Place
        requires { j < (fragment_seen self.now).loader.header.import_count }
        ensures { result ≡ part_place (fragment_seen self.now) ImportPart j 0 }
    {
        prove!(j < self.loader.imports());
        place_in(&self.container, Part::Import, j as u32, 0)
    }
}

/// Returns the fragment in a place of a store. It is read once, and kept in a table.
pub(crate) fn read_at<'a>(
    store: &Store<'a>,
    fragments: &mut PlaceTable<FragmentView<'a>>,
    p: usize,
) -> Result<FragmentView<'a>, BindFault<'a>>
    requires place { p < length store.now }
    requires size { length fragments.old ≡ length store.now }
    requires read { AreRead store.now fragments.old }
    ensures answer { Answers fragment_seen result (fragment_of store.now p) }
    ensures size { length fragments.new ≡ length store.now }
    ensures read { AreRead store.now fragments.new }
    ensures kept { AreKept fragments.old fragments.new }
    ensures here { IfOk result (λ f. fragment_at fragments.new p ≡ Some (fragment_seen f)) }
{
    if let Some(fragment) = fragments.get(p) {
        return Ok(*fragment);
    }
    let fragment = FragmentView::read(store, p)?;
    fragments.put(p, fragment)?;
    Ok(fragment)
}
