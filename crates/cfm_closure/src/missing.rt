ghost use Rattle.std.specs.Prelude.{◌≡◌, length, IfOk};
ghost use Rattle.pef_loader.specs.Views.{library_seen};
ghost use Rattle.cfm_closure.specs.Faults.{Answers};
ghost use Rattle.cfm_closure.specs.Kept.Searches.{IsServedBelow};
ghost use Rattle.cfm_closure.specs.Kept.Views.{AreRead};
ghost use Rattle.cfm_closure.specs.Missing.{serving};

use crate::binding::{definition_of, implementation_of};
use crate::fault::BindFault;
use crate::fragment::{FragmentView, read_at};
use crate::versions::{Definition, Fit, Implementation, versions_fit};
use cfm_store::{PlaceTable, Store};
use pef_loader::LibraryView;

/// A library that a fragment names, and that no fragment of the store serves.
#[derive(Clone, Copy, Debug, PartialEq, Eq)]
pub struct MissingLibrary<'a> {
    pub name: &'a [u8],
    /// The versions of the library that the fragment was linked with.
    pub needed: Definition,
    /// The versions of the store's first fragment with this name, which don't fit. `None` if there is no such fragment.
    pub found: Option<Implementation>,
    /// Whether the fragment can be prepared without it.
    pub weak: bool,
    /// The fragment that names the library, by its place in the store.
    pub fragment: usize,
}

/// What serves a library entry.
#[derive(Clone, Copy)]
pub(crate) enum Served {
    /// The fragment in this place.
    By(usize),
    /// No fragment. The one with the library's name, if there is one, has these versions.
    ByNone(Option<Implementation>),
}

/// Returns what serves a library entry: the first fragment with its name, if its versions fit.
#[tactic(auto, unfolding(crate::specs::Missing::serving))]
pub(crate) fn look_up<'a>(
    store: &Store<'a>,
    fragments: &mut PlaceTable<FragmentView<'a>>,
    library: LibraryView<'a>,
) -> Result<Served, BindFault<'a>>
    requires size { length fragments.old ≡ length store.now }
    requires read { AreRead store.now fragments.old }
    ensures answer { Answers (λ served. served) result (serving store.now (library_seen library.entry)) }
    ensures below { IfOk result (IsServedBelow (length store.now)) }
    ensures size { length fragments.new ≡ length store.now }
    ensures read { AreRead store.now fragments.new }
{
    let Some(q) = store.find(library.name) else {
        return Ok(Served::ByNone(None));
    };
    let fragment = read_at(store, fragments, q)?;
    let found = implementation_of(fragment);
    match versions_fit(definition_of(library), found) {
        Fit::Fits => Ok(Served::By(q)),
        Fit::TooOld => Ok(Served::ByNone(Some(found))),
        Fit::TooNew => Ok(Served::ByNone(Some(found))),
    }
}
