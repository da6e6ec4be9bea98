ghost use Rattle.std.specs.Prelude.{◌≡◌, ◌<◌, [], length, None, IfOk, IfSome};
ghost use Rattle.pef_loader.specs.Views.{library_seen};
ghost use Rattle.cfm_closure.specs.Faults.{Answers};
ghost use Rattle.cfm_closure.specs.Kept.Views.{AreKept, AreRead};
ghost use Rattle.cfm_closure.specs.Views.{fragment_seen};
ghost use Rattle.cfm_closure.specs.Libraries.{bound, bound_at, bound_by, definition_of, fit_with, implementation_of};

use crate::fault::BindFault;
use crate::fragment::{FragmentView, read_at};
use crate::versions::{Definition, Fit, Implementation, versions_fit};
use cfm_store::{PlaceTable, Store};
use pef_format::layout::{LIBRARY_NAME_OFFSET_AT, LIBRARY_OLD_IMP_VERSION_AT};
use pef_loader::LibraryView;

/// Returns the versions of the library that a fragment was linked with.
pub(crate) fn definition_of(library: LibraryView<'_>) -> Definition
    ensures { result ≡ definition_of (library_seen library.entry) }
{
    Definition {
        current: library.fields.current,
        old_imp: library.fields.old_imp,
    }
}

/// Returns the versions of a fragment that was found.
pub(crate) fn implementation_of(found: FragmentView<'_>) -> Implementation
    ensures { result ≡ implementation_of (fragment_seen found.entry) }
{
    let header = found.container.header();
    Implementation {
        current: header.current_version,
        old_def: header.old_def_version,
    }
}

/// Returns `None` for a weak library that the store lacks: the library is absent. Any other is refused.
fn missing<'a>(
    fragment: &FragmentView<'a>,
    l: usize,
    library: LibraryView<'a>,
) -> Result<Option<usize>, BindFault<'a>>
    requires { l < (fragment_seen fragment.now).loader.header.library_count }
    ensures { Answers (λ q. q) result (bound_at [] (fragment_seen fragment.now) l (library_seen library.entry) None) }
{
    if library.fields.options().weak {
        return Ok(None);
    }
    Err(BindFault::LibraryMissing {
        fragment: fragment.name,
        library: library.name,
        place: fragment.library_place(l, LIBRARY_NAME_OFFSET_AT),
    })
}

/// Returns the place of the fragment that was found, if its versions serve the entry. If they don't, a weak library is
/// absent, and any other is refused.
fn by_versions<'a>(
    fragment: &FragmentView<'a>,
    l: usize,
    library: LibraryView<'a>,
    found: FragmentView<'a>,
    q: usize,
) -> Result<Option<usize>, BindFault<'a>>
    requires { l < (fragment_seen fragment.now).loader.header.library_count }
    ensures { Answers (λ q. q) result (bound_by (fit_with (library_seen library.entry) (fragment_seen found.entry)) (fragment_seen fragment.now) l (library_seen library.entry) (fragment_seen found.entry) q) }
{
    let needed = definition_of(library);
    let found = implementation_of(found);
    match versions_fit(needed, found) {
        Fit::Fits => Ok(Some(q)),
        _ if library.fields.options().weak => Ok(None),
        Fit::TooOld => Err(BindFault::ImplementationTooOld {
            fragment: fragment.name,
            library: library.name,
            place: fragment.library_place(l, LIBRARY_OLD_IMP_VERSION_AT),
            needed,
            found,
        }),
        Fit::TooNew => Err(BindFault::ImplementationTooNew {
            fragment: fragment.name,
            library: library.name,
            place: fragment.library_place(l, LIBRARY_OLD_IMP_VERSION_AT),
            needed,
            found,
        }),
    }
}

/// Returns the place of the fragment that library entry `l` of a fragment means, or `None` if it is absent.
#[tactic(auto, unfolding(crate::specs::Libraries::bound))]
pub(crate) fn bind<'a>(
    store: &Store<'a>,
    fragments: &mut PlaceTable<FragmentView<'a>>,
    fragment: &FragmentView<'a>,
    l: usize,
    library: LibraryView<'a>,
) -> Result<Option<usize>, BindFault<'a>>
    requires entry { l < (fragment_seen fragment.now).loader.header.library_count }
    requires size { length fragments.old ≡ length store.now }
    requires read { AreRead store.now fragments.old }
    ensures answer { Answers (λ q. q) result (bound store.now (fragment_seen fragment.now) l (library_seen library.entry)) }
    ensures below { IfOk result (λ bound. IfSome bound (λ q. q < length store.now)) }
    ensures size { length fragments.new ≡ length store.now }
    ensures read { AreRead store.now fragments.new }
    ensures kept { AreKept fragments.old fragments.new }
{
    match store.find(library.name) {
        Some(q) => {
            let found = read_at(store, fragments, q)?;
            by_versions(fragment, l, library, found, q)
        }
        None => missing(fragment, l, library),
    }
}
