ghost use Rattle.std.specs.Prelude.{◌≡◌, ◌≢◌, ◌<◌, ℕ, Contains, IfSome, Ok, Some, false, true};
ghost use Rattle.std.specs.Option.{option_and_then};
ghost use Rattle.pef_loader.specs.Library.{Library};
ghost use Rattle.pef_loader.specs.Loader.{library_of};
ghost use Rattle.cfm_closure.specs.Additions.{NamesLibrary};
ghost use Rattle.pef_views.specs.Views.{contained};
ghost use Rattle.pef_loader.specs.Views.{loaded};
ghost use Rattle.cfm_closure.specs.Fragments.{container_at, import_count, library_count, loader_at};
ghost use Rattle.cfm_closure.specs.Libraries.{bound_to};
ghost use Rattle.cfm_closure.specs.Orders.{IsComplete};
ghost use Rattle.cfm_closure.specs.Promises.{LiesInside};
ghost use Rattle.cfm_store.specs.Stores.{pair_of};
ghost use Rattle.cfm_closure.specs.Targets.{target_of};

use crate::bindings::Bindings;
use crate::targets::Target;
use pef_loader::Loader;
use pef_views::Container;
use std::fmt;
use std::marker::Model;

/// The closure of a fragment: the fragment and all that it needs, with the targets of its imports and the
/// order in which its fragments are initialized.
///
/// Fragments are given by their places in the store. The views are slices of the store's bytes, and live as
/// long as those. No call allocates.
#[derive(Drop)]
pub struct Closure<'a> {
    pub(crate) bindings: Bindings<'a>,
    pub(crate) init_order: Vec<usize>,
}

impl<'a> Model for Closure<'a> {
    ghost use Rattle.cfm_closure.specs.Closures.{Closed};

    ghost Value = { Closed };

    ghost use Rattle.cfm_closure.specs.Kept.Targets.{AreResolved};

    ghost view = { λ c. record { pairs = c.bindings.pairs; order = c.bindings.order; init_order = c.init_order.items } };

    ghost invariant = { λ c. AreResolved c.bindings };
}

impl fmt::Debug for Closure<'_> {
    fn fmt<W: fmt::Write>(&self, f: &mut fmt::Formatter<W>) -> fmt::Result {
        f.debug_struct("Closure")
            .field("order", &self.bindings.order())
            .field("init_order", &self.init_order)
            .finish()
    }
}

impl<'a> Closure<'a> {
    /// Returns the fragments, each once: libraries before the fragments that need them, except in cycles,
    /// and the fragment itself last.
    pub fn order(&self) -> &[usize]
        ensures order { result.now ≡ self.now.order }
        ensures complete { IsComplete self.now.pairs self.now.order }
    {
        self.bindings.order()
    }

    /// Returns the fragments in the order in which they are initialized.
    pub fn init_order(&self) -> &[usize]
        ensures { result.now ≡ self.now.init_order }
    {
        &self.init_order
    }

    /// Returns the name of a fragment of the closure.
    pub fn name(&self, p: usize) -> &'a [u8]
        requires { Contains self.now.order p }
        ensures { result.now ≡ (pair_of self.now.pairs p).name }
    {
        self.bindings.fragment(p).name
    }

    /// Returns the container of a fragment of the closure.
    pub fn container(&self, p: usize) -> Container<'a>
        requires { Contains self.now.order p }
        ensures { container_at self.now.pairs p ≡ Some (contained result) }
    {
        self.bindings.fragment(p).container
    }

    /// Returns the loader section of a fragment of the closure.
    pub fn loader(&self, p: usize) -> Loader<'a>
        requires { Contains self.now.order p }
        ensures { loader_at self.now.pairs p ≡ Some (loaded result) }
    {
        self.bindings.fragment(p).loader
    }

    /// Returns the fragment that library entry `l` of a fragment of the closure means, or `None` if it is
    /// absent.
    pub fn library(&self, p: usize, l: usize) -> Option<usize>
        requires there { Contains self.now.order p }
        requires below { l < library_count self.now.pairs p }
        ensures bound { bound_to self.now.pairs p l ≡ Ok result }
        ensures inside { IfSome result (λ q. Contains self.now.order q) }
    {
        self.bindings.library(p, l)
    }

    /// Returns the target of an import of a fragment of the closure, through all exports that pass it on.
    /// `None` means the address 0: the library is absent, or a weak import's symbol is missing. If the
    /// target is a place, it is in an instantiated section of a fragment of the closure.
    pub fn target(&self, p: usize, import: usize) -> Option<Target>
        requires there { Contains self.now.order p }
        requires below { import < import_count self.now.pairs p }
        ensures target { target_of self.now.pairs p import ≡ Ok result }
        ensures inside { LiesInside self.now.pairs self.now.order result }
    {
        match self.bindings.target(p, import) {
            Some(resolution) => resolution.target(),
            None => unreachable!(),
        }
    }

    /// Returns whether a fragment of the closure has a library entry with a name.
    pub fn names_library(&self, name: &[u8]) -> bool
        ensures yes { result ≡ true → NamesLibrary self.now.pairs self.now.order name.now }
        ensures no { result ≡ false → NamesLibrary self.now.pairs self.now.order name.now → ⊥ }
    {
        for p in self.bindings.order() {
            if self.fragment_names(*p, name) {
                return true;
            }
        }
        false
    }

    /// Returns whether this fragment of the closure has a library entry with a name.
    fn fragment_names(&self, p: usize, name: &[u8]) -> bool
        requires { Contains self.now.order p }
        ensures yes { result ≡ true → NamesLibrary self.now.pairs self.now.order name.now }
        ensures no { result ≡ false → (l : ℕ) (library : Library) → option_and_then (λ x. library_of x l) (loader_at self.now.pairs p) ≡ Some library → library.name ≢ name.now }
    {
        self.bindings.fragment(p).names_library(name)
    }
}
