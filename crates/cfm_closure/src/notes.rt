ghost use Rattle.std.specs.Prelude.{◌≡◌, ◌&&◌, [], map, not, IfErr, None, OnOk};
ghost use Rattle.cfm_closure.specs.declared.fault.BindFault.TheVariants.{OutOfMemory};
ghost use Rattle.cfm_closure.specs.Kept.Notes.{name_pair};
ghost use Rattle.cfm_closure.specs.Missing.{noted};
ghost use Rattle.cfm_store.specs.Stores.{place_of};
ghost use Rattle.cfm_closure.specs.Views.{missing_seen};

use crate::fault::BindFault;
use crate::missing::MissingLibrary;
use cfm_store::note_place;
use indexmap::IndexMap;
use pef_names::NameKey;
use std::alloc::Global;
use std::marker::Model;

/// Missing libraries, each name once.
#[derive(Drop)]
pub(crate) struct Notes<'a> {
    libraries: Vec<MissingLibrary<'a>>,
    /// The place of each name.
    places: IndexMap<NameKey<'a>, usize>,
}

impl<'a> Model for Notes<'a> {
    ghost use Rattle.std.specs.Prelude.{List};
    ghost use Rattle.cfm_closure.specs.Missing.{Missing};

    ghost Value = { List Missing };

    ghost use Rattle.std.specs.Prelude.{map};
    ghost use Rattle.cfm_closure.specs.Kept.Notes.{AreNamed};
    ghost use Rattle.cfm_closure.specs.Views.{missing_seen};

    ghost view = { λ s. map missing_seen s.libraries.items };

    ghost invariant = { λ s. AreNamed (map missing_seen s.libraries.items) s.places.entries };
}

/// Returns whether an entry replaces an earlier one with the same name: the earlier one is weak, and this
/// one isn't.
fn is_stricter(library: MissingLibrary<'_>, earlier: MissingLibrary<'_>) -> bool
    ensures { result ≡ (earlier.entry.weak && not library.entry.weak) }
{
    earlier.weak && !library.weak
}

impl<'a> Notes<'a> {
    pub fn new(alloc: Global) -> Notes<'a>
        ensures { result ≡ [] }
    {
        Notes {
            libraries: Vec::new(alloc),
            places: IndexMap::new(alloc),
        }
    }

    /// Notes an entry. If several have the same name, the first that isn't weak stays, or the first of all
    /// if each is weak.
    pub fn note(&mut self, library: MissingLibrary<'a>) -> Result<(), BindFault<'a>>
        ensures ok { OnOk result (self.new ≡ noted self.old (missing_seen library.entry)) }
        ensures err { IfErr result (λ e. e ≡ OutOfMemory) }
    {
        let key = NameKey {
            bytes: library.name,
        };
        let Some(at) = self.places.get(&key).copied() else {
            return self.append(library);
        };
        if !is_stricter(library, self.libraries[at]) {
            return Ok(());
        }
        self.libraries[at] = library;
        Ok(())
    }

    /// Notes an entry whose name isn't noted yet.
    fn append(&mut self, library: MissingLibrary<'a>) -> Result<(), BindFault<'a>>
        requires { place_of (map name_pair self.old) library.name.now ≡ None }
        ensures ok { OnOk result (self.new ≡ noted self.old (missing_seen library.entry)) }
        ensures err { IfErr result (λ e. e ≡ OutOfMemory) }
    {
        self.libraries.reserve(1)?;
        let place = self.libraries.len();
        note_place(&mut self.places, library.name, place)?;
        self.libraries.push(library)?;
        Ok(())
    }

    pub fn into_libraries(self) -> Vec<MissingLibrary<'a>>
        ensures { map missing_seen result.items ≡ self.entry }
    {
        self.libraries
    }
}
