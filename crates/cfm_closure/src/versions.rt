ghost use Rattle.std.specs.Prelude.{◌≡◌};
ghost use Rattle.cfm_closure.specs.Versions.{fit_of};

/// The versions of the library that a fragment was linked with, from the fragment's entry of that
/// library (PEFImportedLibrary).
#[derive(Clone, Copy, Debug, PartialEq, Eq)]
pub struct Definition {
    pub current: u32,
    /// The oldest implementation that the fragment accepts.
    pub old_imp: u32,
}

/// The versions of the library that was found, from its container (PEFContainerHeader).
#[derive(Clone, Copy, Debug, PartialEq, Eq)]
pub struct Implementation {
    pub current: u32,
    /// The oldest definition that the library still serves.
    pub old_def: u32,
}

/// Whether an implementation serves a definition.
#[derive(Clone, Copy, Debug, PartialEq, Eq)]
pub enum Fit {
    Fits,
    /// The implementation is older than the definition accepts.
    TooOld,
    /// The implementation no longer serves so old a definition.
    TooNew,
}

/// Returns whether the library that was found serves a fragment that was linked with the other one.
///
/// Equal current versions fit. If the definition is newer, its oldest supported implementation version
/// decides. If it is older, the implementation's oldest supported definition version decides. Versions
/// are unsigned.
pub fn versions_fit(definition: Definition, implementation: Implementation) -> Fit
    ensures { result ≡ fit_of definition implementation }
{
    if definition.current == implementation.current {
        return Fit::Fits;
    }
    if definition.current > implementation.current {
        if definition.old_imp <= implementation.current {
            return Fit::Fits;
        }
        return Fit::TooOld;
    }
    if implementation.old_def <= definition.current {
        return Fit::Fits;
    }
    Fit::TooNew
}
