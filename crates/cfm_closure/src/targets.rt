ghost use Rattle.std.specs.Prelude.{◌≡◌, ◌<◌, ◌^◌, true, None, Some, length, option_map, replicate, slice_index_or, slice_set, IfOk, IfSome};
ghost use Rattle.cfm_closure.specs.declared.targets.Target.TheVariants.{Absolute, At};
ghost use Rattle.cfm_closure.specs.Kept.Resolutions.{meant};
ghost use Rattle.cfm_closure.specs.Kept.Targets.{AllKnown};

use std::alloc::{AllocError, Global};
use std::marker::Model;
use std::mem;
use std::sync::Arc;

/// The target of an import.
#[derive(Clone, Copy, Debug, PartialEq, Eq)]
pub enum Target {
    /// A number that no placement changes.
    Absolute(u32),

    /// A place in a section of a fragment.
    At {
        fragment: usize,
        section: u32,
        offset: u32,
    },
}

/// The kind of a resolution.
#[derive(Clone, Copy)]
pub(crate) enum ResolutionKind {
    /// No target: the import's library is absent, or it is weak and its symbol is missing.
    Missing,
    Absolute,
    InSection,
}

/// What an import was resolved to: its target, or none. A closure has one for each of its imports, so it takes
/// fewer bytes than an `Option<Target>`.
#[derive(Clone, Copy)]
pub(crate) struct Resolution {
    kind: ResolutionKind,
    fragment: u16,
    section: u32,
    /// The number or the offset.
    value: u32,
}

impl Resolution {
    /// Returns the resolution of an import without a target.
    pub fn missing() -> Resolution
        ensures { meant result ≡ None }
    {
        Resolution {
            kind: ResolutionKind::Missing,
            fragment: 0,
            section: 0,
            value: 0,
        }
    }

    /// Returns the resolution to a number.
    pub fn absolute(number: u32) -> Resolution
        ensures { meant result ≡ Some (Absolute number) }
    {
        Resolution {
            kind: ResolutionKind::Absolute,
            fragment: 0,
            section: 0,
            value: number,
        }
    }

    /// Returns the resolution to a place in a section.
    pub fn at(fragment: usize, section: u32, offset: u32) -> Resolution
        requires { fragment < 2 ^ 16 }
        ensures { meant result ≡ Some (At fragment section offset) }
    {
        Resolution {
            kind: ResolutionKind::InSection,
            fragment: fragment as u16,
            section,
            value: offset,
        }
    }

    pub fn target(self) -> Option<Target>
        ensures { result ≡ meant self }
    {
        match self.kind {
            ResolutionKind::Missing => None,
            ResolutionKind::Absolute => Some(Target::Absolute(self.value)),
            ResolutionKind::InSection => Some(Target::At {
                fragment: usize::from(self.fragment),
                section: self.section,
                offset: self.value,
            }),
        }
    }
}

/// The targets of the imports of a fragment, all known, which several closures share.
///
/// They are in an `Arc`, so that a closure may go to another thread.
#[derive(Drop)]
pub(crate) struct SharedTargets {
    known: Arc<Vec<Option<Resolution>>>,
}

impl Model for SharedTargets {
    ghost use Rattle.cfm_closure.specs.Kept.Targets.{Row};

    ghost Value = { Row };

    ghost use Rattle.std.specs.Arc.{arc_value};
    ghost use Rattle.cfm_closure.specs.Kept.Resolutions.{all_meant};

    ghost view = { λ t. all_meant (arc_value t.known).items };
}

impl SharedTargets {
    /// Returns another owner of these targets. They aren't copied.
    pub fn another(&self) -> Result<SharedTargets, AllocError>
        ensures { IfOk result (λ targets. targets ≡ self.now) }
    {
        Ok(SharedTargets {
            known: Arc::try_clone(&self.known)?,
        })
    }

    /// Returns the target of import `j`, if it is known.
    fn get(&self, j: usize) -> Option<Resolution>
        ensures { option_map meant result ≡ slice_index_or self.now j None }
    {
        known_at(&self.known, j)
    }
}

/// Where the targets of a closure's fragment are.
#[derive(Drop)]
pub(crate) enum TargetRow {
    /// In this closure alone, to be noted when they are found.
    Own(Vec<Option<Resolution>>),
    Shared(SharedTargets),
}

/// The targets of the imports of a fragment, as far as they are known.
#[derive(Drop)]
pub(crate) struct Targets {
    row: TargetRow,
}

impl Model for Targets {
    ghost use Rattle.cfm_closure.specs.Kept.Targets.{Row};

    ghost Value = { Row };

    ghost use Rattle.cfm_closure.specs.Kept.TargetRows.{IsTargetRow, row_seen};

    ghost view = { λ t. row_seen t.row };

    ghost invariant = { λ t. IsTargetRow t.row };
}

impl Targets {
    /// Returns `len` imports without known targets.
    pub fn unknown(alloc: Global, len: usize) -> Result<Targets, AllocError>
        ensures { IfOk result (λ targets. targets ≡ replicate len None) }
    {
        let known = vec![in alloc; None; len]?;
        Ok(Targets {
            row: TargetRow::Own(known),
        })
    }

    /// Returns targets that are shared. All must be known.
    pub fn shared(shared: SharedTargets) -> Targets
        requires { AllKnown shared }
        ensures { result ≡ shared }
    {
        Targets {
            row: TargetRow::Shared(shared),
        }
    }

    /// Returns whether the targets are shared. Then all are known.
    pub fn is_shared(&self) -> bool
        ensures { result ≡ true → AllKnown self.now }
    {
        matches!(self.row, TargetRow::Shared(_))
    }

    /// Returns the target of import `j`, if it is known.
    pub fn get(&self, j: usize) -> Option<Resolution>
        ensures { option_map meant result ≡ slice_index_or self.now j None }
    {
        match &self.row {
            TargetRow::Own(known) => known_at(known, j),
            TargetRow::Shared(shared) => shared.get(j),
        }
    }

    /// Notes the target of import `j`. If one is known, it is this one.
    pub fn note(&mut self, j: usize, resolution: Resolution)
        requires import { j < length self.old }
        requires right { IfSome (slice_index_or self.old j None) (λ known. known ≡ meant resolution) }
        ensures { self.new ≡ slice_set self.old j (Some (meant resolution)) }
    {
        let known = match &mut self.row {
            TargetRow::Own(known) => known,
            TargetRow::Shared(_) => return,
        };
        known[j] = Some(resolution);
    }

    /// Returns the targets, to be shared with other closures. All must be known. They aren't copied.
    ///
    /// # Errors
    ///
    /// `AllocError` if an allocation fails.
    pub fn share(&mut self, alloc: Global) -> Result<SharedTargets, AllocError>
        requires { AllKnown self.old }
        ensures shared { IfOk result (λ shared. shared ≡ self.old) }
        ensures same { self.new ≡ self.old }
    {
        let row = mem::replace(&mut self.row, TargetRow::Own(Vec::new(alloc)));
        let shared = match row {
            TargetRow::Shared(shared) => shared,
            TargetRow::Own(known) => match Arc::new(alloc, known) {
                Ok(known) => SharedTargets { known },
                Err(failed) => {
                    self.row = TargetRow::Own(failed.value);
                    return Err(AllocError);
                }
            },
        };
        let another = shared.another();
        self.row = TargetRow::Shared(shared);
        another
    }
}

/// Returns the target of import `j`, if it is known.
fn known_at(known: &[Option<Resolution>], j: usize) -> Option<Resolution>
    ensures { result ≡ slice_index_or known.now j None }
{
    *known.get(j)?
}
