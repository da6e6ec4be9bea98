ghost use Rattle.std.specs.Prelude.{ℕ, ◌<◌, ◌^◌, Contains, None, IfOk};
ghost use Rattle.pef_format.specs.Symbols.{import_seen};
ghost use Rattle.pef_format.specs.declared.place.Part.TheVariants.{Import};
ghost use Rattle.cfm_closure.specs.Fragments.{part_place};
ghost use Rattle.cfm_closure.specs.Views.{fragment_seen};
ghost use Rattle.cfm_closure.specs.Targets.{hop, hop_by, hop_to};
ghost use Rattle.cfm_closure.specs.Kept.Hops.{IsHop, LeadsTo, StaysInside};
ghost use Rattle.cfm_closure.specs.Kept.Names.{AreNamesOf};
ghost use Rattle.cfm_closure.specs.Kept.Symbols.{AreSymbolsOf};

use crate::bindings::Bindings;
use crate::export_names::ExportNames;
use crate::fault::BindFault;
use crate::fragment::FragmentView;
use crate::symbols::Symbols;
use crate::targets::Resolution;
use pef_format::{ExportValue, ImportView};

/// The next step from an import.
#[derive(Clone, Copy)]
pub(crate) enum Hop {
    /// The import has this target, or none.
    Ends(Resolution),

    /// The import has the target of an import of another fragment, which an export there passes on.
    Through { fragment: usize, import: usize },
}

/// Returns the next step by an export of a fragment: into a section, to an absolute value, or to the
/// import that it passes on.
fn export_hop(fragment: usize, value: ExportValue) -> Hop
    requires { fragment < 2 ^ 16 }
    ensures { (e : ℕ) → IsHop result (hop_by fragment e value) }
{
    match value {
        ExportValue::InSection { section, offset } => {
            Hop::Ends(Resolution::at(fragment, section, offset))
        }
        ExportValue::Absolute(number) => Hop::Ends(Resolution::absolute(number)),
        ExportValue::Reexport { import } => Hop::Through {
            fragment,
            import: import as usize,
        },
    }
}

/// Returns the next step from an import of a fragment of the closure order, or that its symbol is
/// missing.
#[tactic(auto, unfolding(crate::specs::Targets::hop))]
pub(crate) fn import_hop<'a>(
    bindings: &Bindings<'a>,
    symbols: &mut Symbols<'a>,
    names: &mut ExportNames<'a>,
    p: usize,
    j: usize,
) -> Result<Hop, BindFault<'a>>
    requires place { Contains bindings.now.order p }
    requires symbols { AreSymbolsOf bindings.now.pairs bindings.now.order symbols.old }
    requires names { AreNamesOf bindings.now.pairs bindings.now.order names.old }
    ensures symbols { AreSymbolsOf bindings.now.pairs bindings.now.order symbols.new }
    ensures names { AreNamesOf bindings.now.pairs bindings.now.order names.new }
    ensures answer { LeadsTo result (hop bindings.now.pairs p j) }
    ensures inside { IfOk result (λ h. StaysInside bindings.now.pairs bindings.now.order h) }
{
    let symbol = match symbols.import(bindings, p, j)? {
        Some(symbol) => symbol,
        None => return Ok(Hop::Ends(Resolution::missing())),
    };
    let q = match bindings.library(p, symbol.library) {
        Some(q) => q,
        None => return Ok(Hop::Ends(Resolution::missing())),
    };
    let library = bindings.fragment(q);
    let export = names.find(bindings, q, symbol.name)?;
    match export {
        Some(value) => Ok(export_hop(q, value)),
        None => missing(bindings.fragment(p), library.name, symbol, j),
    }
}

/// Returns no target for a weak import, whose symbol is missing. Any other import is refused.
fn missing<'a>(
    fragment: &FragmentView<'a>,
    library: &'a [u8],
    symbol: ImportView<'a>,
    j: usize,
) -> Result<Hop, BindFault<'a>>
    requires { j < (fragment_seen fragment.now).loader.header.import_count }
    ensures { LeadsTo result (hop_to fragment.now.name.now library.entry.now (part_place (fragment_seen fragment.now) Import j 0) (import_seen symbol.entry) 0 None) }
{
    if symbol.fields.weak {
        return Ok(Hop::Ends(Resolution::missing()));
    }
    Err(BindFault::SymbolMissing {
        fragment: fragment.name,
        library,
        symbol: symbol.name,
        place: fragment.import_place(j),
    })
}
