ghost use Rattle.std.specs.Prelude.{◌≡◌, IfOk};
ghost use Rattle.pef_hash.specs.Build.{built};
ghost use Rattle.pef_script.specs.Script.{export_names};
ghost use Rattle.pef_script.specs.WellFormed.{ScriptHolds};

use crate::fault::LinkFault;
use pef_hash::{Table, build};
use pef_script::Script;
use std::alloc::Global;

/// Returns the hash table of the names of the exports of `script`.
pub(crate) fn export_table(alloc: Global, script: &Script<'_>) -> Result<Table, LinkFault>
    requires { ScriptHolds script.now }
    ensures { IfOk result (λ table. table ≡ built (export_names script.now)) }
{
    let mut names = Vec::new(alloc);
    let mut lengths = Vec::with_capacity(alloc, script.exports())?;
    let mut k = 0;
    'exports: while let Some(export) = script.export(k) {
        names.extend_from_slice(export.name)?;
        lengths.push(export.name.len() as u8)?;
        k += 1;
    }
    Ok(build(alloc, &names, &lengths)?)
}
