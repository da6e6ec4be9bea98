ghost use Rattle.std.specs.Prelude.{◌≡◌, ◌<◌, ◌++◌, [], ◌∷◌, IfSome, IfOk, OnErr, true, false, not};
ghost use Rattle.indexmap.specs.IndexMap.{index_map_len};
ghost use Rattle.pef_script.specs.Text.Kept.Reader.{names_in};
ghost use Rattle.pef_script.specs.Text.SoFar.{is_repeated, number_of_name};

use indexmap::IndexMap;
use pef_names::NameKey;
use std::alloc::AllocFailed;

/// Returns the number of the first entry with a name.
pub fn number_of_name<T>(table: &IndexMap<NameKey<'_>, T>, name: &[u8]) -> Option<usize>
    ensures number { result ≡ number_of_name (names_in table.now.entries) name.now }
    ensures below { IfSome result (λ k. k < index_map_len table.now) }
{
    table.get_index_of(&NameKey { bytes: name })
}

/// Gives the next number to a name that has none, and returns whether it had none. Otherwise it keeps its number and gets
/// the new value, which is never read, since the line is refused.
pub fn declare<'a, T: Drop>(
    table: &mut IndexMap<NameKey<'a>, T>,
    name: &'a [u8],
    value: T,
) -> Result<bool, AllocFailed<(NameKey<'a>, T)>>
    ensures new { IfOk result (λ is_new. is_repeated (names_in table.old.entries) name.now ≡ not is_new) }
    ensures added { IfOk result (λ is_new. is_new ≡ true → table.new.entries ≡ table.old.entries ++ (record { bytes = name.entry }, value) ∷ []) }
    ensures kept { IfOk result (λ is_new. is_new ≡ false → names_in table.new.entries ≡ names_in table.old.entries) }
    ensures err { OnErr result (table.new.entries ≡ table.old.entries) }
{
    let old = table.insert(NameKey { bytes: name }, value)?;
    Ok(old.is_none())
}
