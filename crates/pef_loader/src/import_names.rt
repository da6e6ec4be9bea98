ghost use Rattle.std.specs.Prelude.{◌≡◌, ◌<◌, IfSome};
ghost use Rattle.pef_loader.specs.ImportNames.{is_import_named, named_import_of};
ghost use Rattle.pef_loader.specs.Views.{loaded};

use crate::import_reader::ImportReader;
use crate::tables::Loader;

/// Returns the first import of a loader section with this name. Imports have no hash table, so it reads one after the
/// other.
#[tactic(auto, unfolding(crate::specs::ImportNames::named_import_of))]
pub fn import_named(loader: &Loader<'_>, name: &[u8]) -> Option<usize>
    ensures value { result ≡ named_import_of (loaded loader.now) name.now }
    ensures below { IfSome result (λ j. j < (loaded loader.now).header.import_count) }
{
    let mut reader = ImportReader::new(*loader);
    for j in 0..loader.imports() {
        if is_named(&mut reader, j, name) {
            return Some(j);
        }
    }
    None
}

/// Returns whether import `j` has this name.
fn is_named(reader: &mut ImportReader<'_>, j: usize, name: &[u8]) -> bool
    ensures named { result ≡ is_import_named (loaded reader.old.loader) name.now j }
    ensures same { reader.new.loader ≡ reader.old.loader }
{
    match reader.import(j) {
        Some(import) => import.name == name,
        None => false,
    }
}
