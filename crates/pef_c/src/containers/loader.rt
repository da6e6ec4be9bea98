//! Loader sections. Each call reads them anew from the container's bytes, and allocates nothing.
ghost use Rattle.std.specs.Prelude.{◌≡◌, ◌==◌, false, IfErr};
ghost use Rattle.pef_loader.specs.Views.{loaded};
ghost use Rattle.pef_words.specs.Refusals.{result_map};
ghost use Rattle.pef_c.specs.Containers.Loaders.{LoaderAnswers, ReadsTables};

use pef_loader::Loader;
use pef_records::{PefLoader, loader_given, loader_number, view_number};
use pef_views::Container;

/// Reads the loader section of a container, or returns the number of the first refusal.
pub(crate) fn read_tables<'a>(container: &'a [u8]) -> Result<Loader<'a>, u32>
    ensures reads { ReadsTables container.entry.now (result_map loaded result) }
    ensures refused { IfErr result (λ number. (number == 0) ≡ false) }
{
    let container = match Container::read(container) {
        Ok(container) => container,
        Err(fault) => return Err(view_number(fault)),
    };
    match Loader::read(&container) {
        Ok(loader) => Ok(loader),
        Err(fault) => Err(loader_number(fault)),
    }
}

/// Reads how many rows the tables of a container's loader section have, and its entry points.
///
/// Returns 0, or the number of the first refusal.
#[unsafe(no_mangle)]
pub extern "C" fn pef_loader(container: &[u8], loader: &mut PefLoader) -> u32
    ensures { LoaderAnswers container.now loader.old loader.new result }
{
    let header = match read_tables(container) {
        Ok(loader) => loader.header(),
        Err(number) => return number,
    };
    *loader = loader_given(header);
    0
}
