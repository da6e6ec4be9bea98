ghost use Rattle.std.specs.Prelude.{◌≡◌, IfSome, option_map};
ghost use Rattle.std.specs.Option.{ForSome};
ghost use Rattle.pef_words.specs.Refusals.{result_map};
ghost use Rattle.pef_views.specs.Partial.{partial_of};
ghost use Rattle.pef_views.specs.PartialViews.{partly};
ghost use Rattle.pef_loader.specs.PartialViews.{partly_loaded};
ghost use Rattle.pef_inspect.specs.Loads.{loader_in};

use pef_loader::PartialLoader;
use pef_views::{PartialContainer, ViewFault};

/// The parts of a container that may be damaged, as far as each can be read.
#[derive(Clone, Copy, Debug)]
pub struct Parts<'a> {
    container: PartialContainer<'a>,
    loader: Option<PartialLoader<'a>>,
    ghost loads: { option_map partly_loaded loader ≡ loader_in (partly container) },
    ghost one: { ForSome loader (λ l. partly l.container ≡ partly container) },
}

impl<'a> Parts<'a> {
    ghost use Rattle.pef_inspect.specs.PartsSeen.{parted};

    /// Reads what can be read of `bytes`.
    ///
    /// # Errors
    ///
    /// `TooShort` if there are fewer than 40 bytes, `BadTag` if the first eight aren't `Joy!peff`.
    pub fn read(bytes: &'a [u8]) -> Result<Parts<'a>, ViewFault>
        ensures { result_map parted result ≡ partial_of bytes.entry.now }
    {
        let container = PartialContainer::read(bytes)?;
        let loader = PartialLoader::read(&container).ok();
        Ok(Parts { container, loader })
    }

    /// Returns the container: its header and its sections.
    pub fn container(&self) -> &PartialContainer<'a>
        ensures { partly result.now ≡ parted self.now }
    {
        &self.container
    }

    /// Returns the loader section, if there is one with a header.
    pub fn loader(&self) -> Option<&PartialLoader<'a>>
        ensures value { option_map (λ l. partly_loaded l.now) result ≡ loader_in (parted self.now) }
        ensures container { IfSome result (λ l. partly l.now.container ≡ parted self.now) }
    {
        self.loader.as_ref()
    }
}
