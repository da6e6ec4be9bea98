ghost use Rattle.std.specs.Prelude.{◌≡◌};
ghost use Rattle.mac_forks.specs.Apple.{finder_of};

use pef_words::Cut;

/// What the Finder knows of a file, field by field (FInfo of *Inside Macintosh*).
#[derive(Clone, Copy, Debug, PartialEq, Eq)]
pub struct FinderInfo {
    /// Four characters, as a number.
    pub file_type: u32,
    /// Four characters, as a number.
    pub creator: u32,
    pub flags: u16,
    /// The place of the icon in its window.
    pub vertical: i16,
    pub horizontal: i16,
    /// The window or folder of the icon.
    pub window: u16,
}

/// Reads Finder information, or returns `None` if it passes the end.
#[tactic(auto, unfolding(crate::specs::Apple::finder_of))]
pub(crate) fn read_finder(bytes: &[u8]) -> Option<FinderInfo>
    ensures { result ≡ finder_of bytes.now }
{
    let cut = Cut::new(bytes);
    Some(FinderInfo {
        file_type: cut.u32_at(0)?,
        creator: cut.u32_at(4)?,
        flags: cut.u16_at(8)?,
        vertical: cut.i16_at(10)?,
        horizontal: cut.i16_at(12)?,
        window: cut.u16_at(14)?,
    })
}
