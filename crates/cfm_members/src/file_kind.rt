ghost use Rattle.std.specs.Prelude.{◌≡◌};
ghost use Rattle.cfm_members.specs.Kinds.{format_kind, kind_of};

use crate::search::begins_container;
use mac_forks::{ForkFormat, MacFile};
use mac_resources::ResourceFork;

/// What a file is.
#[derive(Clone, Copy, Debug, PartialEq, Eq)]
pub enum FileKind {
    /// A container begins at its first byte.
    Container,
    MacBinary,
    AppleSingle,
    AppleDouble,
    /// It begins as AppleSingle or AppleDouble, and its header passes the end or has an unknown version.
    DamagedApple,
    /// Its bytes can be a resource fork, or the first bytes of one.
    ResourceFork,
    /// None of these. It may have containers anywhere.
    Other,
}

impl FileKind {
    /// Returns what a file is. The kinds are asked for in their order.
    pub fn of(bytes: &[u8]) -> FileKind
        ensures { result ≡ kind_of bytes.now }
    {
        if begins_container(bytes) {
            return FileKind::Container;
        }
        match MacFile::read(bytes) {
            Ok(file) => format_kind(file.format(), bytes),
            Err(_) => FileKind::DamagedApple,
        }
    }
}

/// Returns the kind of a file with a format.
fn format_kind(format: ForkFormat, bytes: &[u8]) -> FileKind
    ensures { result ≡ format_kind bytes.now format }
{
    match format {
        ForkFormat::MacBinary1 | ForkFormat::MacBinary2 | ForkFormat::MacBinary3 =>
            FileKind::MacBinary,
        ForkFormat::AppleSingle => FileKind::AppleSingle,
        ForkFormat::AppleDouble => FileKind::AppleDouble,
        ForkFormat::Bare => {
            if ResourceFork::has_form(bytes) {
                FileKind::ResourceFork
            } else {
                FileKind::Other
            }
        }
    }
}
