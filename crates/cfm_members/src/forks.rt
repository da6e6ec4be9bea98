ghost use Rattle.std.specs.Prelude.{◌≡◌, option_map};
ghost use Rattle.pef_words.specs.Refusals.{result_map};
ghost use Rattle.mac_forks.specs.Views.{mac_file_seen, part_seen};
ghost use Rattle.cfm_members.specs.Forks.{data_fork_of, resource_fork_of};

use mac_forks::{ForkBytes, ForkFault, MacFile};
use mac_resources::ResourceFork;

/// The forks of a file, or the errors of their entries. `None` if the file doesn't have the fork.
#[derive(Clone, Copy, Debug)]
pub struct Forks<'a> {
    pub data_fork: Option<Result<ForkBytes<'a>, ForkFault>>,
    pub resource_fork: Option<Result<ForkBytes<'a>, ForkFault>>,
}

impl<'a> Forks<'a> {
    /// Returns the forks of a file with some bytes. A file in none of the formats is a resource fork if it has the form
    /// of one, also of one that was cut, else a data fork.
    pub fn of(bytes: &'a [u8], file: &MacFile<'a>) -> Forks<'a>
        ensures data_fork { option_map (result_map part_seen) result.data_fork ≡ data_fork_of bytes.entry.now (mac_file_seen file.now) }
        ensures resource_fork { option_map (result_map part_seen) result.resource_fork ≡ resource_fork_of bytes.entry.now (mac_file_seen file.now) }
    {
        match file {
            MacFile::Bare(_) => {
                if ResourceFork::has_form(bytes) {
                    Forks {
                        data_fork: None,
                        resource_fork: file.data_fork(),
                    }
                } else {
                    Forks {
                        data_fork: file.data_fork(),
                        resource_fork: None,
                    }
                }
            }
            MacFile::MacBinary(_) | MacFile::Apple(_) => Forks {
                data_fork: file.data_fork(),
                resource_fork: file.resource_fork(),
            },
        }
    }
}
