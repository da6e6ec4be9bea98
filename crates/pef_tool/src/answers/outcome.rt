ghost use Rattle.std.specs.Prelude.{◌≡◌};
ghost use Rattle.pef_tool.specs.Answers.Answers.{status_of};

use pef_faults::Explanation;

/// The outcome of a run.
#[derive(Clone, Copy, Debug, PartialEq, Eq)]
pub enum Outcome {
    /// The command is done.
    Done,
    /// The command is done, and `check` answered no for a section, or `inspect` found an error in a file.
    SaidNo,
    /// The command reported an error: its number, and what is known beyond its line.
    Refused { number: u32, note: Explanation },
    /// The command line is invalid.
    Usage,
    /// The output failed.
    OutputFailed,
}

impl Outcome {
    /// Returns the exit status of the run.
    pub fn status(&self) -> u8
        ensures { result ≡ status_of self.now }
    {
        match self {
            Outcome::Done => 0,
            Outcome::SaidNo | Outcome::Refused { .. } | Outcome::OutputFailed => 1,
            Outcome::Usage => 2,
        }
    }
}
