//! The program `pef`: the commands of `pef_tool` over real files, the standard input and the standard output. How a run
//! ended is explained on the standard error.
#![tactic(auto)]

use pef_folders::expanded;
use pef_ports::system::{DiskFiles, Input, Output};
use pef_tool::{explain, out_of_memory, perform};
use std::alloc::AllocError;
use std::env;
use std::io::ErrorKind;
use std::process::ExitCode;
use std::rt::{self, Env};

fn main(rt: HostRuntime) -> ExitCode {
    let alloc = rt.alloc();
    let mut files = DiskFiles::new(&rt);
    let mut input = Input::new(rt.stdin());
    let mut out = Output::new(rt.stdout());
    let mut notes = Output::new(rt.stderr());
    let (words, outcome) = match words(&rt) {
        Ok(words) => {
            let outcome = perform(alloc, words.as_slice(), &mut files, &mut input, &mut out);
            (words, outcome)
        }
        Err(AllocError) => (Vec::new(alloc), out_of_memory(&mut out)),
    };
    // Who reads no more output, as after `| head`, needs no explanation.
    if !out.is_unread() {
        explain(alloc, words.as_slice(), outcome, &mut notes);
    }
    ExitCode::from(outcome.status())
}

/// Returns the arguments of the command line, with the files of its folders in their places.
fn words<R>(rt: &R) -> Result<Vec<String>, AllocError>
where
    R: Env + rt::Files + AllocGlobal + Clone + Drop,
{
    expanded(rt.alloc(), given_words(rt)?, rt)
}

/// Returns the arguments of the command line as they were given. If the system can't give them, there are none, and such a
/// command line is invalid.
fn given_words(rt: &(impl Env + AllocGlobal)) -> Result<Vec<String>, AllocError> {
    match env::args(rt) {
        Ok(words) => words.collect(rt.alloc()),
        Err(error) if error.kind() == ErrorKind::OutOfMemory => Err(AllocError),
        Err(_) => Ok(Vec::new(rt.alloc())),
    }
}
