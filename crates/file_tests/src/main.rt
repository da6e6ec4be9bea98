//! The commands over real files, one after another, in a folder with some of the examples, as a user runs
//! them. Their output and their statuses must match the file `stdout`.
//!
//! This is a program and not a test, since only a program has files and an input, and since programs are built
//! by two compilers.
#![tactic(auto)]

use pef_ports::system::{DiskFiles, Input, Output};
use pef_tool::run;
use std::io;

/// The commands to run, in turn.
const LINES: &[&str] = &[
    "pef link transition-vectors.pefscript go.pef",
    "pef list go.pef",
    "pef link shared-library.pefscript tools.pef",
    "pef link uses-library.pefscript user.pef",
    "pef load user=user.pef Tools=tools.pef",
    "pef load user=user.pef",
    "pef extract user.pef #0 copy.pef",
    "pef extract user.pef #1 copy.pef",
    "pef check transition-vectors.pefscript transition-vectors.pefcert",
    "pef check transition-vectors.pefscript shared-library.pefscript",
    "pef distances transition-vectors.pefscript",
    "pef link missing.pefscript never.pef",
    "pef list never.pef",
    "pef link shared-library.pefscript nowhere/tools.pef",
    // over a longer container
    "pef link shared-library.pefscript go.pef",
    "pef load Tools=go.pef",
    "pef show",
];

fn main(rt: HostRuntime) -> io::Result<()> {
    for line in LINES {
        println!(rt; "$ {line}")?;
        let status = run_line(&rt, line)?;
        println!(rt; "status {status}")?;
    }
    Ok(())
}

/// Runs the tool with the arguments of a line, and returns its status.
fn run_line(rt: &HostRuntime, line: &str) -> io::Result<u8> {
    let alloc = rt.alloc();
    let mut words = Vec::new(alloc);
    for word in line.split(' ') {
        words.push(String::from_str(alloc, word)?)?;
    }
    let mut files = DiskFiles::new(rt);
    let mut input = Input::new(rt.stdin());
    let mut out = Output::new(rt.stdout());
    Ok(run(alloc, words.as_slice(), &mut files, &mut input, &mut out))
}
