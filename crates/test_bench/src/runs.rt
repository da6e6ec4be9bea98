//! Runs over files, an input and an output in memory.

ghost use Rattle.std.specs.Prelude.{◌<◌};

use crate::ports::{Endless, Papers, Sheet, Slip, Text};
use pef_tool::{FileFault, explain, perform, run};
use std::alloc::{AllocError, Global};
use std::test::Fail;
use test_data::refusals::{say_answered, say_begins};

/// More writes than any answer has that is cut at each of them.
const MOST_WRITES: usize = 100;

/// The arguments of a run. If the number of a call is 0, no call fails.
#[derive(Clone, Copy)]
pub struct Handed<'a> {
    /// The words after the program's name.
    pub words: &'a [&'a str],
    /// The contents of the file `a`.
    pub file: &'a [u8],
    /// The contents of the file `b`, if it is there. There are no other files.
    pub second: Option<&'a [u8]>,
    pub input: &'a [u8],
    /// The number of bytes that the input gives and the output takes a call.
    pub step: usize,
    /// The call of the input that fails.
    pub input_fails_at: u32,
    /// The call of the output that fails.
    pub out_fails_at: usize,
    /// The call of the files that fails, and its fault.
    pub files_fail_at: u32,
    pub fault: FileFault,
    /// The number of places at which `inspect` looks for a resource fork, and finds no file.
    pub looks: u64,
}

impl<'a> Handed<'a> {
    ghost use Rattle.std.specs.Prelude.{◌≡◌};

    /// Returns words and an input. No call fails.
    pub fn input(words: &'a [&'a str], input: &'a [u8]) -> Handed<'a>
        ensures { result.step ≡ 1000 }
    {
        Handed {
            words,
            file: b"",
            second: None,
            input,
            step: 1000,
            input_fails_at: 0,
            out_fails_at: 0,
            files_fail_at: 0,
            fault: FileFault::Failed,
            looks: 0,
        }
    }

    /// Returns words and the files `a` and `b`. No call fails.
    pub fn files(words: &'a [&'a str], file: &'a [u8], second: &'a [u8]) -> Handed<'a>
        ensures { result.step ≡ 1000 }
    {
        Handed {
            second: Some(second),
            ..Handed::file(words, file)
        }
    }

    /// Returns words and the file `a`. No call fails.
    pub fn file(words: &'a [&'a str], file: &'a [u8]) -> Handed<'a>
        ensures { result.step ≡ 1000 }
    {
        Handed {
            file,
            ..Handed::input(words, b"")
        }
    }
}

/// The state after a run.
#[derive(Drop)]
pub struct Outcome {
    pub printed: Vec<u8>,
    pub status: u8,
    pub papers: Papers,
    /// Returns the number of bytes of the input that weren't read yet.
    pub left: usize,
}

impl Outcome {
    /// Tests the numbers of `read` and `write` calls of the files.
    pub fn assert_calls(&self, calls: (u64, u64)) -> Result<(), Fail> {
        let (reads, writes) = self.papers.calls();
        if (reads, writes) != calls {
            return Err(Fail::new(format_args!("{reads} reads and {writes} writes of files")));
        }
        Ok(())
    }

    /// Tests that a failure of the files was counted exactly if one is reported, besides those of places where no file is.
    fn assert_counted(&self, looks: u64) -> Result<(), Fail> {
        let printed = self.printed.as_slice();
        let told = printed.starts_with(b"refused 71 ")
            || printed.starts_with(b"refused 72 ")
            || has_line(printed, b"error 71 FileUnreadable");
        let failures = self.papers.failures();
        if failures != u64::from(told).saturating_add(looks) {
            return Err(Fail::new(format_args!("{failures} failures of files")));
        }
        Ok(())
    }

    /// Returns whether a file has exactly these bytes.
    pub fn has(&self, path: &[u8], bytes: &[u8]) -> bool {
        self.papers.bytes(path) == Some(bytes)
    }
}

/// Returns whether a line after the first one begins with some text.
fn has_line(printed: &[u8], text: &[u8]) -> bool {
    for i in 0..printed.len() {
        let (line, rest) = printed.split_at(i);
        if line.ends_with(b"\n") && rest.starts_with(text) {
            return true;
        }
    }
    false
}

/// Returns the words of a command line, after the program's name.
fn line_of(alloc: Global, words: &[&str]) -> Result<Vec<String>, AllocError> {
    let mut line = Vec::new(alloc);
    line.push(String::from_str(alloc, "pef")?)?;
    for word in words {
        line.push(String::from_str(alloc, word)?)?;
    }
    Ok(line)
}

/// Runs the tool on words over files, and returns its status.
fn run_words(
    alloc: Global,
    words: &[&str],
    papers: &mut Papers,
    input: &mut Text<'_>,
    out: &mut Sheet,
) -> Result<u8, AllocError> {
    let line = line_of(alloc, words)?;
    Ok(run(alloc, line.as_slice(), papers, input, out))
}

/// Puts a file at a path.
pub fn put_file(papers: &mut Papers, path: &str, bytes: &[u8]) -> Result<(), Fail> {
    match papers.put(path.as_bytes(), bytes) {
        Ok(()) => Ok(()),
        Err(_) => Err(Fail::new("no memory for a file")),
    }
}

/// Runs the tool, and returns the state after the run.
pub fn run_tool(alloc: Global, handed: Handed<'_>) -> Result<Outcome, Fail>
    requires { 0 < handed.step }
{
    let mut papers = Papers::new(alloc, handed.files_fail_at, handed.fault);
    put_file(&mut papers, "a", handed.file)?;
    if let Some(second) = handed.second {
        put_file(&mut papers, "b", second)?;
    }
    let mut input = Text::new(handed.input, handed.step, handed.input_fails_at);
    let mut out = Sheet::new(alloc, handed.step, handed.out_fails_at)?;
    let status = run_words(alloc, handed.words, &mut papers, &mut input, &mut out)?;
    Ok(Outcome {
        printed: out.into_bytes(),
        status,
        papers,
        left: input.rest().len(),
    })
}

/// Runs the tool, and explains the outcome on an output that fails at a call. Both outputs take one byte a call.
/// Returns the state after the run, and the bytes that the explanation's output has.
pub fn run_explained(
    alloc: Global,
    handed: Handed<'_>,
    notes_fail_at: usize,
) -> Result<(Outcome, Vec<u8>), Fail> {
    let mut papers = Papers::new(alloc, handed.files_fail_at, handed.fault);
    put_file(&mut papers, "a", handed.file)?;
    if let Some(second) = handed.second {
        put_file(&mut papers, "b", second)?;
    }
    let line = line_of(alloc, handed.words)?;
    let mut input = Text::new(handed.input, 1, handed.input_fails_at);
    let mut out = Sheet::new(alloc, 1, handed.out_fails_at)?;
    let mut notes = Sheet::new(alloc, 1, notes_fail_at)?;
    let ended = perform(alloc, line.as_slice(), &mut papers, &mut input, &mut out);
    explain(alloc, line.as_slice(), ended, &mut notes);
    let outcome = Outcome {
        printed: out.into_bytes(),
        status: ended.status(),
        papers,
        left: input.rest().len(),
    };
    Ok((outcome, notes.into_bytes()))
}

/// Runs `show` on an input without end, and explains the outcome. Returns the text that is printed, and the
/// explanation.
pub fn show_endless(alloc: Global) -> Result<(Vec<u8>, Vec<u8>), Fail> {
    let mut papers = Papers::new(alloc, 0, FileFault::Failed);
    let line = line_of(alloc, &["show"])?;
    let mut out = Sheet::new(alloc, 1000, 0)?;
    let mut notes = Sheet::new(alloc, 1000, 0)?;
    let ended = perform(alloc, line.as_slice(), &mut papers, &mut Endless, &mut out);
    explain(alloc, line.as_slice(), ended, &mut notes);
    Ok((out.into_bytes(), notes.into_bytes()))
}

/// Runs the tool, which must print this and end with this status. Its explanation must begin with this text. If the
/// text is empty, there must be no explanation.
pub fn assert_explains(
    alloc: Global,
    handed: Handed<'_>,
    printed: &[u8],
    status: u8,
    begins: &[u8],
) -> Result<(), Fail> {
    let (outcome, explained) = run_explained(alloc, handed, 0)?;
    if outcome.printed.as_slice() != printed || outcome.status != status {
        return Err(unlike(handed.words, &outcome.printed, outcome.status));
    }
    if !explained.as_slice().starts_with(begins) || explained.is_empty() != begins.is_empty() {
        return Err(unlike(handed.words, &explained, outcome.status));
    }
    Ok(())
}

/// Runs the tool, which must print this and end with this status.
pub fn assert_prints(
    alloc: Global,
    handed: Handed<'_>,
    printed: &[u8],
    status: u8,
) -> Result<Outcome, Fail>
    requires { 0 < handed.step }
{
    let outcome = run_tool(alloc, handed)?;
    if outcome.printed.as_slice() != printed || outcome.status != status {
        return Err(unlike(handed.words, &outcome.printed, outcome.status));
    }
    outcome.assert_counted(handed.looks)?;
    Ok(outcome)
}

/// Runs `show`, which must read the whole input and may not access files.
pub fn assert_shows(alloc: Global, script: &[u8], printed: &[u8], status: u8) -> Result<(), Fail> {
    let outcome = assert_prints(alloc, Handed::input(&["show"], script), printed, status)?;
    if outcome.left != 0 {
        return Err(Fail::new(format_args!("{} bytes are left", outcome.left)));
    }
    outcome.assert_calls((0, 0))
}

/// Files that aren't there or can't be read, or whose allocation fails: the path, the call of the files that fails and
/// its fault, and the text that is printed.
const UNREADABLE: &[(&str, u32, FileFault, &[u8])] = &[
    (
        "a b",
        0,
        FileFault::Failed,
        b"refused 71 FileUnreadable a%20b\n",
    ),
    ("a", 1, FileFault::Failed, b"refused 71 FileUnreadable a\n"),
    ("a", 1, FileFault::OutOfMemory, b"refused 99 OutOfMemory\n"),
];

/// Runs a command on one file that can't be read. It must report that, and make no other call.
pub fn assert_unreadable(alloc: Global, command: &str, file: &[u8]) -> Result<(), Fail> {
    for row in UNREADABLE {
        let (path, files_fail_at, fault, printed) = *row;
        let words = [command, path];
        let handed = Handed {
            files_fail_at,
            fault,
            ..Handed::file(&words, file)
        };
        assert_prints(alloc, handed, printed, 1)?.assert_calls((1, 0))?;
    }
    Ok(())
}

/// Runs a command with an output that takes one byte a call and fails at call k: k - 1 bytes are written, though the
/// output would continue.
pub fn assert_cut_output(alloc: Global, handed: Handed<'_>, printed: &[u8]) -> Result<(), Fail> {
    for k in 0..printed.len() {
        let handed = Handed {
            step: 1,
            out_fails_at: k + 1,
            ..handed
        };
        assert_prints(alloc, handed, &printed[..k], 1)?;
    }
    Ok(())
}

/// Runs a command with an output that takes all bytes of a write, and fails at the first write, at the second, and so
/// on. A prefix of the answer is written, though the output would continue. Returns the number of writes when the
/// status is 0.
pub fn assert_cut_writes(alloc: Global, handed: Handed<'_>, printed: &[u8]) -> Result<usize, Fail> {
    for k in 1..=MOST_WRITES {
        let handed = Handed {
            step: usize::MAX,
            out_fails_at: k,
            ..handed
        };
        let outcome = run_tool(alloc, handed)?;
        let sent = outcome.printed.as_slice();
        if outcome.status == 0 && sent == printed {
            return Ok(k - 1);
        }
        if outcome.status != 1 || sent.len() >= printed.len() || !printed.starts_with(sent) {
            return Err(unlike(handed.words, &outcome.printed, outcome.status));
        }
    }
    Err(Fail::new("writes without end"))
}

/// Runs the tool over files, with an empty input. It must print this and end with this status.
pub fn assert_prints_over(
    alloc: Global,
    papers: &mut Papers,
    words: &[&str],
    printed: &[u8],
    status: u8,
) -> Result<(), Fail> {
    let (told, ended) = run_over(alloc, papers, words)?;
    if told.as_slice() != printed || ended != status {
        return Err(unlike(words, &told, ended));
    }
    Ok(())
}

/// Runs the tool over files, with an empty input. Returns the text that it prints, and its status.
pub fn run_over(
    alloc: Global,
    papers: &mut Papers,
    words: &[&str],
) -> Result<(Vec<u8>, u8), AllocError> {
    let mut input = Text::new(b"", 1000, 0);
    let mut out = Sheet::new(alloc, 1000, 0)?;
    let status = run_words(alloc, words, papers, &mut input, &mut out)?;
    Ok((out.into_bytes(), status))
}

/// Runs the tool over files and an input. One allocation may be refused to it, as by `tools/refuse-memory`. It must
/// print this and end with 0, or report that an allocation failed, print nothing else and end with 1. `inspect` may also
/// report it of a file or of a container.
pub fn assert_prints_or_lacks_memory(
    rt: &impl Print,
    alloc: Global,
    papers: &mut Papers,
    words: &[&str],
    input: &[u8],
    printed: &[u8],
) -> Result<(), Fail> {
    let line = line_of(alloc, words)?;
    let mut input = Text::new(input, 1000, 0);
    let mut out = Slip::new();
    say_begins(rt)?;
    let status = run(alloc, line.as_slice(), papers, &mut input, &mut out);
    let told = out.bytes();
    let lacked = told == b"refused 99 OutOfMemory\n".as_slice()
        || has_line(told, b"error 99 OutOfMemory");
    let refused = lacked && status == 1;
    if !refused && (told != printed || status != 0) {
        return Err(unlike(words, told, status));
    }
    say_answered(rt, refused)
}

/// Puts the container of a script at a path, and the script at `script`.
pub fn put_linked(
    alloc: Global,
    papers: &mut Papers,
    path: &str,
    script: &[u8],
) -> Result<(), Fail> {
    put_file(papers, "script", script)?;
    let words = ["link", "script", path];
    let (told, status) = run_over(alloc, papers, &words)?;
    if status != 0 {
        return Err(unlike(&words, &told, status));
    }
    Ok(())
}

/// Returns a failure with the text that a run printed, and its status.
fn unlike(words: &[&str], printed: &[u8], status: u8) -> Fail {
    let printed = str::from_utf8(printed).unwrap_or("no text");
    Fail::new(format_args!("{words:?} ends with {status} and prints {printed}"))
}
