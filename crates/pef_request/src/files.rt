//! The files that the words of a command name.
ghost use Rattle.std.specs.Prelude.{◌≡◌, IfOk, [], map, option_map, unwrap_or};
ghost use Rattle.pef_request.specs.Files.{given, file_operand as operand_of_word, named_file as file_of_word, named_files as files_of_words};
ghost use Rattle.pef_request.specs.Kept.Files.{AnswersFiles};
ghost use Rattle.pef_request.specs.Requests.{named_path, operand_path};

use crate::command_line::WordsFault;
use std::alloc::{AllocError, Global};

/// A file, with the name that a command uses for it.
#[derive(Clone, Copy, Debug, PartialEq, Eq)]
pub struct NamedFile<'a> {
    /// The name. It isn't empty.
    pub name: &'a str,
    /// The path of the file.
    pub path: &'a str,
}

/// A file with fragments, and the name that the command line gives its first one, if it does.
#[derive(Clone, Copy, Debug, PartialEq, Eq)]
pub struct FileOperand<'a> {
    /// The name. It isn't empty.
    pub name: Option<&'a str>,
    /// The path of the file.
    pub path: &'a str,
}

/// Returns the files that words `NAME=FILE` name, in order.
pub(crate) fn named_files<'a>(
    alloc: Global,
    words: &[&'a str],
) -> Result<Vec<NamedFile<'a>>, WordsFault>
    ensures { AnswersFiles result (files_of_words (map (λ w. w.now) words.now)) }
{
    let mut files = Vec::with_capacity(alloc, words.len())?;
    for &word in words {
        let Some(file) = named_file(word) else {
            return Err(WordsFault::Usage);
        };
        files.push(file)?;
    }
    Ok(files)
}

/// Returns the file that a word `NAME=FILE` names. The name ends before the first `=` and isn't empty.
fn named_file<'a>(word: &'a str) -> Option<NamedFile<'a>>
    ensures { option_map named_path result ≡ file_of_word word.now }
{
    let (name, path) = word.split_once('=')?;
    if name.is_empty() {
        return None;
    }
    Some(NamedFile { name, path })
}

/// Returns the files that words `[NAME=]FILE` name, in order.
pub(crate) fn file_operands<'a>(
    alloc: Global,
    words: &[&'a str],
) -> Result<Vec<FileOperand<'a>>, AllocError>
    ensures { IfOk result (λ files. map operand_path files.items ≡ map operand_of_word (map (λ w. w.now) words.now)) }
{
    let mut files = Vec::with_capacity(alloc, words.len())?;
    for &word in words {
        files.push(file_operand(word))?;
    }
    Ok(files)
}

/// Returns the file that a word `[NAME=]FILE` names. The name ends before the first `=`. If it is empty, the file has none, so a path
/// with `=` in it is written after a `=`.
fn file_operand<'a>(word: &'a str) -> FileOperand<'a>
    ensures { operand_path result ≡ operand_of_word word.now }
{
    match word.split_once('=') {
        None => FileOperand {
            name: None,
            path: word,
        },
        Some((name, path)) => FileOperand {
            name: given(name),
            path,
        },
    }
}

/// Returns a name, unless it is empty.
fn given<'a>(name: &'a str) -> Option<&'a str>
    ensures { option_map (λ n. n.now) result ≡ given name.now }
{
    if name.is_empty() {
        return None;
    }
    Some(name)
}

/// Returns the texts that words are, in order, and none if there are no words.
pub(crate) fn texts_of<'a>(
    alloc: Global,
    words: Option<&[&'a str]>,
) -> Result<Vec<&'a str>, AllocError>
    ensures { IfOk result (λ texts. map (λ text. text.now) texts.items ≡ unwrap_or (option_map (λ ws. map (λ w. w.now) ws.now) words.entry) []) }
{
    match words {
        Some(words) => copied_texts(alloc, words),
        None => Ok(Vec::new(alloc)),
    }
}

/// Returns the texts that words are, in order.
fn copied_texts<'a>(alloc: Global, words: &[&'a str]) -> Result<Vec<&'a str>, AllocError>
    ensures { IfOk result (λ texts. map (λ text. text.now) texts.items ≡ map (λ w. w.now) words.now) }
{
    let mut texts = Vec::with_capacity(alloc, words.len())?;
    for &word in words {
        texts.push(word)?;
    }
    Ok(texts)
}

/// Returns the paths that words are, in order.
pub(crate) fn paths_of<'a>(alloc: Global, words: &[&'a str]) -> Result<Vec<&'a [u8]>, AllocError>
    ensures { IfOk result (λ paths. map (λ path. path.now) paths.items ≡ map (λ w. w.now) words.now) }
{
    let mut paths = Vec::with_capacity(alloc, words.len())?;
    for &word in words {
        paths.push(word.as_bytes())?;
    }
    Ok(paths)
}
