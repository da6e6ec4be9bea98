ghost use Rattle.std.specs.Prelude.{◌≡◌, ◌++◌, ◌∷◌, [], IfOk, OnOk, false, map, string_bytes};
ghost use Rattle.std.specs.List.{list_any};
ghost use Rattle.std.specs.Option.{is_some, option_copied};
ghost use Rattle.pef_folders.specs.Expansions.{Expands, after_flag, after_option, after_value, ends_with_slash, file_words, folder as folder_item, here, is_hidden, items_from, library_word, library_words, next, option_here, value_here, without_equals};
ghost use Rattle.pef_folders.specs.Kept.Steps.{Adds, ending_words};
ghost use Rattle.pef_folders.specs.declared.expansion.Reading.TheVariants.{Program};

use crate::folders::{FolderFault, Folders};
use std::alloc::{AllocError, Global};

/// What the next word of a command line is.
#[derive(Clone, Copy)]
pub(crate) enum Reading {
    /// The name of the program.
    Program,
    /// The command.
    Command,
    /// An option of `prepare` or one of its operands.
    Options,
    /// The folder of `-L`.
    Folder,
    /// A word that stays as it is.
    Operands,
}

/// Returns the words of a command line with its folders expanded. Of `prepare`, each `-L FOLDER` and `-LFOLDER` becomes a word
/// `--library=FOLDER/NAME` for each file in the folder, in the order of their names, but for files whose names begin with `.`. A
/// folder that can't be listed stays as it is, so that the command reports it.
///
/// # Errors
///
/// `AllocError` if an allocation fails.
#[tactic(auto, using(crate::proofs::PlainLemmas::unflagged_expand))]
pub fn expanded<D: Folders>(
    alloc: Global,
    words: Vec<String>,
    folders: &D,
) -> Result<Vec<String>, AllocError>
    ensures { IfOk result (λ out. Expands (D.did_list folders.now) (items_from Program (map string_bytes words.items)) (map string_bytes out.items)) }
{
    if !names_folder(words.as_slice()) {
        return Ok(words);
    }
    expand(alloc, words.as_slice(), folders)
}

/// Returns some words with their folders expanded.
#[tactic(auto, using(crate::proofs::PlainLemmas::ended))]
fn expand<D: Folders>(
    alloc: Global,
    words: &[String],
    folders: &D,
) -> Result<Vec<String>, AllocError>
    ensures { IfOk result (λ out. Expands (D.did_list folders.now) (items_from Program (map string_bytes words.now)) (map string_bytes out.items)) }
{
    let mut out = Vec::with_capacity(alloc, words.len())?;
    let mut reading = Reading::Program;
    for word in words {
        reading = add_word(alloc, &mut out, reading, word.as_str(), folders)?;
    }
    end(alloc, &mut out, reading)?;
    Ok(out)
}

/// Adds `-L` if no folder followed it.
fn end(alloc: Global, out: &mut Vec<String>, reading: Reading) -> Result<(), AllocError>
    ensures { OnOk result (map string_bytes out.new.items ≡ map string_bytes out.old.items ++ ending_words reading) }
{
    match reading {
        Reading::Folder => push(alloc, out, "-L"),
        Reading::Program | Reading::Command | Reading::Options | Reading::Operands => Ok(()),
    }
}

/// Returns whether a word begins as the option that names a folder.
fn names_folder(words: &[String]) -> bool
    ensures { result ≡ list_any (λ w. is_some (after_flag w)) (map string_bytes words.now) }
{
    for word in words {
        if after_flag(word.as_str()).is_some() {
            return true;
        }
    }
    false
}

/// Returns what follows `-L` in a word.
fn after_flag(word: &str) -> Option<&str>
    ensures { option_copied result ≡ after_flag word.now }
{
    word.strip_prefix("-L")
}

/// Adds what the next word of a command line becomes, and returns what follows it.
fn add_word<D: Folders>(
    alloc: Global,
    out: &mut Vec<String>,
    reading: Reading,
    word: &str,
    folders: &D,
) -> Result<Reading, AllocError>
    ensures next { IfOk result (λ r. r ≡ next reading word.now) }
    ensures adds { OnOk result (Adds (D.did_list folders.now) (here reading word.now) (map string_bytes out.old.items) (map string_bytes out.new.items)) }
{
    match reading {
        Reading::Program => {
            push(alloc, out, word)?;
            Ok(Reading::Command)
        }
        Reading::Command => {
            push(alloc, out, word)?;
            Ok(if word == "prepare" {
                Reading::Options
            } else {
                Reading::Operands
            })
        }
        Reading::Options => add_option(alloc, out, word, folders),
        Reading::Folder => {
            add_folder(alloc, out, word, &["-L", word], folders)?;
            Ok(Reading::Options)
        }
        Reading::Operands => {
            push(alloc, out, word)?;
            Ok(Reading::Operands)
        }
    }
}

/// Adds what a word among the options becomes, and returns what follows it.
fn add_option<D: Folders>(
    alloc: Global,
    out: &mut Vec<String>,
    word: &str,
    folders: &D,
) -> Result<Reading, AllocError>
    ensures next { IfOk result (λ r. r ≡ after_option word.now (after_flag word.now)) }
    ensures adds { OnOk result (Adds (D.did_list folders.now) (option_here word.now (after_flag word.now)) (map string_bytes out.old.items) (map string_bytes out.new.items)) }
{
    match after_flag(word) {
        Some(value) => add_value(alloc, out, word, value, folders),
        None => {
            push(alloc, out, word)?;
            Ok(if word == "--" {
                Reading::Operands
            } else {
                Reading::Options
            })
        }
    }
}

/// Adds what a word becomes that has a value after `-L`, and returns what follows it. Without a value the next word is the folder.
fn add_value<D: Folders>(
    alloc: Global,
    out: &mut Vec<String>,
    word: &str,
    value: &str,
    folders: &D,
) -> Result<Reading, AllocError>
    ensures next { IfOk result (λ r. r ≡ after_value value.now) }
    ensures adds { OnOk result (Adds (D.did_list folders.now) (value_here word.now value.now) (map string_bytes out.old.items) (map string_bytes out.new.items)) }
{
    if value.is_empty() {
        return Ok(Reading::Folder);
    }
    add_folder(alloc, out, without_equals(value), &[word], folders)?;
    Ok(Reading::Options)
}

/// Returns a value that is attached to an option, without one `=`.
fn without_equals(value: &str) -> &str
    ensures { result.now ≡ without_equals value.now }
{
    match value.strip_prefix("=") {
        Some(rest) => rest,
        None => value,
    }
}

/// Adds the words of a folder, or the words that name it if it can't be listed.
fn add_folder<D: Folders>(
    alloc: Global,
    out: &mut Vec<String>,
    path: &str,
    named: &[&str],
    folders: &D,
) -> Result<(), AllocError>
    ensures { OnOk result (Adds (D.did_list folders.now) (folder_item path.now (map (λ w. w.now) named.now) ∷ []) (map string_bytes out.old.items) (map string_bytes out.new.items)) }
{
    match folders.file_names(alloc, path) {
        Ok(names) => add_files(alloc, out, path, names.as_slice()),
        Err(FolderFault::Failed) => push_all(alloc, out, named),
        Err(FolderFault::OutOfMemory) => Err(AllocError),
    }
}

/// Adds the words of the files in a folder.
fn add_files(
    alloc: Global,
    out: &mut Vec<String>,
    path: &str,
    names: &[String],
) -> Result<(), AllocError>
    ensures { OnOk result (map string_bytes out.new.items ≡ map string_bytes out.old.items ++ library_words path.now (map string_bytes names.now)) }
{
    for name in names {
        add_file(alloc, out, path, name.as_str())?;
    }
    Ok(())
}

/// Adds the word of a file in a folder, unless it is hidden.
fn add_file(alloc: Global, out: &mut Vec<String>, path: &str, name: &str) -> Result<(), AllocError>
    ensures { OnOk result (map string_bytes out.new.items ≡ map string_bytes out.old.items ++ file_words path.now name.now) }
{
    if is_hidden(name) {
        return Ok(());
    }
    let word = library_word(alloc, path, name)?;
    out.push(word)?;
    Ok(())
}

/// Returns whether a file's name begins with `.`.
fn is_hidden(name: &str) -> bool
    ensures { result ≡ is_hidden name.now }
{
    match name.as_bytes() {
        [first, ..] => *first == b'.',
        [] => true,
    }
}

/// Returns the word of a file in a folder.
fn library_word(alloc: Global, path: &str, name: &str) -> Result<String, AllocError>
    ensures { IfOk result (λ w. string_bytes w ≡ library_word path.now name.now) }
{
    let mut word = String::from_str(alloc, "--library=")?;
    word.push_str(path)?;
    if !ends_with_slash(path) {
        word.push_str("/")?;
    }
    word.push_str(name)?;
    Ok(word)
}

/// Returns whether a path ends with `/`.
fn ends_with_slash(path: &str) -> bool
    ensures { result ≡ ends_with_slash path.now }
{
    match path.as_bytes() {
        [.., last] => *last == b'/',
        [] => false,
    }
}

/// Adds a word.
fn push(alloc: Global, out: &mut Vec<String>, word: &str) -> Result<(), AllocError>
    ensures { OnOk result (map string_bytes out.new.items ≡ map string_bytes out.old.items ++ word.now ∷ []) }
{
    let word = String::from_str(alloc, word)?;
    out.push(word)?;
    Ok(())
}

/// Adds some words.
fn push_all(alloc: Global, out: &mut Vec<String>, words: &[&str]) -> Result<(), AllocError>
    ensures { OnOk result (map string_bytes out.new.items ≡ map string_bytes out.old.items ++ map (λ w. w.now) words.now) }
{
    for word in words {
        push(alloc, out, word)?;
    }
    Ok(())
}
