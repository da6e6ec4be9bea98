//! Theorems on which words are which command. The function does nothing.
ghost use Rattle.std.specs.Prelude.{◌≡◌, ℕ, List, drop};
ghost use Rattle.pef_request.specs.CommandLine.{request_by};
ghost use Rattle.pef_request.specs.Plain.{ArePlain, plain_words as asked_plainly};

/// States which command words ask for, if no word after the program's name begins with `-`. `show` alone asks
/// for `show`, and no other words do. In the same way exactly `link SCRIPT OUT` asks for `link`, `list FILE` for
/// `list`, `check SCRIPT CERT` for `check`, `distances SCRIPT` for `distances`, and `extract FILE NAME OUT` for `extract`.
/// Exactly `load` with 1 to 256 words
/// `NAME=FILE` asks for `load` of these files. Each of these words is split at its first `=`, and no name is empty.
/// Exactly `inspect` with 1 to 65,536 words asks for `inspect` of the files with these paths, as text.
/// Exactly `prepare` with 1 to 256 words asks for `prepare` of the files that they name, as lines and with stubs of all that is
/// missing, and exactly `stubs` with 1 to 256 words for `stubs`, as numbers from F0000000 on, 16 apart. A word with `=` gives the
/// file a name before its first `=`, if that isn't empty.
/// All other words are no command.
#[tactic(auto, using(crate::proofs::PlainLemmas::request_plain))]
pub fn plain_words()
    ensures { (words : List (List ℕ)) → ArePlain (drop 1 words) → request_by words ≡ asked_plainly words }
{}
