ghost use Rattle.std.specs.Prelude.{◌≡◌};
ghost use Rattle.pef_script.specs.Text.Earlier.{are_same, bytes_fixed, declared_in, earlier_of, form_in, is_about, is_late, is_late_line, is_near_line, kind_after, kind_in, names_of_kind, names_wanted, overlaps_line, ranges_meet, repeats_line, words_fixed};

use crate::text::LineFault;
use crate::text::form::{Form, Names, WordKind};
use crate::text::kinds::spells;
use crate::text::near::is_near;
use crate::text::numbers::number_in;
use crate::text::places::{line_in, word_in};
use pef_lines::{LINE_FEED, cut_at};
use pef_reloc::WORD;

/// Returns the number of the first line before line `number` that a fault of this line is about.
#[tactic(auto, unfolding(crate::specs::Text::Earlier::earlier_of))]
pub fn earlier_of(text: &[u8], number: usize, fault: LineFault) -> Option<usize>
    ensures { result ≡ earlier_of text.now number fault }
{
    let line = line_in(text, number);
    let mut rest = text;
    for at in 1..number {
        match cut_at(LINE_FEED, rest) {
            Some((earlier, behind)) => {
                if is_about(fault, line, earlier) {
                    return Some(at);
                }
                rest = behind;
            }
            None => return if is_about(fault, line, rest) {
                Some(at)
            } else {
                None
            },
        }
    }
    None
}

/// Returns whether an earlier line is one that the fault of a line is about.
#[tactic(auto, unfolding(crate::specs::Text::Earlier::is_about))]
fn is_about(fault: LineFault, line: &[u8], earlier: &[u8]) -> bool
    ensures { result ≡ is_about fault line.now earlier.now }
{
    match fault {
        LineFault::Overlap { .. } => overlaps_line(line, earlier),
        LineFault::OutOfOrder { .. } => is_late_line(line, earlier),
        LineFault::RepeatedName { .. } => repeats_line(line, earlier),
        LineFault::UnknownName { word } => is_near_line(word, line, earlier),
        LineFault::BadLine { .. }
        | LineFault::BadNumber { .. }
        | LineFault::OutsideSection { .. }
        | LineFault::TooMany { .. }
        | LineFault::BadKind { .. } => false,
    }
}

/// Returns whether a fixup's word of the earlier line overlaps one of this line's, in the section with the same name.
#[tactic(auto, unfolding(crate::specs::Text::Earlier::overlaps_line))]
fn overlaps_line(line: &[u8], earlier: &[u8]) -> bool
    ensures { result ≡ overlaps_line line.now earlier.now }
{
    word_in(1, line) == word_in(1, earlier) && ranges_meet(bytes_fixed(line), bytes_fixed(earlier))
}

/// Returns whether two ranges of bytes, from a place to another, have a byte in common.
fn ranges_meet(one: Option<(u64, u64)>, other: Option<(u64, u64)>) -> bool
    ensures { result ≡ ranges_meet one other }
{
    match (one, other) {
        (Some(a), Some(b)) => a.0 < b.1 && b.0 < a.1,
        _ => false,
    }
}

/// Returns where the words that get an address by a line begin in their section, and where they end.
fn bytes_fixed(line: &[u8]) -> Option<(u64, u64)>
    ensures { result ≡ bytes_fixed line.now }
{
    let count = words_fixed(form_in(line)?)?;
    let offset = u64::from(number_in(word_in(2, line))?);
    Some((offset, offset + u64::from(WORD) * u64::from(count)))
}

/// Returns how many words get an address by a line of a form.
fn words_fixed(form: Form) -> Option<u8>
    ensures { result ≡ words_fixed form }
{
    match form {
        Form::Fix => Some(1),
        Form::Tvector => Some(2),
        _ => None,
    }
}

/// Returns whether the earlier line is of a later group, or of the same group if there may be one line of it.
#[tactic(auto, unfolding(crate::specs::Text::Earlier::is_late_line))]
fn is_late_line(line: &[u8], earlier: &[u8]) -> bool
    ensures { result ≡ is_late_line line.now earlier.now }
{
    is_late(form_in(line), form_in(earlier))
}

/// Returns whether the form of the earlier line is of a later group, or of the same group if there may be
/// one line of it.
fn is_late(this: Option<Form>, earlier: Option<Form>) -> bool
    ensures { result ≡ is_late this earlier }
{
    match (this, earlier) {
        (Some(this), Some(earlier)) => {
            this.group() < earlier.group() || (this.is_once() && this.group() == earlier.group())
        }
        _ => false,
    }
}

/// Returns whether the earlier line declares the same name, of the same kind.
#[tactic(auto, unfolding(crate::specs::Text::Earlier::repeats_line))]
fn repeats_line(line: &[u8], earlier: &[u8]) -> bool
    ensures { result ≡ repeats_line line.now earlier.now }
{
    are_same(declared_in(line), declared_in(earlier)) && word_in(1, line) == word_in(1, earlier)
}

/// Returns whether the earlier line declares nearly the name that is word `at` of the line.
#[tactic(auto, unfolding(crate::specs::Text::Earlier::is_near_line))]
fn is_near_line(at: u8, line: &[u8], earlier: &[u8]) -> bool
    ensures { result ≡ is_near_line at line.now earlier.now }
{
    are_same(names_wanted(at, line), declared_in(earlier))
        && is_near(word_in(at, line), word_in(1, earlier))
}

/// Returns the form of a line, by its first word.
pub fn form_in(line: &[u8]) -> Option<Form>
    ensures { result ≡ form_in line.now }
{
    Form::of(word_in(0, line))
}

/// Returns what a line declares the name of.
fn declared_in(line: &[u8]) -> Option<Names>
    ensures { result ≡ declared_in line.now }
{
    form_in(line)?.declares()
}

/// Returns whether two lines declare names of the same kind.
fn are_same(one: Option<Names>, other: Option<Names>) -> bool
    ensures { result ≡ are_same one other }
{
    match (one, other) {
        (Some(Names::Libraries), Some(Names::Libraries))
        | (Some(Names::Imports), Some(Names::Imports))
        | (Some(Names::Sections), Some(Names::Sections))
        | (Some(Names::Exports), Some(Names::Exports)) => true,
        _ => false,
    }
}

/// Returns what word `at` of a line refers to.
fn names_wanted(at: u8, line: &[u8]) -> Option<Names>
    ensures { result ≡ names_wanted at line.now }
{
    names_of_kind(line, kind_in(at, line)?)
}

/// Returns what word `at` of a line is.
pub fn kind_in(at: u8, line: &[u8]) -> Option<WordKind>
    ensures { result ≡ kind_in at line.now }
{
    let form = form_in(line)?;
    kind_after(form.words(), at)
}

/// Returns what word `at` of a line is, by what the words after the first are.
fn kind_after(kinds: &[WordKind], at: u8) -> Option<WordKind>
    ensures { result ≡ kind_after kinds.now at }
{
    if at == 0 {
        return None;
    }
    kinds.get(usize::from(at) - 1).copied()
}

/// Returns what a word of a line refers to, by its kind.
fn names_of_kind(line: &[u8], kind: WordKind) -> Option<Names>
    ensures { result ≡ names_of_kind line.now kind }
{
    match kind {
        WordKind::SectionName | WordKind::CodeName | WordKind::DataName => Some(Names::Sections),
        WordKind::BaseName if spells(word_in(3, line), "import") => Some(Names::Imports),
        WordKind::BaseName => Some(Names::Sections),
        WordKind::ImportName => Some(Names::Imports),
        _ => None,
    }
}
