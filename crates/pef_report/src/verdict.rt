//! The verdict on a container: its state, and which of its parts are whole.
ghost use Rattle.std.specs.Prelude.{◌≡◌};
ghost use Rattle.pef_ports.specs.Sent.{Sends};
ghost use Rattle.pef_views.specs.Partial.{partial_of};
ghost use Rattle.pef_report.specs.Verdict.{architecture_of, damages, error_state, has_number, has_other, is_about, is_damaged, is_m68k, is_other, is_stub, is_unlikely, part_state, sound_state, state_of, state_word, verdict_line, verdict_object, verdict_of};

use pef_format::Part;
use pef_inspect::{Finding, needed};
use pef_ports::{Page, Sink, StreamFault};
use pef_rows::{Token, print_tokens, text_if, truth};
use pef_views::PartialContainer;

/// The architecture of CFM-68K, `m68k`.
const M68K: u32 = 0x6D36_386B;

/// The numbers of the errors and notes that a verdict depends on.
const BAD_ARCHITECTURE: u32 = 3;

const BAD_FORMAT_VERSION: u32 = 4;

const BAD_SECTION_KIND: u32 = 7;

const NO_LOADER: u32 = 10;

const SECTIONS_OUT_OF_ORDER: u32 = 116;

const TEXT_DAMAGE: u32 = 124;

/// The state of a container. The first that it is in counts.
#[derive(Clone, Copy, Debug, PartialEq, Eq)]
pub(crate) enum State {
    /// The bytes are hardly a container: neither the architecture nor the version of the format is one that there is.
    Unlikely,
    /// It needs more bytes than it has.
    Cut,
    /// Its loader section counts as instantiated, as in stub libraries, and nothing else is wrong.
    Stub,
    /// It is for CFM-68K, and nothing else is wrong.
    M68k,
    Damaged,
    /// It has no error.
    Whole,
}

/// The verdict on a container. The flag of some parts says that an error is about them.
#[derive(Clone, Copy, Debug)]
pub(crate) struct Verdict {
    /// How many bytes its headers and sections need.
    pub needs: u64,
    /// How many bytes it has, up to where its member, its resource, its fork or its file ends.
    pub has: u64,
    pub state: State,
    pub sections: bool,
    pub imports: bool,
    pub exports: bool,
    pub relocations: bool,
    /// Whether it was probably changed as text is.
    pub as_text: bool,
}

/// Parts of a container that an error can be about.
#[derive(Clone, Copy, Debug, PartialEq, Eq)]
pub(crate) enum Group {
    Any,
    Sections,
    Imports,
    Exports,
    Relocations,
}

impl Verdict {
    /// Returns the verdict on a container with these errors and notes.
    #[tactic(auto, unfolding(crate::specs::Verdict::verdict_of))]
    pub(crate) fn of(bytes: &[u8], findings: &[Finding]) -> Verdict
        ensures { result ≡ verdict_of bytes.now findings.now }
    {
        let needs = needed(bytes);
        let has = bytes.len() as u64;
        let is_read = has_number(SECTIONS_OUT_OF_ORDER, findings);
        Verdict {
            needs,
            has,
            state: state_of(architecture(bytes), has < needs, findings),
            sections: is_damaged(Group::Sections, is_read, findings),
            imports: is_damaged(Group::Imports, is_read, findings),
            exports: is_damaged(Group::Exports, is_read, findings),
            relocations: is_damaged(Group::Relocations, is_read, findings),
            as_text: has_number(TEXT_DAMAGE, findings),
        }
    }

    /// Prints the verdict as a line.
    #[tactic(auto, unfolding(crate::specs::Verdict::verdict_line))]
    pub(crate) fn print<W: Sink>(self, out: &mut W, page: &mut Page) -> Result<(), StreamFault>
        ensures { Sends result (W.stream out.old) (W.stream out.new) page.old.items page.new.items (verdict_line self) }
    {
        print_tokens(
            out,
            page,
            &[
                Token::Text(b"verdict "),
                Token::Text(state_word(self.state)),
                Token::Text(b" needs "),
                Token::Number(self.needs),
                Token::Text(b" has "),
                Token::Number(self.has),
                Token::Text(b" sections "),
                Token::Text(part_state(self.sections)),
                Token::Text(b" imports "),
                Token::Text(part_state(self.imports)),
                Token::Text(b" exports "),
                Token::Text(part_state(self.exports)),
                Token::Text(b" relocations "),
                Token::Text(part_state(self.relocations)),
                text_if(self.as_text, b" transferred as text"),
                Token::Text(b"\n"),
            ],
        )
    }

    /// Prints the verdict as the last member of a container's object, and the object's end.
    #[tactic(auto, unfolding(crate::specs::Verdict::verdict_object))]
    pub(crate) fn print_member<W: Sink>(
        self,
        out: &mut W,
        page: &mut Page,
    ) -> Result<(), StreamFault>
        ensures { Sends result (W.stream out.old) (W.stream out.new) page.old.items page.new.items (verdict_object self) }
    {
        print_tokens(
            out,
            page,
            &[
                Token::Text(b"],\"verdict\":{\"state\":\""),
                Token::Text(state_word(self.state)),
                Token::Text(b"\",\"needs\":"),
                Token::Number(self.needs),
                Token::Text(b",\"has\":"),
                Token::Number(self.has),
                Token::Text(b",\"sections\":\""),
                Token::Text(part_state(self.sections)),
                Token::Text(b"\",\"imports\":\""),
                Token::Text(part_state(self.imports)),
                Token::Text(b"\",\"exports\":\""),
                Token::Text(part_state(self.exports)),
                Token::Text(b"\",\"relocations\":\""),
                Token::Text(part_state(self.relocations)),
                Token::Text(b"\",\"as_text\":"),
                Token::Text(truth(self.as_text)),
                Token::Text(b"}}"),
            ],
        )
    }
}

/// Returns the architecture in the header of the container that begins some bytes, or 0 without a header.
fn architecture(bytes: &[u8]) -> u32
    ensures { result ≡ architecture_of (partial_of bytes.now) }
{
    match PartialContainer::read(bytes) {
        Ok(container) => container.header().architecture,
        Err(_) => 0,
    }
}

/// Returns the state of a container with an architecture.
fn state_of(architecture: u32, is_cut: bool, findings: &[Finding]) -> State
    ensures { result ≡ state_of architecture is_cut findings.now }
{
    if is_unlikely(architecture, findings) {
        State::Unlikely
    } else if is_cut {
        State::Cut
    } else {
        sound_state(architecture, findings)
    }
}

/// Returns the state of a container that isn't cut.
fn sound_state(architecture: u32, findings: &[Finding]) -> State
    ensures { result ≡ sound_state architecture findings.now }
{
    if is_damaged(Group::Any, true, findings) {
        error_state(architecture, findings)
    } else {
        State::Whole
    }
}

/// Returns the state of a container that isn't cut and has errors.
fn error_state(architecture: u32, findings: &[Finding]) -> State
    ensures { result ≡ error_state architecture findings.now }
{
    if is_stub(findings) {
        State::Stub
    } else if is_m68k(architecture, findings) {
        State::M68k
    } else {
        State::Damaged
    }
}

/// Returns whether bytes are hardly a container.
fn is_unlikely(architecture: u32, findings: &[Finding]) -> bool
    ensures { result ≡ is_unlikely architecture findings.now }
{
    has_number(BAD_ARCHITECTURE, findings)
        && has_number(BAD_FORMAT_VERSION, findings)
        && architecture != M68K
}

/// Returns whether nothing is wrong but that the loader section counts as instantiated.
fn is_stub(findings: &[Finding]) -> bool
    ensures { result ≡ is_stub findings.now }
{
    has_number(SECTIONS_OUT_OF_ORDER, findings) && !has_other(BAD_SECTION_KIND, NO_LOADER, findings)
}

/// Returns whether nothing is wrong but that a container is for CFM-68K.
fn is_m68k(architecture: u32, findings: &[Finding]) -> bool
    ensures { result ≡ is_m68k architecture findings.now }
{
    architecture == M68K && !has_other(BAD_ARCHITECTURE, BAD_ARCHITECTURE, findings)
}

/// Returns whether one of the findings has a number.
fn has_number(number: u32, findings: &[Finding]) -> bool
    ensures { result ≡ has_number number findings.now }
{
    for finding in findings {
        if finding.number() == number {
            return true;
        }
    }
    false
}

/// Returns whether an error has neither of two numbers.
fn has_other(one: u32, two: u32, findings: &[Finding]) -> bool
    ensures { result ≡ has_other one two findings.now }
{
    for finding in findings {
        if is_other(one, two, *finding) {
            return true;
        }
    }
    false
}

/// Returns whether a finding is an error that has neither of two numbers.
fn is_other(one: u32, two: u32, finding: Finding) -> bool
    ensures { result ≡ is_other one two finding }
{
    finding.is_error() && !(finding.number() == one || finding.number() == two)
}

/// Returns whether an error is about some parts. If there is no loader section among those that aren't instantiated, another one may
/// be read.
fn is_damaged(which: Group, is_read: bool, findings: &[Finding]) -> bool
    ensures { result ≡ is_damaged which is_read findings.now }
{
    for finding in findings {
        if damages(which, is_read, *finding) {
            return true;
        }
    }
    false
}

/// Returns whether a finding is an error about some parts.
fn damages(which: Group, is_read: bool, finding: Finding) -> bool
    ensures { result ≡ damages which is_read finding }
{
    finding.is_error() && is_about(which, is_read, finding.number(), finding.place.part)
}

/// Returns whether an error with a number is about some parts, by the part at which it is.
fn is_about(which: Group, is_read: bool, number: u32, part: Part) -> bool
    ensures { result ≡ is_about which is_read number part }
{
    match which {
        Group::Any => true,
        Group::Sections => match part {
            Part::Section | Part::PackedData => true,
            Part::Header => number == 1,
            _ => false,
        },
        Group::Imports => match part {
            Part::Library | Part::Import => true,
            Part::LoaderHeader => number == 11 || number == 12,
            Part::Section => number == 11,
            Part::Header => number == 1 || number == 10 && !is_read,
            _ => false,
        },
        Group::Exports => match part {
            Part::Export => true,
            Part::LoaderHeader => number == 11 || number == 19,
            Part::Section => number == 11,
            Part::Header => number == 1 || number == 10 && !is_read,
            _ => false,
        },
        Group::Relocations => match part {
            Part::Relocation | Part::Program => true,
            Part::LoaderHeader => number == 11 || number == 12,
            Part::Section => number == 11,
            Part::Header => number == 1 || number == 10 && !is_read,
            _ => false,
        },
    }
}

/// Returns the word for the state of a container.
fn state_word(state: State) -> &'static [u8]
    ensures { result.now ≡ state_word state }
{
    match state {
        State::Unlikely => b"unlikely",
        State::Cut => b"cut",
        State::Stub => b"stub",
        State::M68k => b"m68k",
        State::Damaged => b"damaged",
        State::Whole => b"whole",
    }
}

/// Returns the word for the state of parts of a container.
fn part_state(damaged: bool) -> &'static [u8]
    ensures { result.now ≡ part_state damaged }
{
    if damaged { b"damaged" } else { b"whole" }
}
