//! What is found in a file besides its containers, and how it is printed.
ghost use Rattle.std.specs.Prelude.{◌≡◌, ◌++◌, codes, true};
ghost use Rattle.pef_ports.specs.Sent.{Sends};
ghost use Rattle.pef_rows.specs.Tokens.{token_text};
ghost use Rattle.pef_rows.specs.Objects.{separator};
ghost use Rattle.mac_rows.specs.FileFindings.{finding_line, finding_members, finding_name, finding_number, finding_object, finding_offset, finding_part, finding_row, finding_start_line, finding_start_object, finding_tail, finding_text, finding_word, findings_text, format_members, format_word, none_of, opener_word, row_digits};

use crate::member_table::FileError;
use crate::output_format::OutputFormat;
use pef_ports::{Page, Sink, StreamFault, send};
use pef_rows::{Token, at_digits, at_word, number_or_null, print_separator, print_tokens, text_if};

/// An error of a file, or a note on it, that isn't about one of its containers. Its place is an offset in the file.
#[derive(Clone, Copy, Debug, PartialEq, Eq)]
pub enum FileFinding {
    /// An error of the wrapping of the file, of its resources or of its fragments.
    Error(FileError),
    /// `length` bytes follow the forks of MacBinary.
    BytesAfterForks { at: u64, length: u64 },
    /// The container of a member of the table of fragments needs `length` bytes more than the member has.
    FragmentShort { at: u64, member: u64, length: u64 },
    /// The container of a member is in a data fork that isn't there.
    DataForkElsewhere { at: u64, member: u64 },
    /// The data fork is in another format, and isn't unpacked.
    NotUnpacked { at: u64, format: OtherFormat },
    /// The architecture of a member isn't that of its container, or is none that there is.
    FragmentArchitecture { at: u64, member: u64 },
    /// The usage of a member is a code that the format doesn't name.
    FragmentUsage { at: u64, member: u64 },
}

/// A format that is recognised and not read.
#[derive(Clone, Copy, Debug, PartialEq, Eq)]
pub enum OtherFormat {
    StuffIt,
    CompactPro,
    BinHex,
    Zip,
    /// An image of a disk by DiskCopy 4.2.
    DiskCopy,
    Hfs,
    HfsPlus,
    /// A disk with Apple's partition map.
    PartitionMap,
    Iso9660,
}

/// Prints errors or notes: lines, or objects of JSON with commas between them.
pub fn print_findings<W: Sink>(
    out: &mut W,
    page: &mut Page,
    form: OutputFormat,
    findings: &[FileFinding],
) -> Result<(), StreamFault>
    ensures { Sends result (W.stream out.old) (W.stream out.new) page.old.items page.new.items (findings_text form true findings.now) }
{
    let mut is_first = true;
    for finding in findings {
        finding.print(out, page, form, is_first)?;
        is_first = false;
    }
    Ok(())
}

impl FileFinding {
    /// Returns its number. No note has that of another one, or of a note on a container.
    fn number(self) -> u32
        ensures { result ≡ finding_number self }
    {
        match self {
            FileFinding::Error(found) => found.fault.number(),
            FileFinding::BytesAfterForks { .. } => 117,
            FileFinding::FragmentShort { .. } => 118,
            FileFinding::DataForkElsewhere { .. } => 119,
            FileFinding::NotUnpacked { .. } => 120,
            FileFinding::FragmentArchitecture { .. } => 122,
            FileFinding::FragmentUsage { .. } => 123,
        }
    }

    /// Returns its name.
    fn name(self) -> &'static str
        ensures { result.now ≡ finding_name self }
    {
        match self {
            FileFinding::Error(found) => found.fault.name(),
            FileFinding::BytesAfterForks { .. } => "BytesAfterForks",
            FileFinding::FragmentShort { .. } => "FragmentShort",
            FileFinding::DataForkElsewhere { .. } => "DataForkElsewhere",
            FileFinding::NotUnpacked { .. } => "NotUnpacked",
            FileFinding::FragmentArchitecture { .. } => "FragmentArchitecture",
            FileFinding::FragmentUsage { .. } => "FragmentUsage",
        }
    }

    /// Returns the word for the part of the file that it is about.
    fn part(self) -> &'static [u8]
        ensures { result.now ≡ finding_part self }
    {
        match self {
            FileFinding::Error(found) => found.part(),
            FileFinding::BytesAfterForks { .. } | FileFinding::NotUnpacked { .. } => b"fork",
            FileFinding::FragmentShort { .. }
            | FileFinding::DataForkElsewhere { .. }
            | FileFinding::FragmentArchitecture { .. }
            | FileFinding::FragmentUsage { .. } => b"fragment",
        }
    }

    /// Returns the number of the entry or the member that it is about.
    fn row(self) -> Option<u64>
        ensures { result ≡ finding_row self }
    {
        match self {
            FileFinding::Error(found) => found.row(),
            FileFinding::BytesAfterForks { .. } | FileFinding::NotUnpacked { .. } => None,
            FileFinding::FragmentShort { member, .. }
            | FileFinding::DataForkElsewhere { member, .. }
            | FileFinding::FragmentArchitecture { member, .. }
            | FileFinding::FragmentUsage { member, .. } => Some(member),
        }
    }

    /// Returns the offset in the file of what it is about.
    fn offset(self) -> Option<u64>
        ensures { result ≡ finding_offset self }
    {
        match self {
            FileFinding::Error(found) => found.offset(),
            FileFinding::BytesAfterForks { at, .. }
            | FileFinding::FragmentShort { at, .. }
            | FileFinding::DataForkElsewhere { at, .. }
            | FileFinding::NotUnpacked { at, .. }
            | FileFinding::FragmentArchitecture { at, .. }
            | FileFinding::FragmentUsage { at, .. } => Some(at),
        }
    }

    /// Returns what a line begins with.
    fn word(self) -> &'static [u8]
        ensures { result.now ≡ finding_word self }
    {
        match self {
            FileFinding::Error(_) => b"error ",
            FileFinding::BytesAfterForks { .. }
            | FileFinding::FragmentShort { .. }
            | FileFinding::DataForkElsewhere { .. }
            | FileFinding::NotUnpacked { .. }
            | FileFinding::FragmentArchitecture { .. }
            | FileFinding::FragmentUsage { .. } => b"note ",
        }
    }

    /// Prints it. In JSON a comma comes before it, unless it is the first one.
    fn print<W: Sink>(
        self,
        out: &mut W,
        page: &mut Page,
        form: OutputFormat,
        is_first: bool,
    ) -> Result<(), StreamFault>
        ensures { Sends result (W.stream out.old) (W.stream out.new) page.old.items page.new.items (finding_text form is_first self) }
    {
        match form {
            OutputFormat::Text => self.print_line(out, page),
            OutputFormat::Json => self.print_element(out, page, is_first),
        }
    }

    /// Prints it as an object of JSON, after a comma unless it is the first one.
    fn print_element<W: Sink>(
        self,
        out: &mut W,
        page: &mut Page,
        is_first: bool,
    ) -> Result<(), StreamFault>
        ensures { Sends result (W.stream out.old) (W.stream out.new) page.old.items page.new.items (separator is_first ++ finding_object self) }
    {
        print_separator(out, page, is_first)?;
        self.print_object(out, page)
    }

    /// Prints its line.
    fn print_line<W: Sink>(self, out: &mut W, page: &mut Page) -> Result<(), StreamFault>
        ensures { Sends result (W.stream out.old) (W.stream out.new) page.old.items page.new.items (finding_line self) }
    {
        self.print_line_start(out, page)?;
        self.print_tail(out, page)?;
        send(out, page, b"\n")
    }

    /// Prints the line up to what only some notes have.
    #[tactic(auto, unfolding(crate::specs::FileFindings::finding_start_line))]
    fn print_line_start<W: Sink>(self, out: &mut W, page: &mut Page) -> Result<(), StreamFault>
        ensures { Sends result (W.stream out.old) (W.stream out.new) page.old.items page.new.items (finding_start_line self) }
    {
        let row = self.row();
        let offset = self.offset();
        print_tokens(
            out,
            page,
            &[
                Token::Text(self.word()),
                Token::Number(u64::from(self.number())),
                Token::Text(b" "),
                Token::Text(self.name().as_bytes()),
                Token::Text(b" "),
                Token::Text(self.part()),
                text_if(row.is_some(), b" "),
                row_digits(row),
                Token::Text(at_word(offset)),
                at_digits(offset),
            ],
        )
    }

    /// Prints what only some notes have.
    fn print_tail<W: Sink>(self, out: &mut W, page: &mut Page) -> Result<(), StreamFault>
        ensures { Sends result (W.stream out.old) (W.stream out.new) page.old.items page.new.items (finding_tail self) }
    {
        match self {
            FileFinding::BytesAfterForks { length, .. }
            | FileFinding::FragmentShort { length, .. } => {
                print_tokens(
                    out,
                    page,
                    &[Token::Text(b" length "), Token::Number(length)],
                )
            }
            FileFinding::Error(_)
            | FileFinding::DataForkElsewhere { .. }
            | FileFinding::FragmentArchitecture { .. }
            | FileFinding::FragmentUsage { .. } => print_tokens(out, page, &[]),
            FileFinding::NotUnpacked { format, .. } => print_tokens(
                out,
                page,
                &[
                    Token::Text(b" format "),
                    Token::Text(format.word()),
                    Token::Text(b" open "),
                    Token::Text(format.opener()),
                ],
            ),
        }
    }

    /// Prints its object.
    fn print_object<W: Sink>(self, out: &mut W, page: &mut Page) -> Result<(), StreamFault>
        ensures { Sends result (W.stream out.old) (W.stream out.new) page.old.items page.new.items (finding_object self) }
    {
        self.print_object_start(out, page)?;
        self.print_members(out, page)?;
        send(out, page, b"}")
    }

    /// Prints the object up to the members that only some notes have.
    #[tactic(auto, unfolding(crate::specs::FileFindings::finding_start_object))]
    fn print_object_start<W: Sink>(self, out: &mut W, page: &mut Page) -> Result<(), StreamFault>
        ensures { Sends result (W.stream out.old) (W.stream out.new) page.old.items page.new.items (finding_start_object self) }
    {
        print_tokens(
            out,
            page,
            &[
                Token::Text(b"{\"number\":"),
                Token::Number(u64::from(self.number())),
                Token::Text(b",\"name\":\""),
                Token::Text(self.name().as_bytes()),
                Token::Text(b"\",\"part\":\""),
                Token::Text(self.part()),
                Token::Text(b"\",\"row\":"),
                number_or_null(self.row()),
                Token::Text(b",\"field\":null,\"offset\":"),
                number_or_null(self.offset()),
            ],
        )
    }

    /// Prints the members that only some notes have.
    fn print_members<W: Sink>(self, out: &mut W, page: &mut Page) -> Result<(), StreamFault>
        ensures { Sends result (W.stream out.old) (W.stream out.new) page.old.items page.new.items (finding_members self) }
    {
        match self {
            FileFinding::BytesAfterForks { length, .. }
            | FileFinding::FragmentShort { length, .. } => {
                print_tokens(
                    out,
                    page,
                    &[Token::Text(b",\"length\":"), Token::Number(length)],
                )
            }
            FileFinding::Error(_)
            | FileFinding::DataForkElsewhere { .. }
            | FileFinding::FragmentArchitecture { .. }
            | FileFinding::FragmentUsage { .. } => print_tokens(out, page, &[]),
            FileFinding::NotUnpacked { format, .. } => format.print_members(out, page),
        }
    }
}

impl OtherFormat {
    /// Prints the format and the program as members of an object.
    #[tactic(auto, unfolding(crate::specs::FileFindings::format_members))]
    fn print_members<W: Sink>(self, out: &mut W, page: &mut Page) -> Result<(), StreamFault>
        ensures { Sends result (W.stream out.old) (W.stream out.new) page.old.items page.new.items (format_members self) }
    {
        print_tokens(
            out,
            page,
            &[
                Token::Text(b",\"format\":\""),
                Token::Text(self.word()),
                Token::Text(b"\",\"open\":\""),
                Token::Text(self.opener()),
                Token::Text(b"\""),
            ],
        )
    }

    /// Returns the format in one word.
    fn word(self) -> &'static [u8]
        ensures { result.now ≡ format_word self }
    {
        match self {
            OtherFormat::StuffIt => b"stuffit",
            OtherFormat::CompactPro => b"compactpro",
            OtherFormat::BinHex => b"binhex",
            OtherFormat::Zip => b"zip",
            OtherFormat::DiskCopy => b"diskcopy",
            OtherFormat::Hfs => b"hfs",
            OtherFormat::HfsPlus => b"hfsplus",
            OtherFormat::PartitionMap => b"partitions",
            OtherFormat::Iso9660 => b"iso9660",
        }
    }

    /// Returns the name of a program that opens the format.
    fn opener(self) -> &'static [u8]
        ensures { result.now ≡ opener_word self }
    {
        match self {
            OtherFormat::StuffIt | OtherFormat::CompactPro | OtherFormat::BinHex => b"unar",
            OtherFormat::Zip => b"unzip",
            OtherFormat::DiskCopy | OtherFormat::Hfs => b"hfsutils",
            OtherFormat::HfsPlus | OtherFormat::PartitionMap | OtherFormat::Iso9660 => b"7z",
        }
    }
}

/// Returns the number of a row, if there is one.
fn row_digits(row: Option<u64>) -> Token<'static>
    ensures { token_text result ≡ row_digits row }
{
    match row {
        Some(row) => Token::Number(row),
        None => Token::Text(b""),
    }
}

/// Returns whether there are no notes.
pub fn none_of(notes: &[FileFinding]) -> bool
    ensures { result ≡ none_of notes.now }
{
    match notes {
        [] => true,
        _ => false,
    }
}
