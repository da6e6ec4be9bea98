//! What a file says of itself besides its forks, and how it is printed.
ghost use Rattle.std.specs.Prelude.{◌≡◌, ◌++◌, codes, option_map};
ghost use Rattle.std.specs.Option.{option_copied};
ghost use Rattle.pef_words.specs.Refusals.{result_map};
ghost use Rattle.pef_ports.specs.Names.{name_text};
ghost use Rattle.pef_ports.specs.Sent.{Sends};
ghost use Rattle.mac_forks.specs.Views.{mac_file_seen, part_seen};
ghost use Rattle.pef_rows.specs.Tokens.{token_text};
ghost use Rattle.mac_rows.specs.Records.{apple_dates, date_digits, date_opened, dates_in, dates_object, dates_words, finder_members, finder_object, finder_words, known_finder, name_object, name_words, record_in, record_line, record_member, record_of, record_with, since_1904};
ghost use Rattle.mac_rows.specs.Views.{record_seen};

use cfm_members::readable;
use mac_forks::{AppleDates, FinderInfo, ForkBytes, ForkFault, MacFile};
use pef_ports::{Page, Sink, StreamFault, send};
use pef_rows::{Token, name_column, number_or_null, print_tokens, text_if};

/// The beginning of 2000, in seconds since 1904.
const YEAR_2000: u32 = 3_029_529_600;

/// What a file in MacBinary, AppleSingle or AppleDouble says of itself, as far as it can be read.
#[derive(Clone, Copy)]
pub(crate) struct FileRecord<'a> {
    /// The name that the file had, in Mac Roman.
    pub name: Option<&'a [u8]>,
    pub finder: Option<FinderInfo>,
    pub dates: FileDates,
}

/// Dates in seconds since 1904.
#[derive(Clone, Copy, Debug, PartialEq, Eq)]
pub(crate) struct FileDates {
    pub created: Option<u32>,
    pub modified: Option<u32>,
}

impl<'a> FileRecord<'a> {
    /// Returns what a file says of itself, or `None` if it is in none of the formats.
    #[tactic(auto, unfolding(crate::specs::Records::record_of))]
    pub(crate) fn of(bytes: &'a [u8]) -> Option<FileRecord<'a>>
        ensures { option_map record_seen result ≡ record_of bytes.entry.now }
    {
        match MacFile::read(bytes) {
            Ok(file) => FileRecord::in_file(&file),
            Err(_) => None,
        }
    }

    /// Returns what a file in one of the formats says of itself.
    fn in_file(file: &MacFile<'a>) -> Option<FileRecord<'a>>
        ensures { option_map record_seen result ≡ option_map (record_with (mac_file_seen file.now)) (dates_in (mac_file_seen file.now)) }
    {
        let dates = dates_in(file)?;
        Some(FileRecord {
            name: bytes_of(readable(file.name())),
            finder: known_finder(file.finder()),
            dates,
        })
    }

    /// Prints what the file says of itself as a line.
    fn print_line<W: Sink>(self, out: &mut W, page: &mut Page) -> Result<(), StreamFault>
        ensures { Sends result (W.stream out.old) (W.stream out.new) page.old.items page.new.items (name_words (option_copied self.entry.name) ++ (finder_words self.entry.finder ++ dates_words self.entry.dates)) }
    {
        print_name(out, page, self.name)?;
        print_finder(out, page, self.finder)?;
        self.dates.print(out, page)
    }

    /// Prints what the file says of itself as a member of the file's object.
    fn print_object<W: Sink>(self, out: &mut W, page: &mut Page) -> Result<(), StreamFault>
        ensures { Sends result (W.stream out.old) (W.stream out.new) page.old.items page.new.items (name_object (option_copied self.entry.name) ++ (finder_object self.entry.finder ++ dates_object self.entry.dates)) }
    {
        print_name_member(out, page, self.name)?;
        print_finder_object(out, page, self.finder)?;
        self.dates.print_members(out, page)
    }
}

/// Prints what a file says of itself as a line, if it is in one of the formats.
pub fn print_record_line<W: Sink>(
    out: &mut W,
    page: &mut Page,
    bytes: &[u8],
) -> Result<(), StreamFault>
    ensures { Sends result (W.stream out.old) (W.stream out.new) page.old.items page.new.items (record_line (record_of bytes.now)) }
{
    match FileRecord::of(bytes) {
        Some(record) => record.print_line(out, page),
        None => print_tokens(out, page, &[]),
    }
}

/// Prints the end of the list of forks, and what a file says of itself as a member of its object.
pub fn print_record_member<W: Sink>(
    out: &mut W,
    page: &mut Page,
    bytes: &[u8],
) -> Result<(), StreamFault>
    ensures { Sends result (W.stream out.old) (W.stream out.new) page.old.items page.new.items (record_member (record_of bytes.now)) }
{
    match FileRecord::of(bytes) {
        Some(record) => record.print_object(out, page),
        None => send(out, page, b"],\"mac\":null"),
    }
}

/// Returns the bytes of a part.
fn bytes_of<'a>(part: Option<ForkBytes<'a>>) -> Option<&'a [u8]>
    ensures { option_copied result ≡ option_map (λ part. part.bytes) (option_map part_seen part.entry) }
{
    match part {
        Some(part) => Some(part.bytes),
        None => None,
    }
}

/// Returns what the Finder knows, without the error of its entry.
fn known_finder(finder: Option<Result<FinderInfo, ForkFault>>) -> Option<FinderInfo>
    ensures { result ≡ known_finder finder }
{
    match finder {
        Some(Ok(info)) => Some(info),
        Some(Err(_)) | None => None,
    }
}

/// Returns the dates of a file in one of the formats.
fn dates_in(file: &MacFile<'_>) -> Option<FileDates>
    ensures { result ≡ dates_in (mac_file_seen file.now) }
{
    match file {
        MacFile::Bare(_) => None,
        MacFile::MacBinary(file) => Some(FileDates {
            created: Some(file.header.created),
            modified: Some(file.header.modified),
        }),
        MacFile::Apple(file) => Some(apple_dates(file.dates())),
    }
}

/// Returns the dates of AppleSingle or AppleDouble.
fn apple_dates(dates: Option<Result<AppleDates, ForkFault>>) -> FileDates
    ensures { result ≡ apple_dates dates }
{
    match dates {
        Some(Ok(dates)) => FileDates {
            created: since_1904(dates.created),
            modified: since_1904(dates.modified),
        },
        Some(Err(_)) | None => FileDates {
            created: None,
            modified: None,
        },
    }
}

/// Returns a date that counts from 2000 as one that counts from 1904, if it is known and 32 bits hold it.
fn since_1904(date: i32) -> Option<u32>
    ensures { result ≡ since_1904 date }
{
    if date >= 0 {
        YEAR_2000.checked_add(date.unsigned_abs())
    } else if date == i32::MIN {
        None
    } else {
        Some(YEAR_2000 - date.unsigned_abs())
    }
}

/// Prints the beginning of the line, with the name.
#[tactic(auto, unfolding(crate::specs::Records::name_words))]
fn print_name<W: Sink>(out: &mut W, page: &mut Page, name: Option<&[u8]>) -> Result<(), StreamFault>
    ensures { Sends result (W.stream out.old) (W.stream out.new) page.old.items page.new.items (name_words (option_copied name.entry)) }
{
    match name {
        Some(name) => print_tokens(out, page, &[Token::Text(b"mac name "), name_column(name)]),
        None => send(out, page, b"mac"),
    }
}

/// Prints the type and the creator in a line.
fn print_finder<W: Sink>(
    out: &mut W,
    page: &mut Page,
    finder: Option<FinderInfo>,
) -> Result<(), StreamFault>
    ensures { Sends result (W.stream out.old) (W.stream out.new) page.old.items page.new.items (finder_words finder) }
{
    match finder {
        Some(info) => print_characters(
            out,
            page,
            &info.file_type.to_be_bytes(),
            &info.creator.to_be_bytes(),
        ),
        None => print_tokens(out, page, &[]),
    }
}

/// Prints the characters of a type and a creator in a line.
fn print_characters<'a, W: Sink>(
    out: &mut W,
    page: &mut Page,
    file_type: &'a [u8],
    creator: &'a [u8],
) -> Result<(), StreamFault>
    ensures { Sends result (W.stream out.old) (W.stream out.new) page.old.items page.new.items (codes " type " ++ name_text file_type.entry.now ++ codes " creator " ++ name_text creator.entry.now) }
{
    print_tokens(
        out,
        page,
        &[
            Token::Text(b" type "),
            Token::Name(file_type),
            Token::Text(b" creator "),
            Token::Name(creator),
        ],
    )
}

/// Prints the name as the first member of an object.
#[tactic(auto, unfolding(crate::specs::Records::name_object))]
fn print_name_member<W: Sink>(
    out: &mut W,
    page: &mut Page,
    name: Option<&[u8]>,
) -> Result<(), StreamFault>
    ensures { Sends result (W.stream out.old) (W.stream out.new) page.old.items page.new.items (name_object (option_copied name.entry)) }
{
    print_tokens(
        out,
        page,
        &[
            Token::Text(b"],\"mac\":{"),
            Token::NameMember(b"name", name),
        ],
    )
}

/// Prints the type, the creator and the flags as members of an object.
fn print_finder_object<W: Sink>(
    out: &mut W,
    page: &mut Page,
    finder: Option<FinderInfo>,
) -> Result<(), StreamFault>
    ensures { Sends result (W.stream out.old) (W.stream out.new) page.old.items page.new.items (finder_object finder) }
{
    match finder {
        Some(info) => print_finder_members(out, page, info),
        None => send(out, page, b",\"type\":null,\"creator\":null,\"flags\":null"),
    }
}

/// Prints the type, the creator and the flags that are there.
#[tactic(auto, unfolding(crate::specs::Records::finder_members))]
fn print_finder_members<W: Sink>(
    out: &mut W,
    page: &mut Page,
    info: FinderInfo,
) -> Result<(), StreamFault>
    ensures { Sends result (W.stream out.old) (W.stream out.new) page.old.items page.new.items (finder_members info) }
{
    print_tokens(
        out,
        page,
        &[
            Token::Text(b",\"type\":\""),
            Token::Tag(info.file_type),
            Token::Text(b"\",\"creator\":\""),
            Token::Tag(info.creator),
            Token::Text(b"\",\"flags\":"),
            Token::Number(u64::from(info.flags)),
        ],
    )
}

impl FileDates {
    /// Prints the dates in a line, and its end.
    #[tactic(auto, unfolding(crate::specs::Records::dates_words))]
    fn print<W: Sink>(self, out: &mut W, page: &mut Page) -> Result<(), StreamFault>
        ensures { Sends result (W.stream out.old) (W.stream out.new) page.old.items page.new.items (dates_words self) }
    {
        print_tokens(
            out,
            page,
            &[
                text_if(self.created.is_some(), b" created "),
                date_digits(self.created),
                text_if(self.modified.is_some(), b" modified "),
                date_digits(self.modified),
                Token::Text(b"\n"),
            ],
        )
    }

    /// Prints the dates as members of an object, and its end.
    #[tactic(auto, unfolding(crate::specs::Records::dates_object))]
    fn print_members<W: Sink>(self, out: &mut W, page: &mut Page) -> Result<(), StreamFault>
        ensures { Sends result (W.stream out.old) (W.stream out.new) page.old.items page.new.items (dates_object self) }
    {
        print_tokens(
            out,
            page,
            &[
                Token::Text(b",\"created\":"),
                number_or_null(number_of(self.created)),
                Token::Text(b",\"created_text\":"),
                Token::Text(date_opened(self.created)),
                date_digits(self.created),
                text_if(self.created.is_some(), b"\""),
                Token::Text(b",\"modified\":"),
                number_or_null(number_of(self.modified)),
                Token::Text(b",\"modified_text\":"),
                Token::Text(date_opened(self.modified)),
                date_digits(self.modified),
                text_if(self.modified.is_some(), b"\""),
                Token::Text(b"}"),
            ],
        )
    }
}

/// Returns a date as a number.
fn number_of(date: Option<u32>) -> Option<u64>
    ensures { result ≡ date }
{
    match date {
        Some(date) => Some(u64::from(date)),
        None => None,
    }
}

/// Returns a date as text, if there is one.
fn date_digits(date: Option<u32>) -> Token<'static>
    ensures { token_text result ≡ date_digits date }
{
    match date {
        Some(date) => Token::Date(date),
        None => Token::Text(b""),
    }
}

/// Returns what a date in JSON begins with.
fn date_opened(date: Option<u32>) -> &'static [u8]
    ensures { result.now ≡ date_opened date }
{
    match date {
        Some(_) => b"\"",
        None => b"null",
    }
}
