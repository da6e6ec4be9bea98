//! What is printed of the members of a table of fragments.
ghost use Rattle.std.specs.Prelude.{◌≡◌, ◌++◌, codes, option_map, true};
ghost use Rattle.pef_ports.specs.Names.{name_text};
ghost use Rattle.cfm_members.specs.Members.{all_members};
ghost use Rattle.cfm_members.specs.Views.{member_seen, name_seen, row_seen};
ghost use Rattle.std.specs.Option.{option_copied};
ghost use Rattle.pef_ports.specs.Sent.{Sends};
ghost use Rattle.pef_rows.specs.Tokens.{token_text};
ghost use Rattle.pef_rows.specs.Objects.{separator};
ghost use Rattle.mac_rows.specs.DataFiles.{member_table_in};
ghost use Rattle.mac_rows.specs.Fragments.{architecture_text, extent_of, fragment_codes, fragment_fields, fragment_in, fragment_json, fragment_line, fragment_name, fragment_numbers, fragment_of, fragment_place, fragment_text, fragment_use, fragment_versions, fragments_text, maybe_fragment, name_of, name_or_mark, stays_first, table_text, usage_word, where_word, word_or_mark};
ghost use Rattle.mac_rows.specs.MacParts.{wrapping_of};
ghost use Rattle.mac_rows.specs.Views.{data_file_seen, fragment_seen, member_table_seen, place_seen};

use crate::data_file::{DataFile, member_table_in};
use crate::member_table::{ContainerPlace, MemberTable};
use crate::output_format::OutputFormat;
use crate::wrapping::Wrapping;
use cfm_members::{Locator, Member, MemberFault, Usage};
use pef_ports::{Page, Sink, StreamFault};
use pef_rows::{Token, at_or_dash, name_column, number_or_null, print_separator, print_tokens};

/// A member of a table of fragments, with its place in the file and that of its container.
#[derive(Clone, Copy)]
pub(crate) struct Fragment<'a> {
    pub at: u64,
    pub offset: Option<u64>,
    pub size: u64,
    pub member: Member<'a>,
}

/// Prints the members of the table of fragments of a file.
pub fn print_members<W: Sink>(
    out: &mut W,
    page: &mut Page,
    form: OutputFormat,
    bytes: &[u8],
    data_file: Option<DataFile<'_>>,
) -> Result<(), StreamFault>
    ensures { Sends result (W.stream out.old) (W.stream out.new) page.old.items page.new.items (table_text form (member_table_in (option_map data_file_seen data_file.entry) (wrapping_of bytes.now))) }
{
    let wrapping = Wrapping::of(bytes);
    print_table(out, page, form, member_table_in(data_file, wrapping))
}

/// Prints the members of a table of fragments, if there is one.
fn print_table<W: Sink>(
    out: &mut W,
    page: &mut Page,
    form: OutputFormat,
    table: Option<MemberTable<'_>>,
) -> Result<(), StreamFault>
    ensures { Sends result (W.stream out.old) (W.stream out.new) page.old.items page.new.items (table_text form (option_map member_table_seen table.entry)) }
{
    match table {
        Some(table) => print_fragments(out, page, form, table),
        None => print_tokens(out, page, &[]),
    }
}

/// Prints all members of a table of fragments whose fields can be read.
fn print_fragments<W: Sink>(
    out: &mut W,
    page: &mut Page,
    form: OutputFormat,
    table: MemberTable<'_>,
) -> Result<(), StreamFault>
    ensures { Sends result (W.stream out.old) (W.stream out.new) page.old.items page.new.items (fragments_text form true (member_table_seen table.entry) (all_members (member_table_seen table.entry).fragments)) }
{
    let mut is_first = true;
    for row in table.fragments.members() {
        let fragment = fragment_in(table, row);
        print_maybe(out, page, form, is_first, fragment)?;
        is_first = stays_first(is_first, fragment);
    }
    Ok(())
}

/// Returns the member of a row, if its fields can be read.
fn fragment_in<'a>(
    table: MemberTable<'_>,
    row: Result<Member<'a>, MemberFault>,
) -> Option<Fragment<'a>>
    ensures { option_map fragment_seen result ≡ fragment_in (member_table_seen table.entry) (row_seen row.entry) }
{
    match row {
        Ok(member) => Some(fragment_of(table, member)),
        Err(_) => None,
    }
}

/// Returns whether the next member is the first one that is printed.
fn stays_first(is_first: bool, fragment: Option<Fragment<'_>>) -> bool
    ensures { result ≡ stays_first is_first (option_map fragment_seen fragment.entry) }
{
    match fragment {
        Some(_) => false,
        None => is_first,
    }
}

/// Prints a member, if there is one.
fn print_maybe<W: Sink>(
    out: &mut W,
    page: &mut Page,
    form: OutputFormat,
    is_first: bool,
    fragment: Option<Fragment<'_>>,
) -> Result<(), StreamFault>
    ensures { Sends result (W.stream out.old) (W.stream out.new) page.old.items page.new.items (maybe_fragment form is_first (option_map fragment_seen fragment.entry)) }
{
    match fragment {
        Some(fragment) => print_fragment(out, page, form, is_first, fragment),
        None => print_tokens(out, page, &[]),
    }
}

/// Returns a member with its place in the file and that of its container.
fn fragment_of<'a>(table: MemberTable<'_>, member: Member<'a>) -> Fragment<'a>
    ensures { fragment_seen result ≡ fragment_of (member_table_seen table.entry) (member_seen member.entry) }
{
    let (offset, size) = extent_of(table.place_of(member));
    Fragment {
        at: table.table_base.saturating_add(member.offset as u64),
        offset,
        size,
        member,
    }
}

/// Returns the offset in the file of a container and its length, if they are known.
fn extent_of(place: ContainerPlace<'_>) -> (Option<u64>, u64)
    ensures { result ≡ extent_of (place_seen place.entry) }
{
    match place {
        ContainerPlace::Lying { at, bytes } => (Some(at), bytes.len() as u64),
        ContainerPlace::Elsewhere | ContainerPlace::Missing(_) => (None, 0),
    }
}

/// Prints a member. In JSON a comma comes before it, unless it is the first one.
fn print_fragment<W: Sink>(
    out: &mut W,
    page: &mut Page,
    form: OutputFormat,
    is_first: bool,
    fragment: Fragment<'_>,
) -> Result<(), StreamFault>
    ensures { Sends result (W.stream out.old) (W.stream out.new) page.old.items page.new.items (fragment_text form is_first (fragment_seen fragment.entry)) }
{
    match form {
        OutputFormat::Text => fragment.print_line(out, page),
        OutputFormat::Json => print_element(out, page, is_first, fragment),
    }
}

/// Prints a member as an object of JSON, after a comma unless it is the first one.
fn print_element<W: Sink>(
    out: &mut W,
    page: &mut Page,
    is_first: bool,
    fragment: Fragment<'_>,
) -> Result<(), StreamFault>
    ensures { Sends result (W.stream out.old) (W.stream out.new) page.old.items page.new.items (separator is_first ++ fragment_json (fragment_seen fragment.entry)) }
{
    print_separator(out, page, is_first)?;
    fragment.print_object(out, page)
}

impl<'a> Fragment<'a> {
    /// Prints the line of the member.
    fn print_line<W: Sink>(self, out: &mut W, page: &mut Page) -> Result<(), StreamFault>
        ensures { Sends result (W.stream out.old) (W.stream out.new) page.old.items page.new.items (fragment_line (fragment_seen self.entry)) }
    {
        self.print_name(out, page)?;
        print_architecture(out, page, self.member.header.architecture)?;
        self.print_use(out, page)?;
        self.print_numbers(out, page)
    }

    /// Prints where the member is, its number and its name.
    #[tactic(auto, unfolding(crate::specs::Fragments::fragment_name))]
    fn print_name<W: Sink>(self, out: &mut W, page: &mut Page) -> Result<(), StreamFault>
        ensures { Sends result (W.stream out.old) (W.stream out.new) page.old.items page.new.items (fragment_name (fragment_seen self.entry)) }
    {
        print_tokens(
            out,
            page,
            &[
                Token::At(self.at),
                Token::Text(b" fragment "),
                Token::Number(u64::from(self.member.member)),
                Token::Text(b" "),
                name_or_mark(self.member.name),
            ],
        )
    }

    /// Prints what the member is for, and where its container is.
    #[tactic(auto, unfolding(crate::specs::Fragments::fragment_use))]
    fn print_use<W: Sink>(self, out: &mut W, page: &mut Page) -> Result<(), StreamFault>
        ensures { Sends result (W.stream out.old) (W.stream out.new) page.old.items page.new.items (fragment_use (fragment_seen self.entry)) }
    {
        let header = self.member.header;
        print_tokens(
            out,
            page,
            &[
                Token::Text(b" usage "),
                Token::Number(u64::from(header.usage_code)),
                Token::Text(b" "),
                Token::Text(word_or_mark(usage_word(header.usage()))),
                Token::Text(b" where "),
                Token::Number(u64::from(header.where_code)),
                Token::Text(b" "),
                Token::Text(word_or_mark(where_word(header.locator()))),
                Token::Text(b" container "),
                at_or_dash(self.offset),
                Token::Text(b" size "),
                Token::Number(self.size),
            ],
        )
    }

    /// Prints the other fields of the member.
    #[tactic(auto, unfolding(crate::specs::Fragments::fragment_numbers))]
    fn print_numbers<W: Sink>(self, out: &mut W, page: &mut Page) -> Result<(), StreamFault>
        ensures { Sends result (W.stream out.old) (W.stream out.new) page.old.items page.new.items (fragment_numbers (fragment_seen self.entry)) }
    {
        let header = self.member.header;
        print_tokens(
            out,
            page,
            &[
                Token::Text(b" versions "),
                Token::Version(header.current_version),
                Token::Text(b" "),
                Token::Version(header.old_def_version),
                Token::Text(b" current "),
                Token::Number(u64::from(header.current_version)),
                Token::Text(b" olddef "),
                Token::Number(u64::from(header.old_def_version)),
                Token::Text(b" level "),
                Token::Number(u64::from(header.update_level)),
                Token::Text(b" stack "),
                Token::Number(u64::from(header.stack_size)),
                Token::Text(b" directory "),
                Token::Number(u64::from(header.directory_or_flags)),
                Token::Text(b" place "),
                Token::Word(header.offset),
                Token::Text(b" length "),
                Token::Number(u64::from(header.length)),
                Token::Text(b" space "),
                Token::Number(u64::from(header.space_id)),
                Token::Text(b" instance "),
                Token::Number(u64::from(header.fork_instance)),
                Token::Text(b" extensions "),
                Token::Number(u64::from(header.extension_count)),
                Token::Text(b"\n"),
            ],
        )
    }

    /// Prints the object of the member.
    fn print_object<W: Sink>(self, out: &mut W, page: &mut Page) -> Result<(), StreamFault>
        ensures { Sends result (W.stream out.old) (W.stream out.new) page.old.items page.new.items (fragment_json (fragment_seen self.entry)) }
    {
        self.print_place(out, page)?;
        self.print_codes(out, page)?;
        self.print_versions(out, page)?;
        self.print_fields(out, page)
    }

    /// Prints the beginning of the object: the member's name, where its container and the member are, and its architecture.
    #[tactic(auto, unfolding(crate::specs::Fragments::fragment_place))]
    fn print_place<W: Sink>(self, out: &mut W, page: &mut Page) -> Result<(), StreamFault>
        ensures { Sends result (W.stream out.old) (W.stream out.new) page.old.items page.new.items (fragment_place (fragment_seen self.entry)) }
    {
        let header = self.member.header;
        print_tokens(
            out,
            page,
            &[
                Token::Text(b"{"),
                Token::NameMember(b"name", name_of(self.member.name)),
                Token::Text(b",\"offset\":"),
                number_or_null(self.offset),
                Token::Text(b",\"size\":"),
                Token::Number(self.size),
                Token::Text(b",\"row\":"),
                Token::Number(u64::from(self.member.member)),
                Token::Text(b",\"at\":"),
                Token::Number(self.at),
                Token::Text(b",\"architecture\":\""),
                Token::Tag(header.architecture),
            ],
        )
    }

    /// Prints what the member is for, and where its container is, as members of the object.
    #[tactic(auto, unfolding(crate::specs::Fragments::fragment_codes))]
    fn print_codes<W: Sink>(self, out: &mut W, page: &mut Page) -> Result<(), StreamFault>
        ensures { Sends result (W.stream out.old) (W.stream out.new) page.old.items page.new.items (fragment_codes (fragment_seen self.entry)) }
    {
        let header = self.member.header;
        print_tokens(
            out,
            page,
            &[
                Token::Text(b"\",\"usage\":"),
                Token::Number(u64::from(header.usage_code)),
                Token::Text(b","),
                Token::NameMember(b"usage_text", usage_word(header.usage())),
                Token::Text(b",\"where\":"),
                Token::Number(u64::from(header.where_code)),
                Token::Text(b","),
                Token::NameMember(b"where_text", where_word(header.locator())),
            ],
        )
    }

    /// Prints the member's versions as members of the object.
    #[tactic(auto, unfolding(crate::specs::Fragments::fragment_versions))]
    fn print_versions<W: Sink>(self, out: &mut W, page: &mut Page) -> Result<(), StreamFault>
        ensures { Sends result (W.stream out.old) (W.stream out.new) page.old.items page.new.items (fragment_versions (fragment_seen self.entry)) }
    {
        let header = self.member.header;
        print_tokens(
            out,
            page,
            &[
                Token::Text(b",\"current\":"),
                Token::Number(u64::from(header.current_version)),
                Token::Text(b",\"current_text\":\""),
                Token::Version(header.current_version),
                Token::Text(b"\",\"olddef\":"),
                Token::Number(u64::from(header.old_def_version)),
                Token::Text(b",\"olddef_text\":\""),
                Token::Version(header.old_def_version),
            ],
        )
    }

    /// Prints the member's other fields, and the end of the object.
    #[tactic(auto, unfolding(crate::specs::Fragments::fragment_fields))]
    fn print_fields<W: Sink>(self, out: &mut W, page: &mut Page) -> Result<(), StreamFault>
        ensures { Sends result (W.stream out.old) (W.stream out.new) page.old.items page.new.items (fragment_fields (fragment_seen self.entry)) }
    {
        let header = self.member.header;
        print_tokens(
            out,
            page,
            &[
                Token::Text(b"\",\"level\":"),
                Token::Number(u64::from(header.update_level)),
                Token::Text(b",\"stack\":"),
                Token::Number(u64::from(header.stack_size)),
                Token::Text(b",\"directory\":"),
                Token::Number(u64::from(header.directory_or_flags)),
                Token::Text(b",\"place\":"),
                Token::Number(u64::from(header.offset)),
                Token::Text(b",\"length\":"),
                Token::Number(u64::from(header.length)),
                Token::Text(b",\"space\":"),
                Token::Number(u64::from(header.space_id)),
                Token::Text(b",\"instance\":"),
                Token::Number(u64::from(header.fork_instance)),
                Token::Text(b",\"extensions\":"),
                Token::Number(u64::from(header.extension_count)),
                Token::Text(b"}"),
            ],
        )
    }
}

/// Prints an architecture as its four characters.
#[tactic(auto, unfolding(crate::specs::Fragments::architecture_text))]
fn print_architecture<W: Sink>(out: &mut W, page: &mut Page, tag: u32) -> Result<(), StreamFault>
    ensures { Sends result (W.stream out.old) (W.stream out.new) page.old.items page.new.items (architecture_text tag) }
{
    print_characters(out, page, &tag.to_be_bytes())
}

/// Prints the characters of an architecture.
fn print_characters<W: Sink>(
    out: &mut W,
    page: &mut Page,
    characters: &[u8],
) -> Result<(), StreamFault>
    ensures { Sends result (W.stream out.old) (W.stream out.new) page.old.items page.new.items (codes " architecture " ++ name_text characters.now) }
{
    print_tokens(
        out,
        page,
        &[Token::Text(b" architecture "), Token::Name(characters)],
    )
}

/// Returns a member's name, or `?` if it can't be read.
fn name_or_mark<'a>(name: Result<&'a [u8], MemberFault>) -> Token<'a>
    ensures { token_text result ≡ name_or_mark (name_seen name.entry) }
{
    match name {
        Ok(name) => name_column(name),
        Err(_) => Token::Text(b"?"),
    }
}

/// Returns a member's name, if it can be read.
fn name_of<'a>(name: Result<&'a [u8], MemberFault>) -> Option<&'a [u8]>
    ensures { option_copied result ≡ name_of (name_seen name.entry) }
{
    match name {
        Ok(name) => Some(name),
        Err(_) => None,
    }
}

/// Returns the word for what a member is for, if the format names it.
fn usage_word(usage: Usage) -> Option<&'static [u8]>
    ensures { option_copied result ≡ usage_word usage }
{
    match usage {
        Usage::ImportLibrary => Some(b"library"),
        Usage::Application => Some(b"application"),
        Usage::DropInAddition => Some(b"addition"),
        Usage::StubLibrary => Some(b"stub"),
        Usage::WeakStubLibrary => Some(b"weak-stub"),
        Usage::Other(_) => None,
    }
}

/// Returns the word for where a member's container is, if the format names it.
fn where_word(locator: Locator) -> Option<&'static [u8]>
    ensures { option_copied result ≡ where_word locator }
{
    match locator {
        Locator::Memory => Some(b"memory"),
        Locator::DataFork { .. } => Some(b"data"),
        Locator::Resource { .. } => Some(b"resource"),
        Locator::Other(_) => None,
    }
}

/// Returns a word, or `?` if there is none.
fn word_or_mark<'a>(word: Option<&'a [u8]>) -> &'a [u8]
    ensures { result.now ≡ word_or_mark (option_copied word.entry) }
{
    match word {
        Some(word) => word,
        None => b"?",
    }
}
