//! How the name of a fragment can be written on the command line.
ghost use Rattle.std.specs.Prelude.{◌≡◌, ◌<◌, ◌^◌, option_map};
ghost use Rattle.std.specs.Option.{option_copied};
ghost use Rattle.std.specs.Str.{bytes_eq};
ghost use Rattle.pef_words.specs.Refusals.{result_map};
ghost use Rattle.cfm_members.specs.Fragments.{table_in_file};
ghost use Rattle.cfm_members.specs.Members.{all_members};
ghost use Rattle.cfm_members.specs.Views.{name_seen, row_seen, table_seen};
ghost use Rattle.pef_ports.specs.Names.{byte_text, is_plain_byte, name_text};
ghost use Rattle.pef_ports.specs.Text.{hex_digit};
ghost use Rattle.pef_rows.specs.Strings.{character_of};
ghost use Rattle.pef_tool.specs.Kept.Spelling.{after, after_one};
ghost use Rattle.pef_tool.specs.Spellings.{container_asked, container_of_name, first_spelled, is_spelled, spelled_here, spelled_in, spelled_name, utf8_of, utf8_text};

use cfm_members::{
    FragmentTable, Member, MemberFault, MemberLookupFault, container_in_pair, fragment_table,
};
use pef_rows::character_of;

/// The architecture of members that aren't for PowerPC: `m68k`.
const CFM_68K: u32 = 0x6D36_386B;

/// Returns the container of the fragment with a name, by a file with the data fork and one with the resource fork. If no fragment
/// has the name, the first one whose name is printed so or is so in UTF-8 is taken.
pub(crate) fn container_asked<'a>(
    bytes: &'a [u8],
    resources: &'a [u8],
    asked: &[u8],
) -> Result<&'a [u8], MemberLookupFault>
    ensures { result_map (λ container. container.now) result ≡ container_asked bytes.entry.now resources.entry.now asked.now }
{
    match container_in_pair(bytes, resources, asked) {
        Err(MemberLookupFault::NoContainer) => container_of_name(
            bytes,
            resources,
            spelled_in(resources, asked),
        ),
        found => found,
    }
}

/// Returns the container of the fragment with a name, if there is a name.
fn container_of_name<'a>(
    bytes: &'a [u8],
    resources: &'a [u8],
    name: Option<&[u8]>,
) -> Result<&'a [u8], MemberLookupFault>
    ensures { result_map (λ container. container.now) result ≡ container_of_name bytes.entry.now resources.entry.now (option_copied name.entry) }
{
    match name {
        Some(name) => container_in_pair(bytes, resources, name),
        None => Err(MemberLookupFault::NoContainer),
    }
}

/// Returns the first name in the table of fragments of a file that is `asked` on the command line: printed
/// so, or so in UTF-8.
fn spelled_in<'a>(resources: &'a [u8], asked: &[u8]) -> Option<&'a [u8]>
    ensures { option_copied result ≡ spelled_in asked.now (table_in_file resources.entry.now) }
{
    match fragment_table(resources) {
        Ok(table) => first_spelled(table, asked),
        Err(_) => None,
    }
}

/// Returns the first name of a table of fragments that is `asked` on the command line.
fn first_spelled<'a>(table: FragmentTable<'a>, asked: &[u8]) -> Option<&'a [u8]>
    ensures { option_copied result ≡ first_spelled asked.now (all_members (table_seen table.entry)) }
{
    for row in table.members() {
        match spelled_here(row, asked) {
            Some(name) => return Some(name),
            None => {}
        }
    }
    None
}

/// Returns the name of a row's member if it is `asked` on the command line, and the member isn't for
/// CFM-68K.
fn spelled_here<'a>(row: Result<Member<'a>, MemberFault>, asked: &[u8]) -> Option<&'a [u8]>
    ensures { option_copied result ≡ spelled_here asked.now (row_seen row.entry) }
{
    match row {
        Ok(member) => {
            if member.header.architecture == CFM_68K {
                None
            } else {
                spelled_name(member.name, asked)
            }
        }
        Err(_) => None,
    }
}

/// Returns a member's name if it is `asked` on the command line.
fn spelled_name<'a>(name: Result<&'a [u8], MemberFault>, asked: &[u8]) -> Option<&'a [u8]>
    ensures { option_copied result ≡ spelled_name asked.now (name_seen name.entry) }
{
    match name {
        Ok(name) => {
            if is_printed_as(name, asked) || is_utf8_of(name, asked) {
                Some(name)
            } else {
                None
            }
        }
        Err(_) => None,
    }
}

/// Returns whether a name is printed as `asked`.
fn is_printed_as(name: &[u8], asked: &[u8]) -> bool
    ensures { result ≡ bytes_eq (name_text name.now) asked.now }
{
    let mut rest = asked;
    for b in name {
        match after_printed(*b, rest) {
            Some(after) => rest = after,
            None => return false,
        }
    }
    rest.is_empty()
}

/// Returns whether `asked` is a name in UTF-8.
fn is_utf8_of(name: &[u8], asked: &[u8]) -> bool
    ensures { result ≡ bytes_eq (utf8_text name.now) asked.now }
{
    let mut rest = asked;
    for b in name {
        match after_utf8(character_of(*b), rest) {
            Some(after) => rest = after,
            None => return false,
        }
    }
    rest.is_empty()
}

/// Returns what follows the printed form of a byte of a name in a text, if the text begins with that.
fn after_printed<'a>(b: u8, text: &'a [u8]) -> Option<&'a [u8]>
    ensures { option_copied result ≡ after (byte_text b) text.entry.now }
{
    if is_plain_byte(b) {
        after_all(&[u16::from(b)], text)
    } else {
        after_all(
            &[u16::from(b'%'), hex_digit(b / 16), hex_digit(b % 16)],
            text,
        )
    }
}

/// Returns what follows the UTF-8 of a character in a text, if the text begins with that.
#[tactic(auto, unfolding(crate::specs::Spellings::utf8_of))]
fn after_utf8<'a>(character: u16, text: &'a [u8]) -> Option<&'a [u8]>
    ensures { option_copied result ≡ after (utf8_of character) text.entry.now }
{
    if character < 0x80 {
        after_all(&[character], text)
    } else if character < 0x800 {
        after_all(&[0xC0 + character / 64, 0x80 + character % 64], text)
    } else {
        after_all(
            &[
                0xE0 + character / 4096,
                0x80 + character / 64 % 64,
                0x80 + character % 64,
            ],
            text,
        )
    }
}

/// Returns what follows some bytes in a text that begins with them.
fn after_all<'a>(bytes: &[u16], text: &'a [u8]) -> Option<&'a [u8]>
    ensures { option_copied result ≡ after bytes.now text.entry.now }
{
    let mut rest = text;
    for byte in bytes {
        match after_one(*byte, rest) {
            Some(others) => rest = others,
            None => return None,
        }
    }
    Some(rest)
}

/// Returns what follows a byte in a text that begins with it.
fn after_one<'a>(byte: u16, text: &'a [u8]) -> Option<&'a [u8]>
    ensures { option_copied result ≡ after_one byte text.entry.now }
{
    match text {
        [first, rest @ ..] => {
            if u16::from(*first) == byte {
                Some(rest)
            } else {
                None
            }
        }
        [] => None,
    }
}

/// Returns whether a byte of a name is printed unchanged.
fn is_plain_byte(b: u8) -> bool
    ensures { result ≡ is_plain_byte b }
{
    b >= 0x21 && b <= 0x7E && b != b'%'
}

/// Returns the upper-case hex digit of a number below 16.
fn hex_digit(n: u8) -> u16
    requires { n < 16 }
    ensures { result ≡ hex_digit n }
{
    if n < 10 {
        u16::from(b'0' + n)
    } else {
        u16::from(b'A' + n - 10)
    }
}
