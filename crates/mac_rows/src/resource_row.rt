//! What is printed of the resources of a file.
ghost use Rattle.std.specs.Prelude.{◌≡◌, ◌++◌, codes, option_map, true};
ghost use Rattle.std.specs.Option.{option_copied};
ghost use Rattle.pef_words.specs.Refusals.{result_map};
ghost use Rattle.pef_ports.specs.Names.{name_text};
ghost use Rattle.pef_ports.specs.Sent.{Sends};
ghost use Rattle.mac_forks.specs.Views.{part_seen};
ghost use Rattle.mac_resources.specs.Resources.{all_resources};
ghost use Rattle.mac_resources.specs.Views.{fork_seen, name_seen, resource_seen, row_seen};
ghost use Rattle.pef_rows.specs.Objects.{separator};
ghost use Rattle.pef_rows.specs.Tokens.{at_or_dash, token_text};
ghost use Rattle.mac_rows.specs.MacParts.{wrapping_of};
ghost use Rattle.mac_rows.specs.ResourceRows.{contents_at, contents_size, fork_text, known_name, name_if, name_word, part_text, resource_back, resource_front, resource_line, resource_object, resource_rest, resource_rows, resource_start, resource_text, resources_of, resources_text, row_text, rows_in, still_first};

use crate::output_format::OutputFormat;
use crate::wrapping::{Wrapping, resources_in};
use cfm_members::readable;
use mac_forks::ForkBytes;
use mac_resources::{Resource, ResourceFault, ResourceFork};
use pef_listing::{magnitude, sign};
use pef_ports::{Page, Sink, StreamFault};
use pef_rows::{Token, at_or_dash, name_column, number_or_null, print_separator, print_tokens};

/// The length of a row of a list of references.
const REFERENCE_SIZE: u64 = 12;

/// Returns a bound on how many rows of resources a file has.
#[tactic(auto, unfolding(crate::specs::ResourceRows::resource_rows))]
pub fn resource_rows(bytes: &[u8]) -> u64
    ensures { result ≡ resource_rows bytes.now }
{
    match readable(Wrapping::of(bytes).resource_fork) {
        Some(part) => rows_in(resources_in(part)),
        None => 0,
    }
}

/// Returns a bound on how many rows a resource fork has.
fn rows_in(fork: Option<Result<ResourceFork<'_>, ResourceFault>>) -> u64
    ensures { result ≡ rows_in (option_map (result_map fork_seen) fork.entry) }
{
    match fork {
        Some(Ok(fork)) => {
            u64::from(fork.type_count()) + u64::from(fork.header().map_length) / REFERENCE_SIZE
        }
        Some(Err(_)) | None => 0,
    }
}

/// Prints the resources of a file whose rows can be read.
pub fn print_resources<W: Sink>(
    out: &mut W,
    page: &mut Page,
    form: OutputFormat,
    bytes: &[u8],
) -> Result<(), StreamFault>
    ensures { Sends result (W.stream out.old) (W.stream out.new) page.old.items page.new.items (resources_of form (wrapping_of bytes.now)) }
{
    print_part(out, page, form, readable(Wrapping::of(bytes).resource_fork))
}

/// Prints the resources of a resource fork, if there is one.
fn print_part<W: Sink>(
    out: &mut W,
    page: &mut Page,
    form: OutputFormat,
    part: Option<ForkBytes<'_>>,
) -> Result<(), StreamFault>
    ensures { Sends result (W.stream out.old) (W.stream out.new) page.old.items page.new.items (part_text form (option_map part_seen part.entry)) }
{
    match part {
        Some(part) => print_fork(out, page, form, part.offset as u64, resources_in(part)),
        None => print_tokens(out, page, &[]),
    }
}

/// Prints the resources of a fork that begins at an offset of the file, if it can be read.
fn print_fork<W: Sink>(
    out: &mut W,
    page: &mut Page,
    form: OutputFormat,
    base: u64,
    fork: Option<Result<ResourceFork<'_>, ResourceFault>>,
) -> Result<(), StreamFault>
    ensures { Sends result (W.stream out.old) (W.stream out.new) page.old.items page.new.items (fork_text form base (option_map (result_map fork_seen) fork.entry)) }
{
    match fork {
        Some(Ok(fork)) => print_rows(out, page, form, base, fork),
        Some(Err(_)) | None => print_tokens(out, page, &[]),
    }
}

/// Prints the resources of a fork.
fn print_rows<W: Sink>(
    out: &mut W,
    page: &mut Page,
    form: OutputFormat,
    base: u64,
    fork: ResourceFork<'_>,
) -> Result<(), StreamFault>
    ensures { Sends result (W.stream out.old) (W.stream out.new) page.old.items page.new.items (resources_text form true base (all_resources (fork_seen fork.entry))) }
{
    let mut is_first = true;
    for row in fork.resources() {
        print_row(out, page, (form, is_first), base, row)?;
        is_first = still_first(is_first, row);
    }
    Ok(())
}

/// Returns whether the next resource is the first one that is printed.
fn still_first(is_first: bool, row: Result<Resource<'_>, ResourceFault>) -> bool
    ensures { result ≡ still_first is_first (row_seen row.entry) }
{
    match row {
        Ok(_) => false,
        Err(_) => is_first,
    }
}

/// Prints the resource of a row, if it can be read.
fn print_row<W: Sink>(
    out: &mut W,
    page: &mut Page,
    how: (OutputFormat, bool),
    base: u64,
    row: Result<Resource<'_>, ResourceFault>,
) -> Result<(), StreamFault>
    ensures { Sends result (W.stream out.old) (W.stream out.new) page.old.items page.new.items (row_text how.0 how.1 base (row_seen row.entry)) }
{
    match (how.0, row) {
        (OutputFormat::Text, Ok(resource)) => print_line(out, page, base, resource),
        (OutputFormat::Json, Ok(resource)) => print_element(out, page, how.1, base, resource),
        (_, Err(_)) => print_tokens(out, page, &[]),
    }
}

/// Prints a resource as an object of JSON, after a comma unless it is the first one.
fn print_element<W: Sink>(
    out: &mut W,
    page: &mut Page,
    is_first: bool,
    base: u64,
    resource: Resource<'_>,
) -> Result<(), StreamFault>
    ensures { Sends result (W.stream out.old) (W.stream out.new) page.old.items page.new.items (separator is_first ++ resource_object base (resource_seen resource.entry)) }
{
    print_separator(out, page, is_first)?;
    print_object(out, page, base, resource)
}

/// Prints the line of a resource.
fn print_line<W: Sink>(
    out: &mut W,
    page: &mut Page,
    base: u64,
    resource: Resource<'_>,
) -> Result<(), StreamFault>
    ensures { Sends result (W.stream out.old) (W.stream out.new) page.old.items page.new.items (resource_line base (resource_seen resource.entry)) }
{
    let at = contents_at(base, resource.contents);
    print_start(out, page, at, &resource.type_code.to_be_bytes())?;
    print_rest(out, page, resource)
}

/// Prints where the bytes of a resource are, and the characters of its type.
fn print_start<W: Sink>(
    out: &mut W,
    page: &mut Page,
    at: Option<u64>,
    characters: &[u8],
) -> Result<(), StreamFault>
    ensures { Sends result (W.stream out.old) (W.stream out.new) page.old.items page.new.items (at_or_dash at ++ codes " resource " ++ name_text characters.now) }
{
    print_tokens(
        out,
        page,
        &[
            at_or_dash(at),
            Token::Text(b" resource "),
            Token::Name(characters),
        ],
    )
}

/// Prints the rest of the line of a resource.
#[tactic(auto, unfolding(crate::specs::ResourceRows::resource_rest))]
fn print_rest<W: Sink>(
    out: &mut W,
    page: &mut Page,
    resource: Resource<'_>,
) -> Result<(), StreamFault>
    ensures { Sends result (W.stream out.old) (W.stream out.new) page.old.items page.new.items (resource_rest (resource_seen resource.entry)) }
{
    let id = i32::from(resource.reference.id);
    let name = known_name(resource.name);
    print_tokens(
        out,
        page,
        &[
            Token::Text(b" "),
            Token::Text(sign(id)),
            Token::Number(magnitude(id)),
            Token::Text(name_word(name)),
            name_if(name),
            Token::Text(b" size "),
            Token::Number(contents_size(resource.contents)),
            Token::Text(b" attributes "),
            Token::Number(u64::from(resource.reference.attributes)),
            Token::Text(b"\n"),
        ],
    )
}

/// Prints the object of a resource.
fn print_object<W: Sink>(
    out: &mut W,
    page: &mut Page,
    base: u64,
    resource: Resource<'_>,
) -> Result<(), StreamFault>
    ensures { Sends result (W.stream out.old) (W.stream out.new) page.old.items page.new.items (resource_object base (resource_seen resource.entry)) }
{
    print_front(out, page, resource)?;
    print_back(out, page, base, resource)
}

/// Prints the object up to the name.
#[tactic(auto, unfolding(crate::specs::ResourceRows::resource_front))]
fn print_front<W: Sink>(
    out: &mut W,
    page: &mut Page,
    resource: Resource<'_>,
) -> Result<(), StreamFault>
    ensures { Sends result (W.stream out.old) (W.stream out.new) page.old.items page.new.items (resource_front (resource_seen resource.entry)) }
{
    let id = i32::from(resource.reference.id);
    print_tokens(
        out,
        page,
        &[
            Token::Text(b"{\"type\":\""),
            Token::Tag(resource.type_code),
            Token::Text(b"\",\"id\":"),
            Token::Text(sign(id)),
            Token::Number(magnitude(id)),
            Token::Text(b","),
            Token::NameMember(b"name", known_name(resource.name)),
        ],
    )
}

/// Prints the rest of the object.
#[tactic(auto, unfolding(crate::specs::ResourceRows::resource_back))]
fn print_back<W: Sink>(
    out: &mut W,
    page: &mut Page,
    base: u64,
    resource: Resource<'_>,
) -> Result<(), StreamFault>
    ensures { Sends result (W.stream out.old) (W.stream out.new) page.old.items page.new.items (resource_back base (resource_seen resource.entry)) }
{
    print_tokens(
        out,
        page,
        &[
            Token::Text(b",\"offset\":"),
            number_or_null(contents_at(base, resource.contents)),
            Token::Text(b",\"length\":"),
            Token::Number(contents_size(resource.contents)),
            Token::Text(b",\"attributes\":"),
            Token::Number(u64::from(resource.reference.attributes)),
            Token::Text(b"}"),
        ],
    )
}

/// Returns the offset in the file of the bytes of a resource, if they are there.
fn contents_at(base: u64, contents: Result<ForkBytes<'_>, ResourceFault>) -> Option<u64>
    ensures { result ≡ contents_at base (result_map part_seen contents.entry) }
{
    match contents {
        Ok(part) => Some(base.saturating_add(part.offset as u64)),
        Err(_) => None,
    }
}

/// Returns how many bytes of a resource are there.
fn contents_size(contents: Result<ForkBytes<'_>, ResourceFault>) -> u64
    ensures { result ≡ contents_size (result_map part_seen contents.entry) }
{
    match contents {
        Ok(part) => part.bytes.len() as u64,
        Err(_) => 0,
    }
}

/// Returns the name of a resource, if it has one that can be read.
fn known_name<'a>(name: Option<Result<&'a [u8], ResourceFault>>) -> Option<&'a [u8]>
    ensures { option_copied result ≡ known_name (option_map name_seen name.entry) }
{
    match name {
        Some(Ok(name)) => Some(name),
        Some(Err(_)) | None => None,
    }
}

/// Returns the word before a name, if there is one.
fn name_word(name: Option<&[u8]>) -> &'static [u8]
    ensures { result.now ≡ name_word (option_copied name.entry) }
{
    match name {
        Some(_) => b" name ",
        None => b"",
    }
}

/// Returns a name, if there is one.
fn name_if<'a>(name: Option<&'a [u8]>) -> Token<'a>
    ensures { token_text result ≡ name_if (option_copied name.entry) }
{
    match name {
        Some(name) => name_column(name),
        None => Token::Text(b""),
    }
}
